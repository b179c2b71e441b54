ghost use Rattle.std.specs.Prelude.{◌≡◌, ◌↔◌, ℕ, [], length, map, IsTrue};

use lr_text::Text;
use std::alloc::Global;
use std::marker::Model;

/// A frame of RESP2.
///
/// A text of `Simple` or `Fault` is spelled as a line, so it can be read back only where it has no
/// CR and no LF.
#[cycle(frame)]
#[derive(Drop, Debug)]
pub enum Frame {
    /// A simple string: a line of text.
    Simple(Text),
    /// An error: a line of text.
    Fault(Text),
    /// A number.
    Number(i64),
    /// A bulk string: any bytes.
    Bulk(Text),
    /// The null that stands in the place of a bulk string.
    Null,
    /// The null that stands in the place of an array.
    NullArray,
    /// An array.
    Array(Frames),
}

/// A list of frames, which contracts see as the list of their spellings.
#[cycle(frame)]
#[derive(Drop, Debug)]
pub struct Frames {
    items: Vec<Frame>,
}

impl Model for Frames {
    ghost use Rattle.std.specs.Prelude.{ℕ, List, map};

    ghost Value = { List (List ℕ) };

    ghost use Rattle.lr_resp.specs.Spelling.{spelling};

    ghost view = { λ f. map spelling f.items.items };

    ghost use Rattle.lr_resp.specs.Size.{total};

    ghost size = { total };

    ghost use Rattle.std.proofs.Common.{arith};
    ghost use Rattle.lr_resp.specs.SizeFalls.{most_below};

    ghost size_decreases = { λ a h. omega (arith, most_below a.items.items) };
}

impl Frames {
    ghost use Rattle.lr_resp.specs.Spelling.{spelling};

    /// No frames. It takes no memory.
    pub fn new(alloc: Global) -> Frames
        ensures { result ≡ [] }
    {
        Frames {
            items: Vec::new(alloc),
        }
    }

    /// These frames.
    pub fn of(items: Vec<Frame>) -> Frames
        ensures { result ≡ map spelling items.items }
    {
        Frames { items }
    }

    /// How many there are.
    pub fn len(&self) -> usize
        ensures { result ≡ length self.now }
    {
        self.items.len()
    }

    /// Whether there are none.
    pub fn is_empty(&self) -> bool
        ensures { IsTrue result ↔ (self.now ≡ []) }
    {
        self.items.is_empty()
    }

    /// The frames.
    pub fn as_slice(&self) -> &[Frame]
        ensures { map spelling result.now ≡ self.now }
    {
        self.items.as_slice()
    }
}
