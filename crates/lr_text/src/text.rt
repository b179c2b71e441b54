ghost use Rattle.std.specs.Prelude.{◌≡◌, ◌↔◌, [], ◌∷◌, ◌++◌, length, take, IsTrue, IfOk, OnOk, OnErr};

use std::alloc::{AllocError, Global};
use std::marker::Model;
use std::{fmt, str};

/// A list of bytes.
#[derive(Clone, Drop)]
pub struct Text {
    bytes: Vec<u8>,
}

impl Model for Text {
    ghost use Rattle.std.specs.Prelude.{ℕ, List};

    ghost Value = { List ℕ };

    ghost view = { λ t. t.bytes.items };
}

impl Text {
    /// No bytes. It takes no memory yet.
    pub fn new(alloc: Global) -> Self
        ensures { result ≡ [] }
    {
        Text {
            bytes: Vec::new(alloc),
        }
    }

    /// A copy of these bytes.
    pub fn of(alloc: Global, bytes: &[u8]) -> Result<Self, AllocError>
        ensures { IfOk result (λ t. t ≡ bytes.now) }
    {
        Ok(Text {
            bytes: Vec::from_slice(alloc, bytes)?,
        })
    }

    /// Appends a byte. An error leaves the text as it was.
    pub fn push(&mut self, byte: u8) -> Result<(), AllocError>
        ensures ok { OnOk result (self.new ≡ self.old ++ byte ∷ []) }
        ensures err { OnErr result (self.new ≡ self.old) }
    {
        self.bytes.push(byte)?;
        Ok(())
    }

    /// Appends these bytes, all of them or none: an error leaves the text as it was.
    pub fn push_bytes(&mut self, bytes: &[u8]) -> Result<(), AllocError>
        ensures ok { OnOk result (self.new ≡ self.old ++ bytes.now) }
        ensures err { OnErr result (self.new ≡ self.old) }
    {
        self.bytes.extend_from_slice(bytes)
    }

    /// The bytes.
    pub fn as_slice(&self) -> &[u8]
        ensures { result.now ≡ self.now }
    {
        self.bytes.as_slice()
    }

    /// How many bytes there are.
    pub fn len(&self) -> usize
        ensures { result ≡ length self.now }
    {
        self.bytes.len()
    }

    /// Whether there are none.
    pub fn is_empty(&self) -> bool
        ensures { IsTrue result ↔ (self.now ≡ []) }
    {
        self.bytes.is_empty()
    }

    /// Removes all bytes behind the first `len`, and keeps the room for them.
    pub fn truncate(&mut self, len: usize)
        ensures { self.new ≡ take len self.old }
    {
        self.bytes.truncate(len);
    }

    /// Removes all bytes, and keeps the room for them.
    pub fn clear(&mut self)
        ensures { self.new ≡ [] }
    {
        self.bytes.clear();
    }
}

impl PartialEq for Text {
    ghost use Rattle.std.specs.Cmp.{partial_equiv_from_equiv};
    ghost use Rattle.std.specs.Cmp.Lexicographic.{nat_list_eq_equiv};
    ghost use Rattle.std.specs.Str.{bytes_eq};

    ghost eq = { bytes_eq };

    ghost laws = { partial_equiv_from_equiv nat_list_eq_equiv };

    fn eq(&self, other: &Self) -> bool {
        self.as_slice() == other.as_slice()
    }
}

impl Eq for Text {
    ghost use Rattle.std.specs.Cmp.Lexicographic.{nat_list_eq_equiv};

    ghost laws = { nat_list_eq_equiv };
}

impl fmt::Debug for Text {
    fn fmt<W: fmt::Write>(&self, f: &mut fmt::Formatter<W>) -> fmt::Result {
        match str::from_utf8(self.as_slice()) {
            Ok(text) => fmt::Debug::fmt(text, f),
            Err(_) => fmt::Debug::fmt(self.as_slice(), f),
        }
    }
}
