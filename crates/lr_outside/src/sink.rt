// Where bytes are written to.
ghost use Rattle.std.specs.Prelude.{ℕ, List, Option, ◌<◌, ◌≤◌, length, not};
ghost use Rattle.std.specs.Bool.{OnTrue, OnFalse};
ghost use Rattle.std.specs.Io.KnownBytes.{Appends};
ghost use Rattle.lr_outside.specs.Turns.{WritesFront, AppendsFront, is_failed_write, CountsFaults, Rose};

/// What one write did.
#[derive(Clone, Copy, Debug, PartialEq, Eq)]
pub enum WriteTurn {
    /// So many bytes of the piece's front were taken: at least one.
    Took(usize),
    /// Nothing was taken: the write failed, and the sink counted that.
    Failed,
}

/// A sink of bytes, whose writes may fail.
pub trait Sink {
    /// The bytes that the sink holds, where it tells them.
    ghost held: { Self → Option (List ℕ) };

    /// How many writes have failed: 2 to the 64th less 1 stands for that many and for more.
    ghost faults: { Self → ℕ };

    /// Takes some bytes from the front of the piece, which isn't empty.
    fn write(&mut self, piece: &[u8]) -> WriteTurn
        requires { 0 < length piece.now }
        ensures bytes { WritesFront (held self.old) (held self.new) piece.now result }
        ensures counts { CountsFaults (faults self.old) (faults self.new)
            (is_failed_write result) };
}

/// Writes the whole text, in as many writes as the sink needs, and says whether it did: false comes
/// at the first write that fails, when a front of the text has been written.
#[must_use]
pub fn write_whole<K: Sink>(sink: &mut K, text: &[u8]) -> bool
    ensures whole { OnTrue result (Appends (K.held sink.old) (K.held sink.new) text.now) }
    ensures front { OnFalse result (AppendsFront (K.held sink.old) (K.held sink.new) text.now) }

    // No write failed, or just the last one did.
    ensures counts { CountsFaults (K.faults sink.old) (K.faults sink.new) (not result) }
    ensures later { K.faults sink.old ≤ K.faults sink.new }
    ensures fault { OnFalse result (Rose (K.faults sink.old) (K.faults sink.new)) }
{
    let mut rest = text;
    while !rest.is_empty() {
        match sink.write(rest) {
            WriteTurn::Took(count) => rest = &rest[count..],
            WriteTurn::Failed => return false,
        }
    }
    true
}
