// Where bytes are read from.
ghost use Rattle.std.specs.Prelude.{ℕ, List, Option, ◌<◌, length};
ghost use Rattle.lr_outside.specs.Turns.{ReadsFront, is_failed_read, CountsFaults};

/// What one read gave.
#[derive(Clone, Copy, Debug, PartialEq, Eq)]
pub enum ReadTurn {
    /// So many bytes, now at the front of the buffer: at least one.
    Got(usize),
    /// Nothing: the source is at its end.
    End,
    /// Nothing: the read failed, and the source counted that. A later read goes on where this one
    /// was to begin.
    Failed,
}

/// A source of bytes, whose reads may fail.
pub trait Source {
    /// The bytes that reads have yet to give, where the source tells them.
    ghost left: { Self → Option (List ℕ) };

    /// How many reads have failed: 2 to the 64th less 1 stands for that many and for more.
    ghost faults: { Self → ℕ };

    /// Reads some bytes into the front of the buffer, which isn't empty.
    fn read(&mut self, buffer: &mut [u8]) -> ReadTurn
        requires { 0 < length buffer.old }
        ensures bytes { ReadsFront (left self.old) (left self.new) buffer.new result }
        ensures counts { CountsFaults (faults self.old) (faults self.new) (is_failed_read result) };
}
