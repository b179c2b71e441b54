// Bytes in memory as a source that never fails.
ghost use Rattle.std.specs.Prelude.{◌≡◌, ◌<◌, Some, length};
ghost use Rattle.lr_outside.specs.PlainSource.{plain_bytes_left, GivesAll};
ghost use Rattle.lr_outside.specs.Turns.{ReadsFront, is_failed_read, CountsFaults};

use crate::{ReadTurn, Source};

/// Bytes in memory to be read, each read giving as many as the buffer holds. No read fails, so the
/// count of faults is 0.
#[derive(Drop)]
pub struct PlainSource<'a> {
    left: &'a [u8],
}

impl<'a> PlainSource<'a> {
    /// A source of these bytes.
    pub fn new(bytes: &'a [u8]) -> Self
        ensures { plain_bytes_left result ≡ bytes.now }
    {
        PlainSource { left: bytes }
    }
}

impl Source for PlainSource<'_> {
    ghost left = { λ s. Some (plain_bytes_left s) };

    ghost faults = { λ _. 0 };

    fn read(&mut self, buffer: &mut [u8]) -> ReadTurn
        requires { 0 < length buffer.old }
        ensures bytes { ReadsFront (Some (plain_bytes_left self.old))
            (Some (plain_bytes_left self.new)) buffer.new result }
        ensures counts { CountsFaults 0 0 (is_failed_read result) }

        // Beyond what each source keeps: that it never fails, and how much it gives.
        ensures all { GivesAll (plain_bytes_left self.old) (length buffer.old) result }
    {
        if self.left.is_empty() {
            return ReadTurn::End;
        }
        let count = self.left.len().min(buffer.len());
        let (front, rest) = self.left.split_at(count);
        buffer[..count].copy_from_slice(front);
        self.left = rest;
        ReadTurn::Got(count)
    }
}
