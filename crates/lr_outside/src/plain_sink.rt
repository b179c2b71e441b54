// A sink that never fails and keeps nothing.
ghost use Rattle.std.specs.Prelude.{◌≡◌, ◌<◌, None, length};
ghost use Rattle.lr_outside.specs.Turns.{WritesFront, is_failed_write, CountsFaults};

use crate::{Sink, WriteTurn};

/// Takes each piece whole and drops it. No write fails, so the count of faults is 0, and nothing
/// tells what was written.
#[derive(Drop)]
pub struct PlainSink;

impl Sink for PlainSink {
    ghost held = { λ _. None };

    ghost faults = { λ _. 0 };

    fn write(&mut self, piece: &[u8]) -> WriteTurn
        requires { 0 < length piece.now }
        ensures bytes { WritesFront None None piece.now result }
        ensures counts { CountsFaults 0 0 (is_failed_write result) }

        // Beyond what each sink keeps: that it takes all, and so never fails.
        ensures whole { result ≡ WriteTurn.Took (length piece.now) }
    {
        WriteTurn::Took(piece.len())
    }
}
