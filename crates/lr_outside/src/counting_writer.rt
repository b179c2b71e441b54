// A writer of std that counts its calls.
ghost use Rattle.std.specs.Prelude.{◌≡◌};
ghost use Rattle.std.specs.Io.{WritesAtMost};
ghost use Rattle.std.specs.Io.KnownBytes.{WriteAppends};
ghost use Rattle.lr_outside.specs.Turns.{next_count};

use std::io;
use std::io::Write;

/// A writer with the count of its writes, so that what writes to it can promise how many it makes.
/// The count stays at `u64::MAX`.
///
/// No contract can say that it makes one call itself, since std's writers don't tell how many they
/// had; a test shows that it does.
#[derive(Drop)]
pub struct CountingWriter<W> {
    writer: W,
    calls: u64,
}

impl<W: Write> CountingWriter<W> {
    pub fn new(writer: W) -> Self
        ensures writer { result.writer ≡ writer }
        ensures calls { result.calls ≡ 0 }
    {
        CountingWriter { writer, calls: 0 }
    }
}

impl<W: Write> Write for CountingWriter<W> {
    ghost contents = { λ s. W.contents s.writer };

    fn write(&mut self, buf: &[u8]) -> io::Result<usize>
        ensures bound { WritesAtMost result buf.now }
        ensures bytes { WriteAppends (W.contents self.old.writer) (W.contents self.new.writer)
            result buf.now }
        ensures calls { self.new.calls ≡ next_count self.old.calls }
    {
        self.calls = self.calls.saturating_add(1);
        self.writer.write(buf)
    }

    fn flush(&mut self) -> io::Result<()> {
        self.writer.flush()
    }
}
