// A reader of std that counts its calls.
ghost use Rattle.std.specs.Prelude.{◌≡◌};
ghost use Rattle.std.specs.Io.{ReadsAtMost};
ghost use Rattle.std.specs.Io.KnownBytes.{ReadConsumes};
ghost use Rattle.lr_outside.specs.Turns.{next_count};

use std::io;
use std::io::Read;

/// A reader with the count of its reads, so that what reads from it can promise how many it makes.
/// The count stays at `u64::MAX`.
///
/// No contract can say that it makes one call itself, since std's readers don't tell how many they
/// had; a test shows that it does.
#[derive(Drop)]
pub struct CountingReader<R> {
    reader: R,
    calls: u64,
}

impl<R: Read> CountingReader<R> {
    pub fn new(reader: R) -> Self
        ensures reader { result.reader ≡ reader }
        ensures calls { result.calls ≡ 0 }
    {
        CountingReader { reader, calls: 0 }
    }
}

impl<R: Read> Read for CountingReader<R> {
    ghost remaining = { λ s. R.remaining s.reader };

    fn read(&mut self, buf: &mut [u8]) -> io::Result<usize>
        ensures bound { ReadsAtMost result buf.new }
        ensures bytes { ReadConsumes (R.remaining self.old.reader) (R.remaining self.new.reader)
            result buf.new }
        ensures calls { self.new.calls ≡ next_count self.old.calls }
    {
        self.calls = self.calls.saturating_add(1);
        self.reader.read(buf)
    }
}
