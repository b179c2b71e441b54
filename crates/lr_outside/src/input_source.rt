// Readers of std as sources.
ghost use Rattle.std.specs.Prelude.{◌≡◌, ◌<◌, length};
ghost use Rattle.lr_outside.specs.InputSource.{reader_of, reader_calls, input_faults};
ghost use Rattle.lr_outside.specs.Turns.{ReadsFront, is_failed_read, next_count, CountsFaults};

use crate::counting_reader::CountingReader;
use crate::{ReadTurn, Source};
use std::io::Read;

/// Any reader of std, standard input among them. It counts its faults up to `u64::MAX`, where the
/// count stays.
#[derive(Drop)]
pub struct InputSource<R> {
    reader: CountingReader<R>,
    faults: u64,
}

impl<R: Read> InputSource<R> {
    /// The reader, with no call and no fault yet.
    pub fn new(reader: R) -> Self
        ensures reader { reader_of result ≡ reader }
        ensures calls { reader_calls result ≡ 0 }
        ensures faults { input_faults result ≡ 0 }
    {
        InputSource {
            reader: CountingReader::new(reader),
            faults: 0,
        }
    }
}

impl<R: Read> Source for InputSource<R> {
    ghost left = { λ s. R.remaining (reader_of s) };

    ghost faults = { input_faults };

    fn read(&mut self, buffer: &mut [u8]) -> ReadTurn
        requires { 0 < length buffer.old }
        ensures bytes { ReadsFront (R.remaining (reader_of self.old))
            (R.remaining (reader_of self.new)) buffer.new result }
        ensures counts { CountsFaults (input_faults self.old) (input_faults self.new)
            (is_failed_read result) }

        // Each read is one call of the reader: one that fails isn't tried again.
        ensures calls { reader_calls self.new ≡ next_count (reader_calls self.old) }
    {
        match self.reader.read(buffer) {
            Ok(0) => ReadTurn::End,
            Ok(count) => ReadTurn::Got(count),
            Err(_) => {
                self.faults = self.faults.saturating_add(1);
                ReadTurn::Failed
            }
        }
    }
}
