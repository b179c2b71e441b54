// Writers of std as sinks.
ghost use Rattle.std.specs.Prelude.{◌≡◌, ◌<◌, length};
ghost use Rattle.lr_outside.specs.OutputSink.{writer_of, writer_calls, output_faults};
ghost use Rattle.lr_outside.specs.Turns.{WritesFront, is_failed_write, next_count, CountsFaults};

use crate::counting_writer::CountingWriter;
use crate::{Sink, WriteTurn};
use std::io::Write;

/// Any writer of std, standard output among them. It counts its faults up to `u64::MAX`, where the
/// count stays.
///
/// Each write goes to the writer at once, so hand over whole texts.
#[derive(Drop)]
pub struct OutputSink<W> {
    writer: CountingWriter<W>,
    faults: u64,
}

impl<W: Write> OutputSink<W> {
    /// The writer, with no call and no fault yet.
    pub fn new(writer: W) -> Self
        ensures writer { writer_of result ≡ writer }
        ensures calls { writer_calls result ≡ 0 }
        ensures faults { output_faults result ≡ 0 }
    {
        OutputSink {
            writer: CountingWriter::new(writer),
            faults: 0,
        }
    }
}

impl<W: Write> Sink for OutputSink<W> {
    ghost held = { λ s. W.contents (writer_of s) };

    ghost faults = { output_faults };

    fn write(&mut self, piece: &[u8]) -> WriteTurn
        requires { 0 < length piece.now }
        ensures bytes { WritesFront (W.contents (writer_of self.old))
            (W.contents (writer_of self.new)) piece.now result }
        ensures counts { CountsFaults (output_faults self.old) (output_faults self.new)
            (is_failed_write result) }

        // Each write is one call of the writer: one that fails isn't tried again.
        ensures calls { writer_calls self.new ≡ next_count (writer_calls self.old) }
    {
        match self.writer.write(piece) {
            // A writer that takes nothing would be asked for ever.
            Ok(0) | Err(_) => {
                self.faults = self.faults.saturating_add(1);
                WriteTurn::Failed
            }
            Ok(count) => WriteTurn::Took(count),
        }
    }
}
