//! What the programs read from and write to, as traits; what stands for them in memory and over
//! std; and lines.
#![tactic(auto)]

mod counting_reader;
mod counting_writer;
mod input_source;
mod line_reader;
mod mem_sink;
mod mem_source;
mod output_sink;
mod plain_sink;
mod plain_source;
mod sink;
mod source;
mod status;
mod window;

pub use input_source::InputSource;
pub use line_reader::{Line, LineReader, LineTurn};
pub use mem_sink::MemSink;
pub use mem_source::MemSource;
pub use output_sink::OutputSink;
pub use plain_sink::PlainSink;
pub use plain_source::PlainSource;
pub use sink::{Sink, WriteTurn, write_whole};
pub use source::{ReadTurn, Source};
pub use status::Status;
