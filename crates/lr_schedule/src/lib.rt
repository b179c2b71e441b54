//! The spelling of a schedule: which event a line is, why a line is none, and what is written of an
//! event.
#![tactic(auto)]

mod arguments;
mod explanation;
mod fault;
mod kind;
mod laws;
mod line;
mod mode;
mod quotation;
mod read;
mod reader;
mod shown;
mod spelled;
mod tail;
mod verb;
mod write;

pub use explanation::explain;
pub use laws::one_reading;
pub use read::read_line;
pub use write::{write_bad, write_shown, write_too_many};
