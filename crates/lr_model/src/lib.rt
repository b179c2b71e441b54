//! The definitions of the server that the contracts cite: what the objects answer, what a connection
//! is sent, which histories are legal. The types are plain data; the rules stand in `specs/`.
#![tactic(auto)]

mod entry;
mod hold;
mod read_write_hold;

pub use entry::{Act, Entry};
pub use hold::Hold;
pub use read_write_hold::ReadWriteHold;
