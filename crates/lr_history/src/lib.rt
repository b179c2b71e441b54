//! The stored history of a server: the entries of its steps, in the order in which they were made.
//! It grows by whole segments, so that what is stored is never copied.
#![tactic(auto)]

mod entries;
mod fault;
mod history;
mod segment;

pub use entries::Entries;
pub use fault::HistoryFault;
pub use history::History;
use lr_limits::{MOST_CONNECTIONS, MOST_ENTRIES};
pub use lr_model::{Act, Entry};

/// How many entries a segment has room for.
const SEGMENT_ENTRIES: usize = 1_024;

/// So many segments hold a full history and a close of each connection behind it.
const TABLE_SEGMENTS: usize = (MOST_ENTRIES as usize + MOST_CONNECTIONS as usize) / SEGMENT_ENTRIES
    + 1;

/// More segments than any memory holds. With it the number of entries stays below 2 ^ 63.
const MOST_SEGMENTS: usize = 1 << 52;
