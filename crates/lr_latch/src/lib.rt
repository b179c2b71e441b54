//! The latches of a client: what it keeps of the channels on which its threads wait. All threads
//! that wait on a channel share one subscription and one entry.
#![tactic(auto)]

mod entry;
mod latches;
mod orders;

pub use latches::Latches;
