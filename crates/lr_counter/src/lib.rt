//! The keys that hold a number and never expire, as Redis keeps a counter.
//!
//! Semaphores, countdown latches and the tokens of fenced locks have them in common. What is here
//! is done under any key. The crates above say when, for which object, and up to which number.
#![tactic(auto)]

mod number;
mod room;
mod steps;

pub use number::{count_at, number_at};
pub use room::make_room;
pub use steps::{add, subtract};
