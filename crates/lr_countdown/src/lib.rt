//! The functions of the countdown latch, as steps over a key space.
//!
//! The count of a latch is the counter `latch:NAME`, as `lr_counter` keeps it. At 0 there is no
//! key.
#![tactic(auto)]

mod call;
mod functions;
mod laws;
mod look;

pub use call::run;
pub use laws::{countdowns_stand_later, no_keys_stand_for_no_countdowns};
pub use look::would_wait;
