//! The hash of one owner with an expiry, which the plain, the fair and the fenced lock have in
//! common.
//!
//! What is held is a hash from the text of its owner to the hold count, as Redisson keeps its lock.
//! It expires at the deadline; what never ends has no expiry. The steps here are taken at the moment
//! of the keys, under any key. The crates above say when, and for which object.
#![tactic(auto)]

mod hold;
mod lease;
mod room;
mod steps;

pub use hold::{hold_count, remaining};
pub use lease::is_lease;
pub use room::{is_there_at, make_room};
pub use steps::{end, give_back, renew, take};
