//! The functions of the fair lock, as steps over a key space.
//!
//! What is held of a lock is the hash `fair:NAME`, as `lr_hold` keeps it. Its queue is the list
//! `fairq:NAME` of the owners' texts, in the order in which they came, and the sorted set
//! `fairt:NAME` from the same texts to the moments from which on their places are stale. Both are
//! there as long as there is a place, and neither expires.
#![tactic(auto)]

mod call;
mod functions;
mod laws;
mod lock_keys;
mod places;
mod stale;
mod steps;
mod turn;

pub use call::run;
pub use laws::{fair_locks_stand_later, no_keys_stand_for_no_fair_locks};
