//! The functions of the read-write lock, as steps over a key space.
//!
//! What is held of a lock is the hash `rw:NAME`, from the text of each hold to how often it was
//! taken, in order of making, and the sorted set `rwt:NAME`, from the same texts to the deadlines. A
//! hold's text is `r:` or `w:` and its owner's.
#![tactic(auto)]

mod call;
mod expired;
mod holds;
mod laws;
mod lock_keys;
mod look;
mod member;
mod steps;

pub use call::run;
pub use laws::{no_keys_stand_for_no_read_write_locks, read_write_locks_stand_later};
pub use look::would_wait;
