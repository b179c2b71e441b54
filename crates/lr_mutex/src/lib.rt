//! The functions of the reentrant lock, as steps over a key space.
//!
//! What is held of a lock is the hash `lock:NAME`, as `lr_hold` keeps it.
#![tactic(auto)]

mod call;
mod functions;
mod laws;

pub use call::run;
pub use laws::{mutexes_stand_later, no_keys_stand_for_no_mutexes};
