//! The functions of the fenced lock, as steps over a key space.
//!
//! What is held of a lock is the hash `fenced:NAME`, as `lr_hold` keeps it. The last token is the
//! counter `token:NAME`, which never goes.
#![tactic(auto)]

mod call;
mod functions;
mod laws;
mod take;
mod token;

pub use call::run;
pub use laws::{fenced_locks_stand_later, no_keys_stand_for_no_fenced_locks};
