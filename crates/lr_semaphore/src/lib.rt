//! The functions of the semaphore, as steps over a key space.
//!
//! How many permits of a semaphore are free is the counter `sem:NAME`, as `lr_counter` keeps it.
//! It is there once the number is set, at 0 too.
#![tactic(auto)]

mod call;
mod functions;
mod laws;
mod look;

pub use call::run;
pub use laws::{no_keys_stand_for_no_semaphores, semaphores_stand_later};
pub use look::would_wait;
