//! The functions of expirable permits, as steps over a key space.
//!
//! How many permits there are is the counter `permits:NAME`, as `lr_counter` keeps it. Those that
//! are taken are the sorted set `permitt:NAME`, from the text of each id to the deadline of its
//! lease.
#![tactic(auto)]

mod call;
mod expired;
mod functions;
mod laws;
mod leases;
mod look;
mod permit_keys;

pub use call::run;
pub use laws::{no_keys_stand_for_no_permits, permits_stand_later};
pub use look::would_wait;
