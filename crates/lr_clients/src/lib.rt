//! The clients of a schedule. Each is the core that a real client runs, with a place for the reply to
//! each of its threads and the replies to its renewals; no server is in it.
#![tactic(auto)]

mod client;
mod clients;
mod items;
mod renewals;
mod renewed;
mod replies;
mod sleeper;
mod stands;
mod threads;

pub use clients::ClientTable;
pub use renewals::hold_key;
pub use sleeper::Sleeper;
