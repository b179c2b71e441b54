//! The core of a client: the requests of its threads, its latches, its watches, and the tickets by
//! which its threads send their calls. Its steps are the rows of the definitions of waiting.
#![tactic(auto)]

mod asks;
mod fault;
mod joining;
mod pushes;
mod renewals;
mod requests;
mod stages;
mod state;
mod threads;
mod waiters;
mod waits;
mod watches;

pub use asks::Asks;
pub use fault::SessionFault;
pub use pushes::Pushed;
pub use stages::due_after;
pub use state::SessionState;
pub use threads::Threads;
