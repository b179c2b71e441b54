//! One state of the server: keys, connections with their channels and outboxes, and the stored
//! history. Each request is one step, which makes at most one entry of the history.
#![tactic(auto)]

mod act;
mod answered;
mod calls;
mod fault;
mod keys_and_board;
mod laws;
mod looks;
mod state;

pub use answered::{Answer, Answered};
pub use fault::StepFault;
pub use laws::looks_are_told_by_the_objects;
pub use lr_commands::{Channels, Look, Request};
pub use lr_history::History;
pub use lr_pubsub::{Conns, Pushes};
pub use lr_resp::Frame;
pub use state::ServerState;
