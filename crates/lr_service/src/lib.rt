//! The calls of many threads on one server. The server lies behind a gate, so that one thread at a
//! time makes a step of it, and each thread's pass knows what it has seen of the history and which
//! entries are its own.
#![tactic(auto)]

mod calls;
mod fault;
mod kept;
mod passes;
mod served;
mod service;
mod turns;

pub use fault::TryFault;
pub use lr_server::{
    Answer, Answered, Channels, Frame, History, Look, Pushes, Request, ServerState, StepFault,
};
pub use lr_turnstile::{Busy, Pass};
pub use served::Served;
pub use service::Service;
