//! How the reply of a function is written as a frame of RESP2, and read back.
#![tactic(auto)]

mod laws;
mod number;
mod reading;
mod refusal;
mod reply;
mod role;
mod shape;
mod token;
mod writing;

pub use laws::{replies_are_readable, replies_are_told_apart};
pub use reply::{ReplyFault, read_reply, reply_frame};
