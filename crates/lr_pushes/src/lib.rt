//! What a subscribed connection is sent, as frames of RESP2.
#![tactic(auto)]

mod pushes;

pub use pushes::push_frame;
