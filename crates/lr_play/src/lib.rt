//! `lockd play`: a schedule of events from the bytes that are read to the bytes that are written.
#![tactic(auto)]

mod run;
mod top;

pub use top::play_top;
