//! Runs of the server by the program itself, without a schedule: `lockd race`, whose threads call
//! one server at once, and `lockd drill`, whose events are drawn from a number.
#![tactic(auto)]

mod calls;
mod draw;
mod drill;
mod drilled;
mod passes;
mod race;
mod summary;

pub use drill::drill_top;
pub use race::race_top;
