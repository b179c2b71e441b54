//! The program `lockd`, from the words of its command line to its exit status. `crates/lockd` has only
//! its `main`, as have six more crates, each for a stored run of its own.
#![tactic(auto)]

mod command;
mod complaint;
mod dispatch;
mod drill;
mod numbers;
mod program;
mod progress;
mod race;
mod recent_bytes;
mod remembering_source;
#[cfg(test)]
mod tests;
mod texts;
mod words;

pub use program::run;
