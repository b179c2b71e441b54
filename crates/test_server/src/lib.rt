//! Tests of the server, of its requests and of its board.
#![tactic(auto)]

#[cfg(test)]
mod commands;
#[cfg(test)]
mod looks;
#[cfg(test)]
mod pubsub;
#[cfg(test)]
mod server;
