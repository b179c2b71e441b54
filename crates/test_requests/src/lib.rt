//! Tests of the requests of connections.
#![tactic(auto)]

#[cfg(test)]
mod commands;
#[cfg(test)]
mod faults;
#[cfg(test)]
mod lines;
#[cfg(test)]
mod shown;
