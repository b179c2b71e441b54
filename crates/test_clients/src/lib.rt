//! Tests of the client core, of the clients and of the world.
#![tactic(auto)]

#[cfg(test)]
mod clients;
#[cfg(test)]
mod fair;
#[cfg(test)]
mod latch;
#[cfg(test)]
mod renewals;
#[cfg(test)]
mod session;
#[cfg(test)]
mod watch;
#[cfg(test)]
mod world;
