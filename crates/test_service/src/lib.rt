//! Tests of the service and of what it stands on, with one thread.
#![tactic(auto)]

#[cfg(test)]
mod drill;
#[cfg(test)]
mod service;
#[cfg(test)]
mod turnstile;
