//! Tests of `lockd play`.
#![tactic(auto)]

#[cfg(test)]
mod broadcast;
#[cfg(test)]
mod fair;
#[cfg(test)]
mod stories;
#[cfg(test)]
mod waiting;
#[cfg(test)]
mod watching;
