//! Tests of the frames of RESP2.
#![tactic(auto)]

#[cfg(test)]
mod faults;
#[cfg(test)]
mod frames;
#[cfg(test)]
mod streams;
