//! Tests of the key space and of the values that it keeps.
#![tactic(auto)]

#[cfg(test)]
mod counter;
#[cfg(test)]
mod keys;
#[cfg(test)]
mod lists;
#[cfg(test)]
mod sorted;
