//! Tests of the lines of a schedule.
#![tactic(auto)]

#[cfg(test)]
mod renewals;
#[cfg(test)]
mod schedule;
