//! Tests of the answers to looks at the keys and to pings.
#![tactic(auto)]

#[cfg(test)]
mod asked;
#[cfg(test)]
mod expiries;
#[cfg(test)]
mod kinds;
#[cfg(test)]
mod pings;
#[cfg(test)]
mod ranges;
#[cfg(test)]
mod sizes;
