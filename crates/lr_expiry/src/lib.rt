//! Moments by place, of which the least is at hand.
//!
//! A contract sees [`Expiries`] as a list: the moment of each place, or [`NO_EXPIRY`].
#![tactic(auto)]

mod expiries;
mod limits;

pub use expiries::Expiries;
pub use limits::NO_EXPIRY;
