//! The members of a Redis sorted set.
//!
//! A contract sees a [`SortedSet`] as its members with their scores, in order of score, and of
//! bytes where scores are equal, and how many more fit without memory.
#![tactic(auto)]

mod few;
mod limits;
mod listed;
mod many;
mod order;
mod scores;
mod select;
mod sorted_set;
mod tournament;

pub use listed::Members;
pub use sorted_set::SortedSet;
