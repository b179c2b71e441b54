//! The items of a Redis list.
//!
//! A contract sees an [`ItemList`] as its items in order, and how many more fit without memory.
#![tactic(auto)]

mod counts;
mod item_list;
mod places;

pub use item_list::ItemList;
pub use places::{before_start, place_in, up_to_stop};
