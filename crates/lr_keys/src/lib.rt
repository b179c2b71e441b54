//! A key space as a Redis user knows it: keys with a value, and an expiry or none.
//!
//! A contract sees a [`KeySpace`] as a moment and two tables. `entry_at` says what stands at a key:
//! the fields of a hash in order of making, the items of a list, the members of a sorted set in
//! order, or the number of a counter, and the expiry. `plan_at` says for which new member of a key
//! memory is prepared. Nothing that a contract says depends on an order among the keys.
#![tactic(auto)]

mod addition;
mod changes;
mod expiry;
mod fault;
mod field_map;
mod key_space;
mod slot;
mod tables;
mod value_kind;

pub use fault::KeyFault;
pub use key_space::KeySpace;
pub use key_space::hashes::Fields;
pub use lr_sorted::Members;
pub use lr_text::Items;
pub use value_kind::ValueKind;
