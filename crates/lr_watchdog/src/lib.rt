//! The watchdog of a client: the holds that it renews until they are given back, as long as it
//! lives. When the next of them falls due is at hand, and no call touches another hold than its own.
#![tactic(auto)]

mod slot;
mod slots;
mod watches;

pub use watches::Watches;
