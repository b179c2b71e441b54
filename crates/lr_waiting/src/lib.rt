//! How the threads of a client wait for objects: the definitions. They share one latch and one
//! subscription for each channel, and something stands for each of them that sleeps. The types are
//! plain data, and the rules stand in `specs/`.
#![tactic(auto)]

mod begin;
mod latch;
mod stand;
mod told;
mod waiter;
mod watch;

pub use begin::waits;
pub use latch::{Checked, LatchEntry, Order, Woken};
pub use stand::{Stand, Standing};
pub use told::{CheckedStep, GaveUp, Taken, WokenStep};
pub use waiter::{Ask, Asking, Phase, Refusal, Stage, Waiter};
pub use watch::{RenewFault, RenewTaken, Renewal, Watch, WatchKey, WatchKind};
