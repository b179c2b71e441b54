//! A gate that many threads pass, one at a time. Behind it lies a value that stands for a history.
//! Each thread has a pass, and the pass knows a beginning of that history and what is its own in
//! it. The gate's only lock is a word that changes in single steps: it is twice the number of
//! entries while the gate is free, and one more while somebody has the turn.
#![tactic(auto)]

mod busy;
mod gate;
mod home;
mod kept;
mod naps;
mod numbers;
mod pass;
mod seats;
mod steps;
mod turns;
mod view;

pub use busy::Busy;
pub use gate::Gate;
pub use kept::Kept;
pub use lr_model::Entry;
pub use pass::Pass;
pub use view::View;
