//! What looks at the keys and pings are answered, as frames of RESP2.
#![tactic(auto)]

mod answers;
mod looks;
mod pings;
mod seen;
mod values;

pub use looks::look;
pub use pings::pong;
pub use values::bulks;
