//! What a connection asks of the server: calls, looks at its keys, channels, pings.
#![tactic(auto)]

mod channels;
mod look;
mod request;

pub use channels::Channels;
pub use look::Look;
pub use request::Request;
