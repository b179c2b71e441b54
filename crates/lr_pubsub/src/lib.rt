//! The board: which connections are open, what they subscribe to, and what waits to be sent to
//! them. A message goes to exactly those that have subscribed, and touches no other connection.
#![tactic(auto)]

mod board;
mod channels;
mod connection_set;
mod connection_slot;
mod conns;
mod delivery;
mod fault;
mod posted;
mod pushes;
mod subscribers;

pub use board::Board;
pub use conns::Conns;
pub use fault::BoardFault;
pub use posted::Posted;
pub use pushes::Pushes;
