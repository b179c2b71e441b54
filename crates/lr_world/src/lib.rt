//! A server and its clients as one machine that takes one event of a schedule at a time.
#![tactic(auto)]

mod call;
mod cuts;
mod events;
mod items;
mod numbers;
mod orders;
mod stands;
mod world;

pub use world::World;
