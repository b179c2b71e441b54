//! What is true of every schedule of clients whose threads wait. Nothing runs here: a law is a public
//! function with an empty body, and its clause is what is proved.
#![tactic(auto)]

mod laws;

pub use laws::{
    every_schedule_goes_well, every_schedule_goes_well_throughout, histories_grow_by_events,
};
