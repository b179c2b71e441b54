//! A watchdog's renewals are asked for in time, in every schedule of clients whose threads wait.
//! Nothing runs here: a law is a public function with an empty body, and its clause is what is
//! proved.
#![tactic(auto)]

mod laws;

pub use laws::{
    a_call_keeps_or_gives_deadlines, an_event_keeps_the_watches, renewals_are_due_in_time,
    the_watches_hold_before_the_first_event, watched_holds_are_renewed_in_time,
};
