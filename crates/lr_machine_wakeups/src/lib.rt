//! No wakeup is lost in any schedule of clients whose threads wait. Nothing runs here: a law is a
//! public function with an empty body, and its clause is what is proved.
#![tactic(auto)]

mod laws;

pub use laws::{
    an_event_keeps_the_facts, live_deadlines_stay_below_the_peak,
    no_wakeup_is_lost_in_any_schedule, no_wakeup_is_lost_where_the_facts_hold,
    the_facts_hold_before_the_first_event, the_facts_hold_throughout,
};
