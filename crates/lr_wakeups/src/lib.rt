//! Why no wakeup is lost: what is so of a client and of the connection by which it subscribes,
//! before and after each step. Nothing runs here: a law is a public function with an empty body,
//! and its clause is what is proved.
#![tactic(auto)]

mod peak_laws;
mod renewal_laws;
mod server_laws;
mod stand_laws;
mod start_laws;
mod thread_laws;

pub use peak_laws::{live_holds_end_by_the_peak, refused_calls_wait_until_the_peak};
pub use renewal_laws::{
    a_reply_to_a_renewal_keeps_the_facts, asking_for_a_renewal_keeps_the_facts,
    renewals_keep_the_facts, taking_a_renewal_keeps_the_facts,
};
pub use server_laws::{
    a_message_keeps_the_facts, a_reply_keeps_the_facts, an_executed_order_keeps_the_facts,
    an_item_keeps_the_facts, going_on_keeps_the_facts,
};
pub use stand_laws::{
    no_broadcast_is_lost, no_turn_is_lost, no_wakeup_is_lost, one_thread_waits_for_its_turn,
};
pub use start_laws::{
    a_client_that_hears_has_told_all, a_cut_keeps_the_facts, more_orders_keep_the_facts,
    the_facts_at_start,
};
pub use thread_laws::{
    asking_keeps_the_facts, beginning_keeps_the_facts, checking_keeps_the_facts,
    firing_keeps_the_facts, quitting_keeps_the_facts, taking_keeps_the_facts,
    waking_keeps_the_facts,
};
