//! What is true of every legal history. Nothing runs here: a law is a public function with an empty
//! body, and its clause is what is proved.
#![tactic(auto)]

mod countdown_laws;
mod fair_laws;
mod fenced_laws;
mod laws;
mod permit_laws;
mod semaphore_laws;

pub use countdown_laws::latches_count_down;
pub use fair_laws::{fair_places_stay, fair_tries_never_overtake, fair_waits_have_places};
pub use fenced_laws::tokens_strictly_grow;
pub use laws::tenures_never_conflict;
pub use permit_laws::no_more_permits_are_live_than_were_set;
pub use semaphore_laws::semaphores_never_grant_more_than_there_is;
