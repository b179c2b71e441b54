//! The definitions of a schedule whose threads wait: the step table, what is shown of each event, and what
//! holds after it. The types are plain data and lists of it; the rules stand in `specs/`.
#![tactic(auto)]

mod clients;
mod event;
mod schedule_line;
mod shown;
mod standings;
mod thread_id;

pub use clients::{Clients, client_at};
pub use event::Event;
pub use schedule_line::ScheduleLine;
pub use shown::{Found, Ordered, Reached, Replied, Shown};
pub use standings::Standings;
pub use thread_id::ThreadId;
