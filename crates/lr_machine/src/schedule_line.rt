use crate::event::Event;

/// What a line of a schedule is.
#[derive(Clone, Copy, PartialEq, Eq)]
pub enum ScheduleLine {
    /// The text of an event.
    Event(Event),
    /// The text of no event.
    Bad,
    /// The text of an event of a client or a thread outside the limits, or a line too many.
    TooMany,
}
