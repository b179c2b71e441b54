use lr_objects::Function;

/// What a line should have at the place of a word, and doesn't have.
#[derive(Clone, Copy)]
pub enum Expected {
    /// The word of a verb.
    Verb,
    /// The number of a client.
    Client,
    /// The number of a thread.
    Thread,
    /// How long a request may wait.
    Mode,
    /// The mode `once`, since a request for this function doesn't wait.
    Once(Function),
    /// A function with which a request can begin.
    Function,
    /// The name of an object.
    Name,
    /// A lease in milliseconds, or the watchdog's.
    Lease,
    /// The lease of a permit, in milliseconds.
    PermitLease,
    /// A number of permits or counts.
    Amount,
    /// The id of a permit.
    Id,
    /// A moment that a clock can show.
    Moment,
    /// The kind of a hold that is watched.
    Kind,
    /// Nothing: the line should be over.
    End,
}

impl Expected {
    /// The place of the word that isn't as expected, where this is that of the last word read. That
    /// a mode doesn't fit is known only at the word behind it, the function.
    pub fn place(self, read: u64) -> u64 {
        match self {
            Expected::Once(_) => read.saturating_sub(1),
            _ => read,
        }
    }
}

/// Where a line stops being the text of an event.
#[derive(Clone, Copy)]
pub struct Fault {
    /// The place of the word, counted from 1. Where a word is missing it is one more than the line
    /// has words.
    pub place: u64,
    /// What should stand there.
    pub expected: Expected,
}

/// Which limit an event is outside of.
#[derive(Clone, Copy)]
pub enum Outside {
    /// This number is that of no client.
    Client(u64),
    /// This number is that of no thread.
    Thread(u64),
}
