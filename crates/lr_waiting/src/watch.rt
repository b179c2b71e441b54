use lr_names::{Name, Owner};

/// What a watchdog renews: a hold of one of these kinds of lock.
#[derive(Clone, Copy, Debug, PartialEq, Eq, Hash)]
pub enum WatchKind {
    /// The reentrant lock.
    Lock,
    /// The fair lock.
    Fair,
    /// The fenced lock.
    Fenced,
    /// The read-write lock, held for reading.
    Read,
    /// The read-write lock, held for writing.
    Write,
}

/// A hold that a watchdog renews.
#[derive(Clone, Copy, Debug, PartialEq, Eq, Hash)]
pub struct WatchKey {
    /// Who holds it.
    pub owner: Owner,
    /// The kind of lock.
    pub kind: WatchKind,
    /// The lock.
    pub name: Name,
}

/// When a hold is renewed next.
#[derive(Clone, Copy, Debug, PartialEq, Eq)]
pub struct Watch {
    /// When it falls due, in milliseconds.
    pub due: u64,
    /// Which of the client's watched grants it began with.
    pub generation: u64,
}

/// A renewal that was asked for, and whose reply wasn't taken.
#[derive(Clone, Copy, Debug, PartialEq, Eq)]
pub struct Renewal {
    /// Of which of the client's watched grants it is.
    pub generation: u64,
    /// When it was asked for, in milliseconds.
    pub at: u64,
}

/// Why a renewal can't be asked for.
#[derive(Clone, Copy, Debug, PartialEq, Eq)]
pub enum RenewFault {
    /// The hold isn't watched.
    NoWatch,
    /// A renewal was asked for, and its reply wasn't taken.
    Renewing,
    /// The hold falls due later, at this moment, in milliseconds.
    NotDue(u64),
}

/// What comes of the reply to a renewal.
#[derive(Clone, Copy, Debug, PartialEq, Eq)]
pub enum RenewTaken {
    /// The hold was renewed, and falls due next at this moment, in milliseconds.
    Due(u64),
    /// The hold couldn't be renewed, and isn't watched any longer.
    Ended,
    /// The renewal was of a grant that isn't watched any longer. No watch changes.
    Stale,
}
