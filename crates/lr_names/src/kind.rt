ghost use Rattle.std.specs.Prelude.{◌≡◌, ◌≢◌, ◌≤◌, length, IsNone, IfSome};
ghost use Rattle.lr_text.specs.WordTable.{with_word};
ghost use Rattle.lr_names.specs.declared.kind.Kind.{Kind};
ghost use Rattle.lr_names.specs.Channel.{kind_word, channel_wakes};
ghost use Rattle.lr_names.specs.Key.{parts_of};

use crate::part::Part;

/// The kinds of object.
#[derive(Clone, Copy, Debug, PartialEq, Eq, Hash)]
pub enum Kind {
    /// The reentrant lock.
    Mutex,
    /// The reentrant lock that is granted in the order of asking.
    Fair,
    /// The read-write lock.
    Rw,
    /// The lock that gives a growing token with each grant.
    Fenced,
    /// The semaphore.
    Semaphore,
    /// The semaphore whose permits expire.
    Permits,
    /// The countdown latch.
    Countdown,
}

/// How many of a channel's waiting threads a message wakes.
#[derive(Clone, Copy, Debug, PartialEq, Eq, Hash)]
pub enum Wakes {
    /// One of them.
    One,
    /// All of them.
    All,
}

impl Kind {
    /// All kinds.
    pub const ALL: [Kind; 7] = [
        Kind::Mutex,
        Kind::Fair,
        Kind::Rw,
        Kind::Fenced,
        Kind::Semaphore,
        Kind::Permits,
        Kind::Countdown,
    ];

    /// The word of the kind.
    pub fn word(self) -> &'static [u8]
        ensures word { result.now ≡ kind_word self }
        ensures short { length result.now ≤ 7 }
    {
        match self {
            Kind::Mutex => b"lock",
            Kind::Fair => b"fair",
            Kind::Rw => b"rw",
            Kind::Fenced => b"fenced",
            Kind::Semaphore => b"sem",
            Kind::Permits => b"permits",
            Kind::Countdown => b"latch",
        }
    }

    /// The kind with this word: `None` exactly where no kind has it.
    pub fn of_word(word: &[u8]) -> Option<Kind>
        ensures some { IfSome result (λ kind. word.now ≡ kind_word kind) }
        ensures none { IsNone result → (kind : Kind) → word.now ≢ kind_word kind }
    {
        Kind::search(word)
    }

    fn search(word: &[u8]) -> Option<Kind>
        ensures { result ≡ with_word kind_word Self.ALL word.now }
    {
        Kind::ALL.iter().copied().find(|kind| kind.word() == word)
    }

    /// The parts that a server keeps of an object of this kind, each under a key of its own.
    pub fn parts(self) -> &'static [Part]
        ensures { result.now ≡ parts_of self }
    {
        match self {
            Kind::Mutex => &[Part::Lock],
            Kind::Fair => &[Part::Fair, Part::FairQueue, Part::FairStale],
            Kind::Rw => &[Part::Rw, Part::RwDeadlines],
            Kind::Fenced => &[Part::Fenced, Part::Token],
            Kind::Semaphore => &[Part::Semaphore],
            Kind::Permits => &[Part::Permits, Part::PermitLeases],
            Kind::Countdown => &[Part::Countdown],
        }
    }

    /// Whom a message on a channel of this kind wakes.
    pub fn wakes(self) -> Wakes
        ensures { result ≡ channel_wakes self }
    {
        match self {
            Kind::Mutex | Kind::Fair | Kind::Fenced => Wakes::One,
            Kind::Rw | Kind::Semaphore | Kind::Permits | Kind::Countdown => Wakes::All,
        }
    }
}
