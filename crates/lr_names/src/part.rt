ghost use Rattle.std.specs.Prelude.{◌≡◌, ◌≤◌, ℕ, List, length};
ghost use Rattle.lr_names.specs.declared.part.Part.{Part};
ghost use Rattle.lr_names.specs.Key.{part_word, key_text};

use crate::name::Name;
use lr_text::Brief;

/// The keys of an object, each a part of what the server keeps of it.
#[derive(Clone, Copy, Debug, PartialEq, Eq)]
pub enum Part {
    /// The hash of a reentrant lock, from its owner to the hold count.
    Lock,
    /// The hash of a fair lock.
    Fair,
    /// The queue of a fair lock, a list of owners.
    FairQueue,
    /// The moments at which the places in that queue go stale, a sorted set.
    FairStale,
    /// The hash of a read-write lock, from mode and owner to the hold count.
    Rw,
    /// The deadlines of those holds, a sorted set.
    RwDeadlines,
    /// The hash of a fenced lock.
    Fenced,
    /// The last token of a fenced lock, a counter.
    Token,
    /// The counter of a semaphore.
    Semaphore,
    /// The counter of a semaphore whose permits expire.
    Permits,
    /// The deadlines of its leases, a sorted set.
    PermitLeases,
    /// The counter of a countdown latch.
    Countdown,
}

impl Part {
    fn word(self) -> &'static [u8]
        ensures word { result.now ≡ part_word self }
        ensures short { length result.now ≤ 7 }
    {
        match self {
            Part::Lock => b"lock",
            Part::Fair => b"fair",
            Part::FairQueue => b"fairq",
            Part::FairStale => b"fairt",
            Part::Rw => b"rw",
            Part::RwDeadlines => b"rwt",
            Part::Fenced => b"fenced",
            Part::Token => b"token",
            Part::Semaphore => b"sem",
            Part::Permits => b"permits",
            Part::PermitLeases => b"permitt",
            Part::Countdown => b"latch",
        }
    }
}

/// The key of this part of the object with this name. No other part or name has it.
pub fn key(part: Part, name: &Name) -> Brief
    ensures text { result ≡ key_text part name.now }
    ensures alone { (other : Part) (n : List ℕ) → result ≡ key_text other n
        → (part ≡ other) × (name.now ≡ n) }
{
    spelled(part, name)
}

fn spelled(part: Part, name: &Name) -> Brief
    ensures { result ≡ key_text part name.now }
{
    let mut text = Brief::new();
    text.push_bytes(part.word());
    text.push_bytes(b":");
    text.push_bytes(name.as_slice());
    text
}
