ghost use Rattle.std.specs.Prelude.{◌≡◌, ◌≢◌};
ghost use Rattle.lr_names.specs.Key.{key_text};

use lr_names::{Name, Part, key};
use lr_text::Brief;

/// The two keys of a lock.
#[derive(Drop)]
pub(crate) struct LockKeys {
    /// The hash from each hold to its count.
    pub(crate) counts: Brief,
    /// The sorted set from each hold to its deadline.
    pub(crate) deadlines: Brief,
}

impl LockKeys {
    /// The keys of the lock with this name.
    pub(crate) fn of(name: &Name) -> LockKeys
        ensures counts { result.counts ≡ key_text Part.Rw name.now }
        ensures deadlines { result.deadlines ≡ key_text Part.RwDeadlines name.now }
        ensures apart { result.counts ≢ result.deadlines }
    {
        LockKeys {
            counts: key(Part::Rw, name),
            deadlines: key(Part::RwDeadlines, name),
        }
    }
}
