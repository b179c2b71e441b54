ghost use Rattle.std.specs.Prelude.{◌≡◌, ◌≢◌};
ghost use Rattle.lr_names.specs.Key.{key_text};
ghost use Rattle.lr_fair.specs.Step.{AreApart};

use lr_names::{Name, Part, key};
use lr_text::Brief;

/// The three keys of a lock.
#[derive(Drop)]
pub(crate) struct LockKeys {
    /// The hash of who holds it.
    pub(crate) hold: Brief,
    /// The list of who is in its queue.
    pub(crate) queue: Brief,
    /// The sorted set from each of these to the moment from which on the place is stale.
    pub(crate) stales: Brief,
}

impl LockKeys {
    /// The keys of the lock with this name.
    pub(crate) fn of(name: &Name) -> LockKeys
        ensures hold { result.hold ≡ key_text Part.Fair name.now }
        ensures queue { result.queue ≡ key_text Part.FairQueue name.now }
        ensures stales { result.stales ≡ key_text Part.FairStale name.now }
        ensures apart { AreApart result.hold result.queue result.stales }
    {
        LockKeys {
            hold: key(Part::Fair, name),
            queue: key(Part::FairQueue, name),
            stales: key(Part::FairStale, name),
        }
    }
}
