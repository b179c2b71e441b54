//! The places that are stale.
ghost use Rattle.std.specs.Prelude.{◌≡◌, ◌≢◌, ℕ, List, Ok, Some, None, IfSome};
ghost use Rattle.lr_keys.specs.KeySpace.{entry_at, plan_at, score_at};
ghost use Rattle.lr_model.specs.Fair.{FairPlace, live_places};
ghost use Rattle.lr_fair.specs.Queue.{IsQueueAt};
ghost use Rattle.lr_fair.specs.Step.{ChangesOnlyTwo, IsStale};

use crate::lock_keys::LockKeys;
use crate::places::remove;
use lr_keys::KeySpace;
use lr_text::Brief;

// The text of a place that is stale at the moment of the keys, if there is one. The first member of
// the sorted set tells: no place goes stale before that.
fn stale_place(keys: &KeySpace, lock: &LockKeys) -> Option<Brief>
    ensures there { IfSome result (λ text. (score : ℕ)
        × (score_at text (entry_at keys.now lock.now.stales) ≡ Ok (Some score))) }
    ensures some { IfSome result (λ text. (queue : List FairPlace)
        → IsQueueAt (entry_at keys.now lock.now.queue) (entry_at keys.now lock.now.stales) queue
        → IsStale keys.now.moment queue text) }
    ensures none { result ≡ None → (queue : List FairPlace)
        → IsQueueAt (entry_at keys.now lock.now.queue) (entry_at keys.now lock.now.stales) queue
        → live_places keys.now.moment queue ≡ queue }
{
    let first = keys.zindex(&lock.stales, 0).unwrap_or(None)?;
    if first.1 > keys.moment() {
        return None;
    }
    Some(first.0)
}

/// Removes the places that are stale at the moment of the keys.
pub(crate) fn remove_stale(keys: &mut KeySpace, lock: &LockKeys)
    requires apart { lock.now.queue ≢ lock.now.stales }
    ensures live { (queue : List FairPlace)
        → IsQueueAt (entry_at keys.old lock.now.queue) (entry_at keys.old lock.now.stales) queue
        → IsQueueAt (entry_at keys.new lock.now.queue) (entry_at keys.new lock.now.stales)
        (live_places keys.old.moment queue) }
    ensures others { ChangesOnlyTwo lock.now.queue lock.now.stales keys.old keys.new }
    ensures moment { keys.new.moment ≡ keys.old.moment }
    ensures prepared { plan_at keys.new ≡ plan_at keys.old }
{
    'stale: while let Some(text) = stale_place(keys, lock) {
        remove(keys, lock, &text);
    }
}
