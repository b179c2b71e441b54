//! The holds whose deadlines have come.
ghost use Rattle.std.specs.Prelude.{◌≡◌, ◌≢◌, ℕ, Ok, Some, None, IfSome};
ghost use Rattle.lr_keys.specs.KeySpace.{entry_at, plan_at, score_at};
ghost use Rattle.lr_model.specs.ReadWrite.{ReadWriteLock, live_holds};
ghost use Rattle.lr_rw.specs.Holds.{IsLockAt};
ghost use Rattle.lr_rw.specs.Step.{ChangesOnlyTwo, IsExpired};

use crate::holds::{first_hold, remove};
use crate::lock_keys::LockKeys;
use lr_keys::KeySpace;
use lr_text::Brief;

// The text of a hold that is gone at the moment of the keys, if there is one. The first place of the
// sorted set tells: no hold ends before that.
fn expired(keys: &KeySpace, lock: &LockKeys) -> Option<Brief>
    ensures there { IfSome result (λ member. (score : ℕ)
        × (score_at member (entry_at keys.now lock.now.deadlines) ≡ Ok (Some score))) }
    ensures some { IfSome result (λ member. (holds : ReadWriteLock)
        → IsLockAt keys.now lock.now.counts lock.now.deadlines holds
        → IsExpired keys.now.moment holds member) }
    ensures none { result ≡ None → (holds : ReadWriteLock)
        → IsLockAt keys.now lock.now.counts lock.now.deadlines holds
        → live_holds keys.now.moment holds ≡ holds }
{
    let first = first_hold(keys, lock)?;
    if first.1 > keys.moment() {
        return None;
    }
    Some(first.0)
}

/// Removes the holds that are gone at the moment of the keys.
pub(crate) fn remove_expired(keys: &mut KeySpace, lock: &LockKeys)
    requires apart { lock.now.counts ≢ lock.now.deadlines }
    ensures live { (holds : ReadWriteLock)
        → IsLockAt keys.old lock.now.counts lock.now.deadlines holds
        → IsLockAt keys.new lock.now.counts lock.now.deadlines
        (live_holds keys.old.moment holds) }
    ensures others { ChangesOnlyTwo lock.now.counts lock.now.deadlines keys.old keys.new }
    ensures moment { keys.new.moment ≡ keys.old.moment }
    ensures prepared { plan_at keys.new ≡ plan_at keys.old }
{
    'expired: while let Some(member) = expired(keys, lock) {
        remove(keys, lock, &member);
    }
}
