//! The holds of a lock: what its keys say of one, and the changes of one.
ghost use Rattle.std.specs.Prelude.{◌≡◌, ◌≢◌, ◌<◌, ℕ, length, Ok, Some, IfSome, option_map, slice_get};
ghost use Rattle.lr_keys.specs.KeySpace.{count_at, entry_at, plan_at, score_at};
ghost use Rattle.lr_model.specs.declared.read_write_hold.ReadWriteHold.{ReadWriteHold};
ghost use Rattle.lr_model.specs.ReadWrite.{ReadWriteLock, hold_of, with_hold, without_hold};
ghost use Rattle.lr_model.specs.ReadWriteHolds.{IsReadWriteLock};
ghost use Rattle.lr_names.specs.Owner.{ThreadOfClient, IsOwner};
ghost use Rattle.lr_objects.specs.declared.access.Access.{Access};
ghost use Rattle.lr_rw.specs.Holds.{HasHolds, IsLockAt, deadlines_of, member_text};
ghost use Rattle.lr_rw.specs.Step.{ChangesOnlyTwo, IsPut, hold_count, last_deadline_if};

use crate::lock_keys::LockKeys;
use crate::member::member;
use lr_keys::KeySpace;
use lr_names::Owner;
use lr_objects::Access;
use lr_text::Brief;
use std::alloc::Global;

/// How many times the owner holds the lock with this access.
pub(crate) fn hold_count(keys: &KeySpace, lock: &LockKeys, access: Access, owner: &Owner) -> u64
    ensures count { (holds : ReadWriteLock)
        → IsLockAt keys.now lock.now.counts lock.now.deadlines holds
        → result ≡ hold_count owner.now access holds }
    ensures owner { IsOwner owner.now }
{
    let count = keys.hget(&lock.counts, &member(access, owner));
    count.unwrap_or(None).unwrap_or(0).max(0) as u64
}

/// The deadline of the hold with this text, if it is there.
pub(crate) fn deadline_of(keys: &KeySpace, lock: &LockKeys, member: &Brief) -> Option<u64>
    ensures { (holds : ReadWriteLock) (access : Access) (owner : ThreadOfClient)
        → IsLockAt keys.now lock.now.counts lock.now.deadlines holds → IsOwner owner
        → member.now ≡ member_text access owner
        → result ≡ option_map (λ hold. hold.deadline) (hold_of owner access holds) }
{
    keys.zscore(&lock.deadlines, member).unwrap_or(None)
}

/// The text and the deadline of the hold that ends first, if there is one.
pub(crate) fn first_hold(keys: &KeySpace, lock: &LockKeys) -> Option<(Brief, u64)>
    ensures first { (holds : ReadWriteLock)
        → IsLockAt keys.now lock.now.counts lock.now.deadlines holds
        → result ≡ slice_get (deadlines_of holds) 0 }
    ensures there { IfSome result (λ first. (score : ℕ)
        × (score_at first.0 (entry_at keys.now lock.now.deadlines) ≡ Ok (Some score))) }
{
    keys.zindex(&lock.deadlines, 0).unwrap_or(None)
}

/// The deadline of the hold that ends last, if there is one.
pub(crate) fn last_deadline(keys: &KeySpace, lock: &LockKeys) -> Option<u64>
    ensures { (holds : ReadWriteLock)
        → IsLockAt keys.now lock.now.counts lock.now.deadlines holds
        → result ≡ last_deadline_if holds }
{
    match keys.zindex(&lock.deadlines, -1).unwrap_or(None) {
        Some((_, deadline)) => Some(deadline),
        None => None,
    }
}

/// How many holds there are.
pub(crate) fn len(keys: &KeySpace, lock: &LockKeys) -> u64
    ensures { (holds : ReadWriteLock)
        → IsLockAt keys.now lock.now.counts lock.now.deadlines holds → result ≡ length holds }
{
    keys.zcard(&lock.deadlines).unwrap_or(0)
}

/// Counts an owner's hold so much more, and lets it last until this deadline. A new hold needs
/// memory that was taken for it in both keys.
pub(crate) fn put(
    alloc: Global,
    keys: &mut KeySpace,
    lock: &LockKeys,
    member: &Brief,
    by: i64,
    deadline: u64,
)
    requires apart { lock.now.counts ≢ lock.now.deadlines }
    ensures put { (holds : ReadWriteLock) (hold : ReadWriteHold)
        → IsLockAt keys.old lock.now.counts lock.now.deadlines holds
        → IsReadWriteLock (with_hold hold holds)
        → IsPut keys.old lock.now.counts lock.now.deadlines holds hold member.now by deadline
        → HasHolds keys.new lock.now.counts lock.now.deadlines (with_hold hold holds) }
    ensures others { ChangesOnlyTwo lock.now.counts lock.now.deadlines keys.old keys.new }
    ensures moment { keys.new.moment ≡ keys.old.moment }
{
    // Neither can fail: the hold is there, or memory for it is.
    let _count = keys.hincrby(alloc, &lock.counts, member, by);
    let _new = keys.zadd(alloc, &lock.deadlines, member, deadline);
}

/// Ends a hold.
pub(crate) fn remove(keys: &mut KeySpace, lock: &LockKeys, member: &Brief)
    requires apart { lock.now.counts ≢ lock.now.deadlines }
    ensures removed { (holds : ReadWriteLock) (owner : ThreadOfClient) (access : Access)
        (hold : ReadWriteHold) → IsLockAt keys.old lock.now.counts lock.now.deadlines holds
        → IsOwner owner → member.now ≡ member_text access owner
        → hold_of owner access holds ≡ Some hold
        → IsLockAt keys.new lock.now.counts lock.now.deadlines (without_hold owner access holds) }
    ensures others { ChangesOnlyTwo lock.now.counts lock.now.deadlines keys.old keys.new }
    ensures moment { keys.new.moment ≡ keys.old.moment }
    ensures prepared { plan_at keys.new ≡ plan_at keys.old }
    ensures fewer { (score : ℕ)
        → score_at member.now (entry_at keys.old lock.now.deadlines) ≡ Ok (Some score)
        → count_at (entry_at keys.new lock.now.deadlines)
        < count_at (entry_at keys.old lock.now.deadlines) }
{
    let _removed = keys.zrem(&lock.deadlines, member);
    let _deleted = keys.hdel(&lock.counts, member);
}
