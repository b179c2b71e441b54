//! The steps of the functions on the two keys of a lock, at the moment of the keys. Of the lock's
//! holds those that are gone were removed.
ghost use Rattle.std.specs.Prelude.{◌≡◌, ◌≢◌, ◌<◌, ◌≤◌, ◌+◌, ◌-◌, ℕ, List, None, IsTrue, option_map};
ghost use Rattle.lr_limits.specs.Limits.{never};
ghost use Rattle.lr_model.specs.Moment.{is_lease};
ghost use Rattle.lr_model.specs.ReadWrite.{ReadWriteLock, hold_of, writer_beside, read, write, give_back, renew};
ghost use Rattle.lr_rw.specs.Holds.{IsLockAt, member_text};
ghost use Rattle.lr_rw.specs.Step.{AreLive, ChangesOnlyTwo, IsLockStep, IsReady, MayJoin, take_unhindered};

use crate::holds::{deadline_of, first_hold, hold_count, last_deadline, len, put, remove};
use crate::lock_keys::LockKeys;
use crate::member::{member, writer_of};
use lr_keys::KeySpace;
use lr_limits::{MOST_HOLDS, MOST_MEMBERS, NEVER};
use lr_names::Owner;
use lr_objects::{Access, Remaining, Reply};
use std::alloc::Global;

// How long it is until a deadline.
fn remaining(keys: &KeySpace, deadline: u64) -> Remaining
    ensures { keys.now.moment < deadline → deadline ≤ never
        → result ≡ deadline - keys.now.moment }
{
    let left = deadline.saturating_sub(keys.moment());
    Remaining::new(left.clamp(1, NEVER))
}

/// The deadline of the write hold of another owner, if there is one.
///
/// One place tells. A write hold stands only beside holds of its own owner, so whoever writes has all
/// the holds, the first one too: if another writes, it is the owner of the first hold.
pub(crate) fn writer_beside(keys: &KeySpace, lock: &LockKeys, owner: &Owner) -> Option<u64>
    ensures { (holds : ReadWriteLock)
        → IsLockAt keys.now lock.now.counts lock.now.deadlines holds
        → result ≡ option_map (λ hold. hold.deadline) (writer_beside owner.now holds) }
{
    let first = first_hold(keys, lock)?;
    let writer = writer_of(&first.0);
    if writer == member(Access::Write, owner) {
        return None;
    }
    deadline_of(keys, lock, &writer)
}

// Takes a lock that nobody hinders: once more, or with a first hold.
fn take(
    alloc: Global,
    keys: &mut KeySpace,
    lock: &LockKeys,
    access: Access,
    owner: &Owner,
    lease: u64,
) -> Reply
    requires apart { lock.now.counts ≢ lock.now.deadlines }
    requires lease { IsTrue (is_lease lease) }
    ensures step { (holds : ReadWriteLock)
        → IsLockAt keys.old lock.now.counts lock.now.deadlines holds
        → (hold_of owner.now access holds ≡ None
        → MayJoin owner.now access (keys.old.moment + lease) holds
        × IsReady keys.old lock.now.counts lock.now.deadlines (member_text access owner.now))
        → IsLockStep keys.new lock.now.counts lock.now.deadlines result
        (take_unhindered owner.now access (keys.old.moment + lease) holds) }
    ensures others { ChangesOnlyTwo lock.now.counts lock.now.deadlines keys.old keys.new }
    ensures moment { keys.new.moment ≡ keys.old.moment }
{
    if hold_count(keys, lock, access, owner) >= MOST_HOLDS {
        return Reply::TooDeep;
    }
    let deadline = keys.moment() + lease;
    put(alloc, keys, lock, &member(access, owner), 1, deadline);
    Reply::Granted
}

/// Takes the lock to read, unless another writes.
pub(crate) fn read(
    alloc: Global,
    keys: &mut KeySpace,
    lock: &LockKeys,
    owner: &Owner,
    lease: u64,
) -> Reply
    requires apart { lock.now.counts ≢ lock.now.deadlines }
    requires lease { IsTrue (is_lease lease) }
    ensures step { (holds : ReadWriteLock)
        → IsLockAt keys.old lock.now.counts lock.now.deadlines holds
        → AreLive keys.old.moment holds
        → (hold_of owner.now Access.Read holds ≡ None
        → IsReady keys.old lock.now.counts lock.now.deadlines (member_text Access.Read owner.now))
        → IsLockStep keys.new lock.now.counts lock.now.deadlines result
        (read keys.old.moment owner.now lease holds) }
    ensures others { ChangesOnlyTwo lock.now.counts lock.now.deadlines keys.old keys.new }
    ensures moment { keys.new.moment ≡ keys.old.moment }
{
    if let Some(deadline) = writer_beside(keys, lock, owner) {
        return Reply::Busy(remaining(keys, deadline));
    }
    if hold_count(keys, lock, Access::Read, owner) == 0 && len(keys, lock) >= MOST_MEMBERS as u64 {
        return Reply::TooMany;
    }
    take(alloc, keys, lock, Access::Read, owner, lease)
}

/// Takes the lock to write, unless it is held: only who writes may take it once more.
pub(crate) fn write(
    alloc: Global,
    keys: &mut KeySpace,
    lock: &LockKeys,
    owner: &Owner,
    lease: u64,
) -> Reply
    requires apart { lock.now.counts ≢ lock.now.deadlines }
    requires lease { IsTrue (is_lease lease) }
    ensures step { (holds : ReadWriteLock)
        → IsLockAt keys.old lock.now.counts lock.now.deadlines holds
        → AreLive keys.old.moment holds
        → (hold_of owner.now Access.Write holds ≡ None
        → IsReady keys.old lock.now.counts lock.now.deadlines (member_text Access.Write owner.now))
        → IsLockStep keys.new lock.now.counts lock.now.deadlines result
        (write keys.old.moment owner.now lease holds) }
    ensures others { ChangesOnlyTwo lock.now.counts lock.now.deadlines keys.old keys.new }
    ensures moment { keys.new.moment ≡ keys.old.moment }
{
    if hold_count(keys, lock, Access::Write, owner) == 0 {
        if let Some(deadline) = last_deadline(keys, lock) {
            return Reply::Busy(remaining(keys, deadline));
        }
    }
    take(alloc, keys, lock, Access::Write, owner, lease)
}

/// Gives one hold back. What stays held lasts for the rest lease from now on.
pub(crate) fn give_back(
    alloc: Global,
    keys: &mut KeySpace,
    lock: &LockKeys,
    access: Access,
    owner: &Owner,
    rest: u64,
) -> Reply
    requires apart { lock.now.counts ≢ lock.now.deadlines }
    requires lease { IsTrue (is_lease rest) }
    ensures step { (name : List ℕ) (holds : ReadWriteLock)
        → IsLockAt keys.old lock.now.counts lock.now.deadlines holds
        → IsLockStep keys.new lock.now.counts lock.now.deadlines result
        (give_back name keys.old.moment owner.now access rest holds) }
    ensures others { ChangesOnlyTwo lock.now.counts lock.now.deadlines keys.old keys.new }
    ensures moment { keys.new.moment ≡ keys.old.moment }
{
    let count = hold_count(keys, lock, access, owner);
    if count == 0 {
        return Reply::NotHeld;
    }
    let member = member(access, owner);
    if count == 1 {
        remove(keys, lock, &member);
        return Reply::Freed;
    }
    let deadline = keys.moment() + rest;
    put(alloc, keys, lock, &member, -1, deadline);
    Reply::Kept
}

/// Lets a hold last for this lease from now on. It takes no memory.
pub(crate) fn renew(
    alloc: Global,
    keys: &mut KeySpace,
    lock: &LockKeys,
    access: Access,
    owner: &Owner,
    lease: u64,
) -> Reply
    requires apart { lock.now.counts ≢ lock.now.deadlines }
    requires lease { IsTrue (is_lease lease) }
    ensures step { (holds : ReadWriteLock)
        → IsLockAt keys.old lock.now.counts lock.now.deadlines holds
        → IsLockStep keys.new lock.now.counts lock.now.deadlines result
        (renew keys.old.moment owner.now access lease holds) }
    ensures others { ChangesOnlyTwo lock.now.counts lock.now.deadlines keys.old keys.new }
    ensures moment { keys.new.moment ≡ keys.old.moment }
{
    if hold_count(keys, lock, access, owner) == 0 {
        return Reply::Lost;
    }
    let deadline = keys.moment() + lease;
    put(alloc, keys, lock, &member(access, owner), 0, deadline);
    Reply::Renewed
}
