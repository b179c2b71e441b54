//! The call of a function of a read-write lock.
ghost use Rattle.std.specs.Prelude.{◌≡◌, ◌≢◌, ◌≤◌, ℕ, List, Option, None, max, false, is_some, IsTrue, IsOk, IfOk, OnOk, OnErr};
ghost use Rattle.lr_names.specs.Key.{key_text, keys_of};
ghost use Rattle.lr_names.specs.Name.{IsName};
ghost use Rattle.lr_keys.specs.KeySpace.{OthersAreLive, StaysSame, entry_at, plan_at, score_at};
ghost use Rattle.lr_limits.specs.Limits.{last_moment};
ghost use Rattle.lr_model.specs.Answer.{Objects, reply_of, objects_after, post_of};
ghost use Rattle.lr_model.specs.Moment.{is_lease};
ghost use Rattle.lr_model.specs.ReadWrite.{ReadWriteLock, live_holds, read_write_call};
ghost use Rattle.lr_rw.specs.Holds.{IsLockAt, member_text};
ghost use Rattle.lr_rw.specs.Run.{IsLockRun, IsReadyFor, LacksHold, is_held, lacks_hold, lease_of, live_call, makes_hold, post_told, read_write_op};
ghost use Rattle.lr_rw.specs.Stands.{ReadWriteLocksStand};
ghost use Rattle.lr_rw.specs.Step.{AreLive, ChangesOnlyTwo, IsLockStep, IsReady};

use crate::expired::remove_expired;
use crate::lock_keys::LockKeys;
use crate::member::member;
use crate::steps::{give_back, read, renew, write};
use lr_keys::{KeySpace, ValueKind};
use lr_limits::LONGEST_LEASE;
use lr_names::{Channel, Kind, Name, Part, Post};
use lr_objects::{Access, ReadWriteCall, Reply};
use lr_text::Brief;
use std::alloc::{AllocError, Global};

// Whether a function takes this lease: one of 1 to 86,400,000,000 milliseconds.
fn is_lease(millis: u64) -> bool
    ensures { result ≡ is_lease millis }
{
    (1..=LONGEST_LEASE).contains(&millis)
}

// The lease that a call gives, or the rest lease.
fn lease_of(call: &ReadWriteCall) -> u64
    ensures { result ≡ lease_of call.now }
{
    match call {
        ReadWriteCall::Take { lease, .. } | ReadWriteCall::Renew { lease, .. } => *lease,
        ReadWriteCall::Unlock { rest, .. } => *rest,
    }
}

/// Whether the hold with this text lasts beyond the moment, or beyond that of the keys where that is
/// later.
pub(crate) fn is_held_at(keys: &KeySpace, lock: &LockKeys, member: &Brief, moment: u64) -> bool
    ensures { let m = max keys.now.moment moment in
        result ≡ is_held m (score_at member.now (entry_at keys.now lock.now.deadlines)) }
{
    match keys.zscore(&lock.deadlines, member) {
        Ok(Some(deadline)) => deadline > keys.moment().max(moment),
        _ => false,
    }
}

// Takes the memory for one more member of both keys. After an error the moment and the keys are as
// before.
fn make_room(
    alloc: Global,
    keys: &mut KeySpace,
    lock: &LockKeys,
    member: &Brief,
) -> Result<(), AllocError>
    requires apart { lock.now.counts ≢ lock.now.deadlines }
    ensures ready { OnOk result
        (IsReady keys.new lock.now.counts lock.now.deadlines member.now) }
    ensures same { StaysSame keys.old keys.new }
{
    keys.prepare(alloc, &lock.counts, ValueKind::Hash, member)?;
    keys.prepare(alloc, &lock.deadlines, ValueKind::Zset, member)
}

// Takes the memory for the hold that a call may make, unless the owner has one that will be there at
// the moment. After an error the moment and the keys are as before.
fn take_memory(
    alloc: Global,
    keys: &mut KeySpace,
    moment: u64,
    lock: &LockKeys,
    call: &ReadWriteCall,
) -> Result<(), AllocError>
    requires apart { lock.now.counts ≢ lock.now.deadlines }
    ensures ready { let m = max keys.old.moment moment in OnOk result ((holds : ReadWriteLock)
        → IsLockAt keys.old lock.now.counts lock.now.deadlines holds
        → LacksHold call.now (live_holds m holds)
        → IsReadyFor call.now keys.new lock.now.counts lock.now.deadlines) }
    ensures same { StaysSame keys.old keys.new }
    ensures succeeds { let m = max keys.old.moment moment in
        lacks_hold call.now m (entry_at keys.old lock.now.deadlines) ≡ false → IsOk result }
{
    match call {
        ReadWriteCall::Take { access, owner, .. } => {
            let member = member(*access, owner);
            if is_held_at(keys, lock, &member, moment) {
                return Ok(());
            }
            make_room(alloc, keys, lock, &member)
        }
        ReadWriteCall::Unlock { .. } | ReadWriteCall::Renew { .. } => Ok(()),
    }
}

// The step of a function at the moment of the keys, where all holds are live.
fn step(alloc: Global, keys: &mut KeySpace, lock: &LockKeys, call: &ReadWriteCall) -> Reply
    requires apart { lock.now.counts ≢ lock.now.deadlines }
    requires lease { IsTrue (is_lease (lease_of call.now)) }
    ensures step { (name : List ℕ) (holds : ReadWriteLock)
        → IsLockAt keys.old lock.now.counts lock.now.deadlines holds
        → AreLive keys.old.moment holds
        → (LacksHold call.now holds
        → IsReadyFor call.now keys.old lock.now.counts lock.now.deadlines)
        → IsLockStep keys.new lock.now.counts lock.now.deadlines result
        (live_call name keys.old.moment call.now holds) }
    ensures others { ChangesOnlyTwo lock.now.counts lock.now.deadlines keys.old keys.new }
    ensures moment { keys.new.moment ≡ keys.old.moment }
{
    match call {
        ReadWriteCall::Take {
            access: Access::Read,
            owner,
            lease,
        } => read(alloc, keys, lock, owner, *lease),
        ReadWriteCall::Take {
            access: Access::Write,
            owner,
            lease,
        } => write(alloc, keys, lock, owner, *lease),
        ReadWriteCall::Unlock {
            access,
            owner,
            rest,
        } => give_back(alloc, keys, lock, *access, owner, *rest),
        ReadWriteCall::Renew {
            access,
            owner,
            lease,
        } => renew(alloc, keys, lock, *access, owner, *lease),
    }
}

// The reply of a function, with its change of the keys.
fn answer(
    alloc: Global,
    keys: &mut KeySpace,
    moment: u64,
    lock: &LockKeys,
    call: &ReadWriteCall,
) -> Result<Reply, AllocError>
    requires apart { lock.now.counts ≢ lock.now.deadlines }
    requires early { moment ≤ last_moment }
    ensures run { let m = max keys.old.moment moment in IfOk result (λ reply. (name : List ℕ)
        → IsLockRun keys.old keys.new lock.now.counts lock.now.deadlines m reply
        (read_write_call name m call.now)) }
    ensures succeeds { let m = max keys.old.moment moment in
        makes_hold call.now m (entry_at keys.old lock.now.deadlines) ≡ false → IsOk result }
    ensures err { OnErr result (StaysSame keys.old keys.new) }
{
    if !is_lease(lease_of(call)) {
        keys.advance(moment);
        return Ok(Reply::BadLease);
    }
    take_memory(alloc, keys, moment, lock, call)?;
    keys.advance(moment);
    remove_expired(keys, lock);
    Ok(step(alloc, keys, lock, call))
}

// The message of a call that was answered so: those who wait are told that the lock has come free.
fn post_after(
    keys: &KeySpace,
    lock: &LockKeys,
    name: &Name,
    call: &ReadWriteCall,
    reply: &Reply,
) -> Option<Post>
    ensures { let left = is_some (entry_at keys.now lock.now.counts) in
        result ≡ post_told name.now call.now reply.now left }
{
    match (call, reply) {
        (ReadWriteCall::Unlock { access, .. }, Reply::Freed) => {
            if *access == Access::Read && keys.exists(&lock.counts) {
                return None;
            }
            Some(Post::to(Channel::of(Kind::Rw, name)))
        }
        _ => None,
    }
}

/// Runs a function of a read-write lock, as one step at a moment in milliseconds, or at that of the
/// keys where that is later. What has expired of the lock is removed first.
///
/// Where the keys stand for the read-write locks of some objects, the reply and the message are what
/// the function gives for these, and afterwards the keys stand for what it makes of them. All keys
/// of other objects hold what is live of them.
///
/// Only a call that takes the lock takes memory, and only where its owner has no such hold that
/// lasts: else it may make one. After an error the moment and the keys are as before. Memory that
/// was prepared is given up in any case.
pub fn run(
    alloc: Global,
    keys: &mut KeySpace,
    moment: u64,
    name: &Name,
    call: &ReadWriteCall,
) -> Result<(Reply, Option<Post>), AllocError>
    requires early { moment ≤ last_moment }
    ensures reply { let m = max keys.old.moment moment in IfOk result (λ r.
        (objects : Objects) → ReadWriteLocksStand keys.old objects
        → r.0 ≡ reply_of objects m (read_write_op name.now call.now)) }
    ensures post { let m = max keys.old.moment moment in IfOk result (λ r.
        (objects : Objects) → ReadWriteLocksStand keys.old objects
        → r.1 ≡ post_of objects m (read_write_op name.now call.now)) }
    ensures stands { let m = max keys.old.moment moment in
        OnOk result ((objects : Objects) → ReadWriteLocksStand keys.old objects
        → ReadWriteLocksStand keys.new (objects_after objects m (read_write_op name.now call.now))) }
    ensures frame { OnOk result (OthersAreLive (keys_of Kind.Rw name.now) keys.old keys.new) }
    ensures moment { OnOk result (keys.new.moment ≡ max keys.old.moment moment) }
    ensures settled { plan_at keys.new ≡ (λ _. None) }
    ensures succeeds { let m = max keys.old.moment moment in
        let deadlines = entry_at keys.old (key_text Part.RwDeadlines name.now) in
        makes_hold call.now m deadlines ≡ false → IsOk result }
    ensures err { OnErr result (StaysSame keys.old keys.new) }
{
    // What the type of the name says of it.
    let _text = name.as_slice();
    let lock = LockKeys::of(name);
    let answered = answer(alloc, keys, moment, &lock, call);
    keys.settle();
    let reply = answered?;
    let post = post_after(keys, &lock, name, call, &reply);
    Ok((reply, post))
}
