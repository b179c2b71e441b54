//! The functions of a fair lock, each one step at a moment.
ghost use Rattle.std.specs.Prelude.{◌≡◌, ◌≢◌, ◌≤◌, ◌&&◌, ◌||◌, ℕ, List, None, max, is_none, true, false, IsTrue, IsOk, IfOk, OnOk, OnErr};
ghost use Rattle.lr_names.specs.Key.{key_text};
ghost use Rattle.lr_names.specs.Name.{IsName};
ghost use Rattle.lr_names.specs.Owner.{IsOwner, owner_text};
ghost use Rattle.lr_keys.specs.KeySpace.{IsPrepared, StaysSame, entry_at, live_entry, plan_at, score_at};
ghost use Rattle.lr_limits.specs.Limits.{last_moment};
ghost use Rattle.lr_model.specs.Fair.{FairPlace, fair_try, fair_unlock, fair_leave, fair_renew, live_places, place_of};
ghost use Rattle.lr_model.specs.Moment.{is_lease};
ghost use Rattle.lr_fair.specs.Queue.{IsQueueAt};
ghost use Rattle.lr_fair.specs.Run.{IsRun, is_placed, lacks_place};
ghost use Rattle.lr_fair.specs.Step.{AreApart, IsReady};

use crate::lock_keys::LockKeys;
use crate::places::stale_of;
use crate::stale::remove_stale;
use crate::steps::{leave, take, unlock};
use lr_hold::{is_lease, make_room, renew};
use lr_keys::{KeySpace, ValueKind};
use lr_names::{Name, Owner, Part, Post, key};
use lr_objects::Reply;
use std::alloc::{AllocError, Global};

// Whether the owner has a place that lasts beyond the moment, or beyond that of the keys where that
// is later.
fn is_placed_at(keys: &KeySpace, lock: &LockKeys, owner: &Owner, moment: u64) -> bool
    ensures placed { let m = max keys.now.moment moment in
        result ≡ is_placed m (score_at (owner_text owner.now) (entry_at keys.now lock.now.stales)) }
    ensures owner { IsOwner owner.now }
{
    match keys.zscore(&lock.stales, &owner.brief()) {
        Ok(Some(stale)) => stale > keys.moment().max(moment),
        _ => false,
    }
}

// Takes the memory for one more place in both keys of the queue. After an error the moment and the
// keys are as before.
fn prepare_place(
    alloc: Global,
    keys: &mut KeySpace,
    lock: &LockKeys,
    owner: &Owner,
) -> Result<(), AllocError>
    requires apart { AreApart lock.now.hold lock.now.queue lock.now.stales }
    ensures ready { OnOk result
        (IsReady keys.new lock.now.queue lock.now.stales (owner_text owner.now)) }
    ensures hold { OnOk result (plan_at keys.new lock.now.hold ≡ plan_at keys.old lock.now.hold) }
    ensures same { StaysSame keys.old keys.new }
{
    let text = owner.brief();
    keys.prepare(alloc, &lock.queue, ValueKind::List, &text)?;
    keys.prepare(alloc, &lock.stales, ValueKind::Zset, &text)
}

// Takes the memory for a place of the owner, if it asks for one and has none that lasts.
fn make_place(
    alloc: Global,
    keys: &mut KeySpace,
    moment: u64,
    lock: &LockKeys,
    owner: &Owner,
    queues: bool,
) -> Result<(), AllocError>
    requires apart { AreApart lock.now.hold lock.now.queue lock.now.stales }
    ensures ready { let m = max keys.old.moment moment in OnOk result ((queue : List FairPlace)
        → IsQueueAt (entry_at keys.old lock.now.queue) (entry_at keys.old lock.now.stales) queue
        → queues ≡ true → place_of owner.now (live_places m queue) ≡ None
        → IsReady keys.new lock.now.queue lock.now.stales (owner_text owner.now)) }
    ensures hold { OnOk result (plan_at keys.new lock.now.hold ≡ plan_at keys.old lock.now.hold) }
    ensures same { StaysSame keys.old keys.new }
    ensures there { let m = max keys.old.moment moment in
        let stales = entry_at keys.old lock.now.stales in
        lacks_place m (owner_text owner.now) queues stales ≡ false → IsOk result }
{
    if !queues {
        return Ok(());
    }
    if is_placed_at(keys, lock, owner, moment) {
        return Ok(());
    }
    prepare_place(alloc, keys, lock, owner)
}

// Takes the memory for the hold and the place that a try may make. After an error the moment and the
// keys are as before.
fn take_memory(
    alloc: Global,
    keys: &mut KeySpace,
    moment: u64,
    lock: &LockKeys,
    owner: &Owner,
    queues: bool,
) -> Result<(), AllocError>
    requires apart { AreApart lock.now.hold lock.now.queue lock.now.stales }
    requires early { moment ≤ last_moment }
    ensures hold { let m = max keys.old.moment moment in
        OnOk result (live_entry m (entry_at keys.old lock.now.hold) ≡ None
        → IsPrepared keys.new lock.now.hold ValueKind.Hash (owner_text owner.now)) }
    ensures ready { let m = max keys.old.moment moment in OnOk result ((queue : List FairPlace)
        → IsQueueAt (entry_at keys.old lock.now.queue) (entry_at keys.old lock.now.stales) queue
        → queues ≡ true → place_of owner.now (live_places m queue) ≡ None
        → IsReady keys.new lock.now.queue lock.now.stales (owner_text owner.now)) }
    ensures same { StaysSame keys.old keys.new }
    ensures there { let m = max keys.old.moment moment in
        let hold = live_entry m (entry_at keys.old lock.now.hold) in
        let stales = entry_at keys.old lock.now.stales in
        is_none hold || lacks_place m (owner_text owner.now) queues stales ≡ false
        → IsOk result }
{
    make_room(alloc, keys, moment, &lock.hold, owner)?;
    make_place(alloc, keys, moment, lock, owner, queues)
}

/// Takes the lock, or a place in its queue. The memory for both is taken before the moment goes on.
pub(crate) fn fair_try(
    alloc: Global,
    keys: &mut KeySpace,
    moment: u64,
    name: &Name,
    owner: &Owner,
    lease: u64,
    queues: bool,
) -> Result<Reply, AllocError>
    requires name { IsName name.now }
    requires early { moment ≤ last_moment }
    ensures run { let m = max keys.old.moment moment in IfOk result (λ reply.
        IsRun keys.old keys.new m name.now (reply, None) (fair_try m owner.now lease queues)) }
    ensures succeeds { let m = max keys.old.moment moment in
        let hold = live_entry m (entry_at keys.old (key_text Part.Fair name.now)) in
        let stales = entry_at keys.old (key_text Part.FairStale name.now) in
        is_lease lease && (is_none hold || lacks_place m (owner_text owner.now) queues stales)
        ≡ false → IsOk result }
    ensures err { OnErr result (StaysSame keys.old keys.new) }
{
    if !is_lease(lease) {
        keys.advance(moment);
        return Ok(Reply::BadLease);
    }
    let lock = LockKeys::of(name);
    take_memory(alloc, keys, moment, &lock, owner, queues)?;
    keys.advance(moment);
    remove_stale(keys, &lock);
    Ok(take(alloc, keys, &lock, owner, lease, queues))
}

/// Gives one hold back.
pub(crate) fn fair_unlock(
    alloc: Global,
    keys: &mut KeySpace,
    moment: u64,
    name: &Name,
    owner: &Owner,
    rest: u64,
) -> (Reply, Option<Post>)
    requires name { IsName name.now }
    requires early { moment ≤ last_moment }
    ensures { let m = max keys.old.moment moment in
        IsRun keys.old keys.new m name.now result (fair_unlock name.now m owner.now rest) }
{
    keys.advance(moment);
    if !is_lease(rest) {
        return (Reply::BadLease, None);
    }
    let lock = LockKeys::of(name);
    remove_stale(keys, &lock);
    unlock(alloc, keys, &lock, name, owner, rest)
}

/// Gives the owner's place in the queue up.
pub(crate) fn fair_leave(
    keys: &mut KeySpace,
    moment: u64,
    name: &Name,
    owner: &Owner,
) -> (Reply, Option<Post>)
    requires name { IsName name.now }
    requires early { moment ≤ last_moment }
    ensures { let m = max keys.old.moment moment in
        IsRun keys.old keys.new m name.now result (fair_leave name.now m owner.now) }
{
    keys.advance(moment);
    let lock = LockKeys::of(name);
    remove_stale(keys, &lock);
    leave(keys, &lock, name, owner)
}

/// Renews the lease of a hold. The queue stays as it is.
pub(crate) fn fair_renew(
    keys: &mut KeySpace,
    moment: u64,
    name: &Name,
    owner: &Owner,
    lease: u64,
) -> Reply
    requires name { IsName name.now }
    requires early { moment ≤ last_moment }
    ensures { let m = max keys.old.moment moment in
        IsRun keys.old keys.new m name.now (result, None) (fair_renew m owner.now lease) }
{
    keys.advance(moment);
    if !is_lease(lease) {
        return Reply::BadLease;
    }
    renew(keys, &key(Part::Fair, name), owner, lease)
}
