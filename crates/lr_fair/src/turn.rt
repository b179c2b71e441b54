//! Whose turn it is, and how the others wait.
ghost use Rattle.std.specs.Prelude.{◌≡◌, ◌≢◌, ◌<◌, ◌-◌, ℕ, List, ◌∷◌, min, None, true, IsTrue};
ghost use Rattle.lr_keys.specs.KeySpace.{IsPrepared, entry_at};
ghost use Rattle.lr_model.specs.Fair.{FairLock, FairPlace, is_first, is_place_of, place_of, place_wait, take_turn, wait_for, with_queue};
ghost use Rattle.lr_model.specs.Hold.{take_hold};
ghost use Rattle.lr_model.specs.Moment.{is_lease};
ghost use Rattle.lr_names.specs.Owner.{owner_text, same_owner};
ghost use Rattle.lr_fair.specs.Queue.{IsQueueAt};
ghost use Rattle.lr_fair.specs.Step.{AreApart, AreLive, ChangesOnlyThree, ChangesOnlyTwo, IsFairStep, IsLockAt, IsReady};

use crate::lock_keys::LockKeys;
use crate::places::{add, first_owner, keep, len, remove, stale_of};
use lr_hold::take;
use lr_keys::{KeySpace, ValueKind};
use lr_limits::MOST_MEMBERS;
use lr_names::Owner;
use lr_objects::{Remaining, Reply};
use std::alloc::Global;

// How long one waits at most for the first place, in milliseconds, and how long a place lasts after
// its owner was to ask again.
const PLACE_WAIT: u64 = 5_000;

// Whether two owners are one.
fn is_same(one: &Owner, other: &Owner) -> bool
    ensures { result ≡ same_owner one.now other.now }
{
    one.brief() == other.brief()
}

/// Whether an owner's turn has come: nobody is in the queue, or the owner is the first.
pub(crate) fn is_first(keys: &KeySpace, lock: &LockKeys, owner: &Owner) -> bool
    ensures { (queue : List FairPlace)
        → IsQueueAt (entry_at keys.now lock.now.queue) (entry_at keys.now lock.now.stales) queue
        → result ≡ is_first owner.now queue }
{
    match first_owner(keys, lock) {
        Some(first) => is_same(&first, owner),
        None => true,
    }
}

/// Has an owner wait for so long: it gets the last place in the queue, if it asks for one and there
/// is room, and a place that it has it keeps for as long as before at least.
pub(crate) fn wait(
    alloc: Global,
    keys: &mut KeySpace,
    lock: &LockKeys,
    owner: &Owner,
    wait: Remaining,
    queues: bool,
) -> Reply
    requires apart { AreApart lock.now.hold lock.now.queue lock.now.stales }
    ensures step { (fair : FairLock)
        → IsLockAt keys.old lock.now.hold lock.now.queue lock.now.stales fair
        → (queues ≡ true → place_of owner.now fair.queue ≡ None
        → IsReady keys.old lock.now.queue lock.now.stales (owner_text owner.now))
        → IsFairStep keys.new lock.now.hold lock.now.queue lock.now.stales (result, None)
        (wait_for keys.old.moment owner.now wait queues fair.held fair.queue) }
    ensures others { ChangesOnlyTwo lock.now.queue lock.now.stales keys.old keys.new }
    ensures moment { keys.new.moment ≡ keys.old.moment }
{
    if !queues {
        return Reply::Busy(wait);
    }
    let stale = keys.moment() + wait.millis() + PLACE_WAIT;
    if let Some(own) = stale_of(keys, lock, owner) {
        keep(alloc, keys, lock, owner, own.max(stale));
        return Reply::Busy(wait);
    }
    if len(keys, lock) >= MOST_MEMBERS as u64 {
        return Reply::TooMany;
    }
    add(alloc, keys, lock, owner, stale);
    Reply::Busy(wait)
}

// How long one waits behind the first place: until it is stale, and five seconds at most.
fn wait_behind(keys: &KeySpace, lock: &LockKeys, first: &Owner) -> Remaining
    ensures { (place : FairPlace) (rest : List FairPlace)
        → IsQueueAt (entry_at keys.now lock.now.queue) (entry_at keys.now lock.now.stales)
        (place ∷ rest)
        → first.now ≡ place.owner → keys.now.moment < place.stale
        → result ≡ min place_wait (place.stale - keys.now.moment) }
{
    let stale = stale_of(keys, lock, first).unwrap_or(0);
    let left = stale.saturating_sub(keys.moment());
    Remaining::new(left.clamp(1, PLACE_WAIT))
}

// Takes what nobody holds, for the owner of the first place, which goes.
fn take_first(
    alloc: Global,
    keys: &mut KeySpace,
    lock: &LockKeys,
    owner: &Owner,
    lease: u64,
) -> Reply
    requires apart { AreApart lock.now.hold lock.now.queue lock.now.stales }
    requires lease { IsTrue (is_lease lease) }
    requires memory { entry_at keys.old lock.now.hold ≡ None
        → IsPrepared keys.old lock.now.hold ValueKind.Hash (owner_text owner.now) }
    ensures step { (place : FairPlace) (rest : List FairPlace)
        → IsLockAt keys.old lock.now.hold lock.now.queue lock.now.stales
        (record { held = None; queue = place ∷ rest })
        → is_place_of owner.now place ≡ true
        → IsFairStep keys.new lock.now.hold lock.now.queue lock.now.stales (result, None)
        (with_queue rest (take_hold keys.old.moment owner.now lease None)) }
    ensures others { ChangesOnlyThree lock.now.hold lock.now.queue lock.now.stales keys.old keys.new }
    ensures moment { keys.new.moment ≡ keys.old.moment }
{
    remove(keys, lock, &owner.brief());
    take(alloc, keys, &lock.hold, owner, lease)
}

/// Takes what nobody holds, if the owner's turn has come. Another waits behind the first place.
pub(crate) fn take_turn(
    alloc: Global,
    keys: &mut KeySpace,
    lock: &LockKeys,
    owner: &Owner,
    lease: u64,
    queues: bool,
) -> Reply
    requires apart { AreApart lock.now.hold lock.now.queue lock.now.stales }
    requires lease { IsTrue (is_lease lease) }
    requires memory { entry_at keys.old lock.now.hold ≡ None
        → IsPrepared keys.old lock.now.hold ValueKind.Hash (owner_text owner.now) }
    ensures step { (queue : List FairPlace)
        → IsLockAt keys.old lock.now.hold lock.now.queue lock.now.stales
        (record { held = None; queue = queue })
        → AreLive keys.old.moment queue
        → (queues ≡ true → place_of owner.now queue ≡ None
        → IsReady keys.old lock.now.queue lock.now.stales (owner_text owner.now))
        → IsFairStep keys.new lock.now.hold lock.now.queue lock.now.stales (result, None)
        (take_turn keys.old.moment owner.now lease queues queue) }
    ensures others { ChangesOnlyThree lock.now.hold lock.now.queue lock.now.stales keys.old keys.new }
    ensures moment { keys.new.moment ≡ keys.old.moment }
{
    let Some(first) = first_owner(keys, lock) else {
        return take(alloc, keys, &lock.hold, owner, lease);
    };
    if is_same(&first, owner) {
        return take_first(alloc, keys, lock, owner, lease);
    }
    let left = wait_behind(keys, lock, &first);
    wait(alloc, keys, lock, owner, left, queues)
}
