//! The steps of the functions on the three keys of a lock, at the moment of the keys. Of the places
//! those that are stale were removed.
ghost use Rattle.std.specs.Prelude.{◌≡◌, ◌&&◌, ℕ, List, None, is_none, if◌then◌else◌, true, IsTrue};
ghost use Rattle.lr_keys.specs.KeySpace.{ChangesOnly, IsPrepared, entry_at};
ghost use Rattle.lr_model.specs.Fair.{FairLock, FairPlace, first_post, is_first, leave_with, place_of, take_fair, with_queue};
ghost use Rattle.lr_model.specs.Hold.{give_back_hold};
ghost use Rattle.lr_model.specs.Moment.{is_lease};
ghost use Rattle.lr_names.specs.Owner.{owner_text};
ghost use Rattle.lr_hold.specs.Step.{is_freed};
ghost use Rattle.lr_fair.specs.Queue.{IsQueueAt};
ghost use Rattle.lr_fair.specs.Step.{AreApart, AreLive, ChangesOnlyThree, ChangesOnlyTwo, IsFairStep, IsLockAt, IsReady};

use crate::lock_keys::LockKeys;
use crate::places::{first_owner, remove, stale_of};
use crate::turn::{is_first, take_turn, wait};
use lr_hold::{give_back, hold_count, remaining};
use lr_keys::{KeySpace, ValueKind};
use lr_names::{Channel, Name, Owner, Post};
use lr_objects::Reply;
use std::alloc::Global;

/// Takes the lock, if nobody holds it and the owner's turn has come, or takes it once more. Another
/// waits.
pub(crate) fn take(
    alloc: Global,
    keys: &mut KeySpace,
    lock: &LockKeys,
    owner: &Owner,
    lease: u64,
    queues: bool,
) -> Reply
    requires apart { AreApart lock.now.hold lock.now.queue lock.now.stales }
    requires lease { IsTrue (is_lease lease) }
    requires memory { entry_at keys.old lock.now.hold ≡ None
        → IsPrepared keys.old lock.now.hold ValueKind.Hash (owner_text owner.now) }
    ensures step { (fair : FairLock)
        → IsLockAt keys.old lock.now.hold lock.now.queue lock.now.stales fair
        → AreLive keys.old.moment fair.queue
        → (queues ≡ true → place_of owner.now fair.queue ≡ None
        → IsReady keys.old lock.now.queue lock.now.stales (owner_text owner.now))
        → IsFairStep keys.new lock.now.hold lock.now.queue lock.now.stales (result, None)
        (take_fair keys.old.moment owner.now lease queues fair.queue fair.held) }
    ensures others { ChangesOnlyThree lock.now.hold lock.now.queue lock.now.stales keys.old keys.new }
    ensures moment { keys.new.moment ≡ keys.old.moment }
{
    if !keys.exists(&lock.hold) {
        return take_turn(alloc, keys, lock, owner, lease, queues);
    }
    if hold_count(keys, &lock.hold, owner) == 0 {
        let left = remaining(keys, &lock.hold);
        return wait(alloc, keys, lock, owner, left, queues);
    }
    lr_hold::take(alloc, keys, &lock.hold, owner, lease)
}

// The message to the first in the queue, if there is one.
fn first_post(keys: &KeySpace, lock: &LockKeys, name: &Name) -> Option<Post>
    ensures { (queue : List FairPlace)
        → IsQueueAt (entry_at keys.now lock.now.queue) (entry_at keys.now lock.now.stales) queue
        → result ≡ first_post name.now queue }
{
    let first = first_owner(keys, lock)?;
    Some(Post::to(Channel::fair(name, &first)))
}

// The same message where the lock has come free, else none.
fn post_if(keys: &KeySpace, lock: &LockKeys, name: &Name, free: bool) -> Option<Post>
    ensures { (queue : List FairPlace)
        → IsQueueAt (entry_at keys.now lock.now.queue) (entry_at keys.now lock.now.stales) queue
        → result ≡ (if free then first_post name.now queue else None) }
{
    if !free {
        return None;
    }
    first_post(keys, lock, name)
}

// Whether the reply says that the lock has come free.
fn is_freed(reply: &Reply) -> bool
    ensures { result ≡ is_freed reply.now }
{
    matches!(reply, Reply::Freed)
}

/// Gives one hold back. The last one frees the lock, and the first in the queue is told.
pub(crate) fn unlock(
    alloc: Global,
    keys: &mut KeySpace,
    lock: &LockKeys,
    name: &Name,
    owner: &Owner,
    rest: u64,
) -> (Reply, Option<Post>)
    requires apart { AreApart lock.now.hold lock.now.queue lock.now.stales }
    requires lease { IsTrue (is_lease rest) }
    ensures step { (fair : FairLock)
        → IsLockAt keys.old lock.now.hold lock.now.queue lock.now.stales fair
        → IsFairStep keys.new lock.now.hold lock.now.queue lock.now.stales result
        (with_queue fair.queue (give_back_hold (first_post name.now fair.queue) keys.old.moment
        owner.now rest fair.held)) }
    ensures others { ChangesOnly lock.now.hold keys.old keys.new }
    ensures moment { keys.new.moment ≡ keys.old.moment }
{
    let reply = give_back(alloc, keys, &lock.hold, owner, rest);
    let post = post_if(keys, lock, name, is_freed(&reply));
    (reply, post)
}

// Whether nobody holds the lock, and the owner's turn has come.
fn may_take(keys: &KeySpace, lock: &LockKeys, owner: &Owner) -> bool
    ensures { (fair : FairLock)
        → IsLockAt keys.now lock.now.hold lock.now.queue lock.now.stales fair
        → result ≡ is_none fair.held && is_first owner.now fair.queue }
{
    !keys.exists(&lock.hold) && is_first(keys, lock, owner)
}

/// Gives the owner's place up. Where it was the first and nobody holds the lock, the next is told.
pub(crate) fn leave(
    keys: &mut KeySpace,
    lock: &LockKeys,
    name: &Name,
    owner: &Owner,
) -> (Reply, Option<Post>)
    requires apart { AreApart lock.now.hold lock.now.queue lock.now.stales }
    ensures step { (fair : FairLock)
        → IsLockAt keys.old lock.now.hold lock.now.queue lock.now.stales fair
        → IsFairStep keys.new lock.now.hold lock.now.queue lock.now.stales result
        (leave_with name.now owner.now fair.held fair.queue (place_of owner.now fair.queue)) }
    ensures others { ChangesOnlyTwo lock.now.queue lock.now.stales keys.old keys.new }
    ensures moment { keys.new.moment ≡ keys.old.moment }
{
    if stale_of(keys, lock, owner).is_none() {
        return (Reply::Unknown, None);
    }
    let free = may_take(keys, lock, owner);
    remove(keys, lock, &owner.brief());
    let post = post_if(keys, lock, name, free);
    (Reply::Left, post)
}
