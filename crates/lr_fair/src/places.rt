//! The queue of a lock: what its two keys say of the places, and the changes of one.
ghost use Rattle.std.specs.Prelude.{◌≡◌, ◌≢◌, ◌<◌, ℕ, List, length, max, Ok, Some, None, IfSome, option_map};
ghost use Rattle.lr_keys.specs.KeySpace.{count_at, entry_at, plan_at, score_at};
ghost use Rattle.lr_limits.specs.Limits.{member_limit};
ghost use Rattle.lr_model.specs.Fair.{FairPlace, place_of, with_last_place, with_later_place, without_place};
ghost use Rattle.lr_names.specs.Owner.{ThreadOfClient, IsOwner, owner_text};
ghost use Rattle.lr_fair.specs.Queue.{IsQueueAt, first_owner};
ghost use Rattle.lr_fair.specs.Step.{ChangesOnlyTwo, IsReady};

use crate::lock_keys::LockKeys;
use lr_keys::KeySpace;
use lr_names::Owner;
use lr_text::Brief;
use std::alloc::Global;

/// Who has the first place, if there is one.
pub(crate) fn first_owner(keys: &KeySpace, lock: &LockKeys) -> Option<Owner>
    ensures { (queue : List FairPlace)
        → IsQueueAt (entry_at keys.now lock.now.queue) (entry_at keys.now lock.now.stales) queue
        → result ≡ first_owner queue }
{
    let first = keys.lindex(&lock.queue, 0).unwrap_or(None)?;
    match Owner::parse(first.as_slice()) {
        Ok(owner) => Some(owner),
        Err(_) => None,
    }
}

/// The moment from which on the owner's place is stale, if the owner has one.
pub(crate) fn stale_of(keys: &KeySpace, lock: &LockKeys, owner: &Owner) -> Option<u64>
    ensures { (queue : List FairPlace)
        → IsQueueAt (entry_at keys.now lock.now.queue) (entry_at keys.now lock.now.stales) queue
        → result ≡ option_map (λ place. place.stale) (place_of owner.now queue) }
{
    keys.zscore(&lock.stales, &owner.brief()).unwrap_or(None)
}

/// How many places there are.
pub(crate) fn len(keys: &KeySpace, lock: &LockKeys) -> u64
    ensures { (queue : List FairPlace)
        → IsQueueAt (entry_at keys.now lock.now.queue) (entry_at keys.now lock.now.stales) queue
        → result ≡ length queue }
{
    keys.llen(&lock.queue).unwrap_or(0)
}

/// Adds a place at the end, for which memory was taken in both keys.
pub(crate) fn add(alloc: Global, keys: &mut KeySpace, lock: &LockKeys, owner: &Owner, stale: u64)
    requires apart { lock.now.queue ≢ lock.now.stales }
    ensures added { (queue : List FairPlace)
        → IsQueueAt (entry_at keys.old lock.now.queue) (entry_at keys.old lock.now.stales) queue
        → place_of owner.now queue ≡ None → length queue < member_limit
        → IsReady keys.old lock.now.queue lock.now.stales (owner_text owner.now)
        → IsQueueAt (entry_at keys.new lock.now.queue) (entry_at keys.new lock.now.stales)
        (with_last_place owner.now stale queue) }
    ensures others { ChangesOnlyTwo lock.now.queue lock.now.stales keys.old keys.new }
    ensures moment { keys.new.moment ≡ keys.old.moment }
{
    let text = owner.brief();
    // Neither can fail: there is memory and room for it.
    let _length = keys.rpush(alloc, &lock.queue, &text);
    let _new = keys.zadd(alloc, &lock.stales, &text, stale);
}

/// Keeps the owner's place, with this stale moment.
pub(crate) fn keep(alloc: Global, keys: &mut KeySpace, lock: &LockKeys, owner: &Owner, kept: u64)
    requires apart { lock.now.queue ≢ lock.now.stales }
    ensures kept { (queue : List FairPlace) (own : FairPlace) (stale : ℕ)
        → IsQueueAt (entry_at keys.old lock.now.queue) (entry_at keys.old lock.now.stales) queue
        → place_of owner.now queue ≡ Some own → kept ≡ max own.stale stale
        → IsQueueAt (entry_at keys.new lock.now.queue) (entry_at keys.new lock.now.stales)
        (with_later_place owner.now stale queue) }
    ensures others { ChangesOnlyTwo lock.now.queue lock.now.stales keys.old keys.new }
    ensures moment { keys.new.moment ≡ keys.old.moment }
{
    // It takes no memory: the member is there.
    let _new = keys.zadd(alloc, &lock.stales, &owner.brief(), kept);
}

/// Removes the place of the owner with this text, if it is there.
pub(crate) fn remove(keys: &mut KeySpace, lock: &LockKeys, text: &Brief)
    requires apart { lock.now.queue ≢ lock.now.stales }
    ensures removed { (queue : List FairPlace) (owner : ThreadOfClient)
        → IsQueueAt (entry_at keys.old lock.now.queue) (entry_at keys.old lock.now.stales) queue
        → IsOwner owner → text.now ≡ owner_text owner
        → IsQueueAt (entry_at keys.new lock.now.queue) (entry_at keys.new lock.now.stales)
        (without_place owner queue) }
    ensures others { ChangesOnlyTwo lock.now.queue lock.now.stales keys.old keys.new }
    ensures moment { keys.new.moment ≡ keys.old.moment }
    ensures prepared { plan_at keys.new ≡ plan_at keys.old }
    ensures fewer { (score : ℕ)
        → score_at text.now (entry_at keys.old lock.now.stales) ≡ Ok (Some score)
        → count_at (entry_at keys.new lock.now.stales)
        < count_at (entry_at keys.old lock.now.stales) }
{
    let _removed = keys.zrem(&lock.stales, text);
    let _items = keys.lrem(&lock.queue, text);
}
