//! The step that takes a lock, at the moment of the keys.
ghost use Rattle.std.specs.Prelude.{◌≡◌, ◌≢◌, [], None, IsSome, IsTrue};
ghost use Rattle.lr_keys.specs.KeySpace.{IsPrepared, entry_at};
ghost use Rattle.lr_model.specs.Moment.{is_lease};
ghost use Rattle.lr_names.specs.Owner.{owner_text};
ghost use Rattle.lr_fenced.specs.Step.{ChangesOnlyTwo, IsTake};

use crate::token::{last_token, with_token};
use lr_counter::add;
use lr_hold::take;
use lr_keys::{KeySpace, ValueKind};
use lr_limits::LAST_TOKEN;
use lr_names::Owner;
use lr_objects::Reply;
use lr_text::Brief;
use std::alloc::Global;

// Takes what is held, which only its owner can. The token stays.
fn take_again(
    alloc: Global,
    keys: &mut KeySpace,
    hash: &Brief,
    counter: &Brief,
    owner: &Owner,
    lease: u64,
) -> Reply
    requires lease { IsTrue (is_lease lease) }
    requires apart { hash.now ≢ counter.now }
    requires held { IsSome (entry_at keys.old hash.now) }
    ensures step { IsTake keys.old keys.new hash.now counter.now owner.now lease result }
    ensures others { ChangesOnlyTwo hash.now counter.now keys.old keys.new }
    ensures moment { keys.new.moment ≡ keys.old.moment }
{
    let last = last_token(keys, counter);
    with_token(last, take(alloc, keys, hash, owner, lease))
}

// Takes what nobody holds, with the next token, as long as there is one.
fn take_next(
    alloc: Global,
    keys: &mut KeySpace,
    hash: &Brief,
    counter: &Brief,
    owner: &Owner,
    lease: u64,
) -> Reply
    requires lease { IsTrue (is_lease lease) }
    requires apart { hash.now ≢ counter.now }
    requires free { entry_at keys.old hash.now ≡ None }
    requires memory { IsPrepared keys.old hash.now ValueKind.Hash (owner_text owner.now) }
    ensures step { (entry_at keys.old counter.now ≡ None
        → IsPrepared keys.old counter.now ValueKind.Counter [])
        → IsTake keys.old keys.new hash.now counter.now owner.now lease result }
    ensures others { ChangesOnlyTwo hash.now counter.now keys.old keys.new }
    ensures moment { keys.new.moment ≡ keys.old.moment }
{
    let last = last_token(keys, counter);
    if last == LAST_TOKEN {
        return Reply::TokensSpent;
    }
    add(keys, counter, 1);
    with_token(last + 1, take(alloc, keys, hash, owner, lease))
}

/// Takes the lock of these two keys. Where nobody holds it, memory for its hash was taken, and for
/// its counter too, where that isn't there.
pub(crate) fn take_lock(
    alloc: Global,
    keys: &mut KeySpace,
    hash: &Brief,
    counter: &Brief,
    owner: &Owner,
    lease: u64,
) -> Reply
    requires lease { IsTrue (is_lease lease) }
    requires apart { hash.now ≢ counter.now }
    requires memory { entry_at keys.old hash.now ≡ None
        → IsPrepared keys.old hash.now ValueKind.Hash (owner_text owner.now) }
    ensures step { (entry_at keys.old counter.now ≡ None
        → IsPrepared keys.old counter.now ValueKind.Counter [])
        → IsTake keys.old keys.new hash.now counter.now owner.now lease result }
    ensures others { ChangesOnlyTwo hash.now counter.now keys.old keys.new }
    ensures moment { keys.new.moment ≡ keys.old.moment }
{
    if keys.exists(hash) {
        return take_again(alloc, keys, hash, counter, owner, lease);
    }
    take_next(alloc, keys, hash, counter, owner, lease)
}
