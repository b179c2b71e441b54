//! The steps on what is held under a key, at the moment of the keys.
ghost use Rattle.std.specs.Prelude.{◌≡◌, ◌+◌, ℕ, ℤ, ◌+ℤ◌, Option, None, Some, IsTrue};
ghost use Rattle.lr_keys.specs.FieldMap.{is_i64};
ghost use Rattle.lr_keys.specs.KeySpace.{ChangesOnly, IsPrepared, entry_at};
ghost use Rattle.lr_keys.specs.Table.{with_key};
ghost use Rattle.lr_model.specs.declared.hold.Hold.{Hold};
ghost use Rattle.lr_model.specs.Hold.{take_hold, give_back_hold, renew_hold, end_hold};
ghost use Rattle.lr_model.specs.Moment.{is_lease};
ghost use Rattle.lr_names.specs.Owner.{owner_text};
ghost use Rattle.lr_names.specs.declared.post.Post.{Post};
ghost use Rattle.lr_hold.specs.Step.{IsHeld, IsHoldStep, one_field};

use crate::hold::{hold_count, remaining};
use lr_keys::{KeySpace, ValueKind};
use lr_limits::MOST_HOLDS;
use lr_names::Owner;
use lr_objects::Reply;
use lr_text::Brief;
use std::alloc::Global;

// Adds to the owner's hold count, and lets the key last for this lease from now on.
fn add(alloc: Global, keys: &mut KeySpace, key: &Brief, owner: &Brief, by: i64, lease: u64)
    requires lease { IsTrue (is_lease lease) }
    ensures made { IsPrepared keys.old key.now ValueKind.Hash owner.now
        → entry_at keys.old key.now ≡ None
        → entry_at keys.new key.now
        ≡ Some (one_field owner.now by (Some (keys.old.moment + lease))) }
    ensures added { (count : ℤ) (expiry : Option ℕ)
        → entry_at keys.old key.now ≡ Some (one_field owner.now count expiry)
        → IsTrue (is_i64 (count +ℤ by))
        → entry_at keys.new key.now
        ≡ Some (one_field owner.now (count +ℤ by) (Some (keys.old.moment + lease))) }
    ensures others { ChangesOnly key.now keys.old keys.new }
    ensures moment { keys.new.moment ≡ keys.old.moment }
{
    // It can't fail: the field is there, or it was prepared.
    let _count = keys.hincrby(alloc, key, owner, by);
    keys.pexpire(key, lease);
}

/// Takes what nobody holds, or takes it once more, for this lease from now on.
pub fn take(alloc: Global, keys: &mut KeySpace, key: &Brief, owner: &Owner, lease: u64) -> Reply
    requires lease { IsTrue (is_lease lease) }
    requires memory { entry_at keys.old key.now ≡ None
        → IsPrepared keys.old key.now ValueKind.Hash (owner_text owner.now) }
    ensures step { (held : Option Hold) → IsHeld keys.old.moment (entry_at keys.old key.now) held
        → IsHoldStep keys.new key.now result (take_hold keys.old.moment owner.now lease held) }
    ensures others { ChangesOnly key.now keys.old keys.new }
    ensures moment { keys.new.moment ≡ keys.old.moment }
{
    let count = hold_count(keys, key, owner);
    if count >= MOST_HOLDS {
        return Reply::TooDeep;
    }
    if count == 0 && keys.exists(key) {
        return Reply::Busy(remaining(keys, key));
    }
    add(alloc, keys, key, &owner.brief(), 1, lease);
    Reply::Granted
}

/// Gives one hold back. What stays held lasts for the rest lease from now on.
pub fn give_back(alloc: Global, keys: &mut KeySpace, key: &Brief, owner: &Owner, rest: u64) -> Reply
    requires lease { IsTrue (is_lease rest) }
    ensures step { (post : Option Post) (held : Option Hold)
        → IsHeld keys.old.moment (entry_at keys.old key.now) held
        → IsHoldStep keys.new key.now result
        (give_back_hold post keys.old.moment owner.now rest held) }
    ensures others { ChangesOnly key.now keys.old keys.new }
    ensures moment { keys.new.moment ≡ keys.old.moment }
{
    let count = hold_count(keys, key, owner);
    if count == 0 {
        return Reply::NotHeld;
    }
    if count == 1 {
        keys.del(key);
        return Reply::Freed;
    }
    add(alloc, keys, key, &owner.brief(), -1, rest);
    Reply::Kept
}

/// Lets what the owner holds last for this lease from now on.
pub fn renew(keys: &mut KeySpace, key: &Brief, owner: &Owner, lease: u64) -> Reply
    requires lease { IsTrue (is_lease lease) }
    ensures step { (held : Option Hold) → IsHeld keys.old.moment (entry_at keys.old key.now) held
        → IsHoldStep keys.new key.now result (renew_hold keys.old.moment owner.now lease held) }
    ensures others { ChangesOnly key.now keys.old keys.new }
    ensures moment { keys.new.moment ≡ keys.old.moment }
{
    if hold_count(keys, key, owner) == 0 {
        return Reply::Lost;
    }
    keys.pexpire(key, lease);
    Reply::Renewed
}

/// Takes what is held away from whoever holds it.
pub fn end(keys: &mut KeySpace, key: &Brief) -> Reply
    ensures step { (post : Option Post) (held : Option Hold)
        → IsHeld keys.old.moment (entry_at keys.old key.now) held
        → IsHoldStep keys.new key.now result (end_hold post held) }
    ensures others { ChangesOnly key.now keys.old keys.new }
    ensures moment { keys.new.moment ≡ keys.old.moment }
{
    if keys.del(key) {
        return Reply::Freed;
    }
    Reply::NotHeld
}
