//! What the key of a hold says at the moment of the keys.
ghost use Rattle.std.specs.Prelude.{◌≡◌, ◌≤◌, ◌-◌, Option, Some};
ghost use Rattle.lr_keys.specs.KeySpace.{entry_at};
ghost use Rattle.lr_limits.specs.Limits.{last_moment};
ghost use Rattle.lr_model.specs.declared.hold.Hold.{Hold};
ghost use Rattle.lr_names.specs.Owner.{IsOwner};
ghost use Rattle.lr_hold.specs.Step.{IsHeld, hold_count};

use lr_keys::KeySpace;
use lr_limits::NEVER;
use lr_names::Owner;
use lr_objects::Remaining;
use lr_text::Brief;

/// How many times the owner holds what is held under the key.
pub fn hold_count(keys: &KeySpace, key: &Brief, owner: &Owner) -> u64
    ensures count { (held : Option Hold) → IsHeld keys.now.moment (entry_at keys.now key.now) held
        → result ≡ hold_count owner.now held }
    ensures owner { IsOwner owner.now }
    ensures early { keys.now.moment ≤ last_moment }
{
    let _moment = keys.moment();
    match keys.hget(key, &owner.brief()) {
        Ok(Some(count)) => count.max(0) as u64,
        _ => 0,
    }
}

/// How long what is held under the key stays so, in milliseconds: until [`NEVER`], where the key has
/// no expiry.
pub fn remaining(keys: &KeySpace, key: &Brief) -> Remaining
    ensures { (hold : Hold) → IsHeld keys.now.moment (entry_at keys.now key.now) (Some hold)
        → result ≡ hold.deadline - keys.now.moment }
{
    let left = keys.pttl(key);
    if left > 0 {
        return Remaining::new(left as u64);
    }
    Remaining::new(NEVER - keys.moment())
}
