//! The steps on the number under a key.
ghost use Rattle.std.specs.Prelude.{◌≡◌, ◌≤◌, ◌<◌, ◌+◌, ◌-◌, ◌^◌, ℕ, [], Option, None, Some, unwrap_or};
ghost use Rattle.lr_keys.specs.KeySpace.{ChangesOnly, IsPrepared, entry_at};
ghost use Rattle.lr_counter.specs.Numbers.{number_entry, number_entry_of};
ghost use Rattle.lr_counter.specs.Step.{KeepsPlans};

use lr_keys::{KeySpace, ValueKind};
use lr_text::Brief;

/// Adds to the number under the key. A key that isn't there counts as 0, and its memory was taken by
/// [`make_room`](crate::make_room). The sum stays below 2 to the 63rd.
pub fn add(keys: &mut KeySpace, key: &Brief, by: u64)
    requires { by < 2 ^ 63 }
    ensures added { (number : Option ℕ) → entry_at keys.old key.now ≡ number_entry_of number
        → (number ≡ None → IsPrepared keys.old key.now ValueKind.Counter [])
        → unwrap_or number 0 + by < 2 ^ 63
        → entry_at keys.new key.now ≡ Some (number_entry (unwrap_or number 0 + by)) }
    ensures others { ChangesOnly key.now keys.old keys.new }
    ensures plans { KeepsPlans key.now keys.old keys.new }
    ensures moment { keys.new.moment ≡ keys.old.moment }
{
    let _sum = keys.incrby(key, by as i64);
}

/// Takes away from the number under the key, which is there and has so much.
pub fn subtract(keys: &mut KeySpace, key: &Brief, by: u64)
    requires { by < 2 ^ 63 }
    ensures subtracted { (number : ℕ) → entry_at keys.old key.now ≡ Some (number_entry number)
        → by ≤ number → number < 2 ^ 63
        → entry_at keys.new key.now ≡ Some (number_entry (number - by)) }
    ensures others { ChangesOnly key.now keys.old keys.new }
    ensures plans { KeepsPlans key.now keys.old keys.new }
    ensures moment { keys.new.moment ≡ keys.old.moment }
{
    let _rest = keys.incrby(key, -(by as i64));
}
