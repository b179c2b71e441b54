//! What the key of a number says.
ghost use Rattle.std.specs.Prelude.{◌≡◌, ◌<◌, ◌^◌, ℕ, Option, unwrap_or};
ghost use Rattle.std.specs.Option.{ForSome};
ghost use Rattle.lr_keys.specs.KeySpace.{entry_at};
ghost use Rattle.lr_counter.specs.Numbers.{number_entry_of};

use lr_keys::KeySpace;
use lr_text::Brief;

/// The number under the key, if the key is there: at most 2 to the 63rd, less 1.
pub fn number_at(keys: &KeySpace, key: &Brief) -> Option<u64>
    ensures number { (number : Option ℕ)
        → entry_at keys.now key.now ≡ number_entry_of number → result ≡ number }
    ensures fits { ForSome result (λ n. n < 2 ^ 63) }
{
    match keys.get(key) {
        Ok(Some(number)) => Some(number.max(0) as u64),
        _ => None,
    }
}

/// The number under the key, and 0 where the key isn't there.
pub fn count_at(keys: &KeySpace, key: &Brief) -> u64
    ensures count { (number : Option ℕ)
        → entry_at keys.now key.now ≡ number_entry_of number → result ≡ unwrap_or number 0 }
    ensures fits { result < 2 ^ 63 }
{
    number_at(keys, key).unwrap_or(0)
}
