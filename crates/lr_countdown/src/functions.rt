//! The functions of a countdown latch, each one step on its count.
ghost use Rattle.std.specs.Prelude.{◌≡◌, ◌<◌, ◌^◌, ℕ, [], Option, None, Some};
ghost use Rattle.lr_keys.specs.KeySpace.{ChangesOnly, IsPrepared, entry_at};
ghost use Rattle.lr_limits.specs.Limits.{amount_limit};
ghost use Rattle.lr_model.specs.Countdown.{latch_post, latch_set, latch_down, latch_count};
ghost use Rattle.lr_objects.specs.declared.reply.Reply.TheVariants.{Count};
ghost use Rattle.lr_counter.specs.Numbers.{IsNumberAt, some_unless_zero};
ghost use Rattle.lr_counter.specs.Step.{IsNumberStep};

use lr_counter::{add, count_at, subtract};
use lr_keys::{KeySpace, ValueKind};
use lr_names::{Channel, Kind, Name, Post};
use lr_objects::{Amount, Integer, Reply};
use lr_text::Brief;

// The message to those who wait for the latch.
fn post(name: &Name) -> Option<Post>
    ensures { result ≡ Some (latch_post name.now) }
{
    Some(Post::to(Channel::of(Kind::Countdown, name)))
}

// The reply that tells a count.
fn counted(count: u64) -> Reply
    requires { count < 2 ^ 63 }
    ensures { result ≡ Count count }
{
    Reply::Count(Integer::new(count))
}

/// Sets the count of a latch that is at 0.
pub(crate) fn latch_set(keys: &mut KeySpace, key: &Brief, number: &Amount) -> (Reply, Option<Post>)
    ensures step { (count : ℕ)
        → IsNumberAt amount_limit (entry_at keys.old key.now) (some_unless_zero count)
        → (count ≡ 0 → IsPrepared keys.old key.now ValueKind.Counter [])
        → IsNumberStep some_unless_zero amount_limit keys.new key.now result
        (latch_set number.now count) }
    ensures others { ChangesOnly key.now keys.old keys.new }
    ensures moment { keys.new.moment ≡ keys.old.moment }
{
    if count_at(keys, key) > 0 {
        return (Reply::AlreadySet, None);
    }
    add(keys, key, number.number());
    (Reply::Set, None)
}

/// Counts a latch down by one, unless it is at 0. At 0 the key goes.
pub(crate) fn latch_down(keys: &mut KeySpace, key: &Brief, name: &Name) -> (Reply, Option<Post>)
    ensures step { (count : ℕ)
        → IsNumberAt amount_limit (entry_at keys.old key.now) (some_unless_zero count)
        → IsNumberStep some_unless_zero amount_limit keys.new key.now result
        (latch_down name.now count) }
    ensures others { ChangesOnly key.now keys.old keys.new }
    ensures moment { keys.new.moment ≡ keys.old.moment }
{
    let count = count_at(keys, key);
    if count == 0 {
        return (counted(0), None);
    }
    if count == 1 {
        keys.del(key);
        return (counted(0), post(name));
    }
    subtract(keys, key, 1);
    (counted(count - 1), None)
}

/// Tells the count.
pub(crate) fn latch_count(keys: &KeySpace, key: &Brief) -> (Reply, Option<Post>)
    ensures { (count : ℕ)
        → IsNumberAt amount_limit (entry_at keys.now key.now) (some_unless_zero count)
        → IsNumberStep some_unless_zero amount_limit keys.now key.now result (latch_count count) }
{
    (counted(count_at(keys, key)), None)
}
