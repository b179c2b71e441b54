//! The functions of a semaphore, each one step on its number.
ghost use Rattle.std.specs.Prelude.{◌≡◌, ℕ, [], Option, None, Some};
ghost use Rattle.lr_keys.specs.KeySpace.{ChangesOnly, IsPrepared, entry_at};
ghost use Rattle.lr_limits.specs.Limits.{amount_limit};
ghost use Rattle.lr_model.specs.Semaphore.{semaphore_post, sem_set, sem_try, sem_release, sem_count};
ghost use Rattle.lr_counter.specs.Numbers.{IsNumberAt};
ghost use Rattle.lr_counter.specs.Step.{IsNumberStep};

use lr_counter::{add, count_at, number_at, subtract};
use lr_keys::{KeySpace, ValueKind};
use lr_limits::MOST_AMOUNT;
use lr_names::{Channel, Kind, Name, Post};
use lr_objects::{Amount, Integer, Reply};
use lr_text::Brief;

// The message to those who wait for permits.
fn post(name: &Name) -> Option<Post>
    ensures { result ≡ Some (semaphore_post name.now) }
{
    Some(Post::to(Channel::of(Kind::Semaphore, name)))
}

/// Sets the number of permits, where none is set.
pub(crate) fn sem_set(
    keys: &mut KeySpace,
    key: &Brief,
    name: &Name,
    number: &Amount,
) -> (Reply, Option<Post>)
    ensures step { (semaphore : Option ℕ)
        → IsNumberAt amount_limit (entry_at keys.old key.now) semaphore
        → (semaphore ≡ None → IsPrepared keys.old key.now ValueKind.Counter [])
        → IsNumberStep (λ s. s) amount_limit keys.new key.now result
        (sem_set name.now number.now semaphore) }
    ensures others { ChangesOnly key.now keys.old keys.new }
    ensures moment { keys.new.moment ≡ keys.old.moment }
{
    if number_at(keys, key).is_some() {
        return (Reply::AlreadySet, None);
    }
    add(keys, key, number.number());
    (Reply::Set, post(name))
}

/// Takes so many permits, or none.
pub(crate) fn sem_try(keys: &mut KeySpace, key: &Brief, number: &Amount) -> (Reply, Option<Post>)
    ensures step { (semaphore : Option ℕ)
        → IsNumberAt amount_limit (entry_at keys.old key.now) semaphore
        → IsNumberStep (λ s. s) amount_limit keys.new key.now result
        (sem_try number.now semaphore) }
    ensures others { ChangesOnly key.now keys.old keys.new }
    ensures moment { keys.new.moment ≡ keys.old.moment }
{
    let number = number.number();
    if count_at(keys, key) < number {
        return (Reply::Short, None);
    }
    subtract(keys, key, number);
    (Reply::Granted, None)
}

/// Gives so many permits, unless there would be too many.
pub(crate) fn sem_release(
    keys: &mut KeySpace,
    key: &Brief,
    name: &Name,
    number: &Amount,
) -> (Reply, Option<Post>)
    ensures step { (semaphore : Option ℕ)
        → IsNumberAt amount_limit (entry_at keys.old key.now) semaphore
        → (semaphore ≡ None → IsPrepared keys.old key.now ValueKind.Counter [])
        → IsNumberStep (λ s. s) amount_limit keys.new key.now result
        (sem_release name.now number.now semaphore) }
    ensures others { ChangesOnly key.now keys.old keys.new }
    ensures moment { keys.new.moment ≡ keys.old.moment }
{
    let free = count_at(keys, key) + number.number();
    if free > MOST_AMOUNT {
        return (Reply::TooMany, None);
    }
    add(keys, key, number.number());
    (Reply::Count(Integer::new(free)), post(name))
}

/// Tells how many permits are free.
pub(crate) fn sem_count(keys: &KeySpace, key: &Brief) -> (Reply, Option<Post>)
    ensures { (semaphore : Option ℕ)
        → IsNumberAt amount_limit (entry_at keys.now key.now) semaphore
        → IsNumberStep (λ s. s) amount_limit keys.now key.now result (sem_count semaphore) }
{
    (Reply::Count(Integer::new(count_at(keys, key))), None)
}
