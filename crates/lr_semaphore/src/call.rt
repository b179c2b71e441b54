//! The call of a function of a semaphore.
ghost use Rattle.std.specs.Prelude.{◌≡◌, ◌≤◌, ℕ, [], Option, None, max, false, IsTrue, IsOk, IfOk, OnOk, OnErr};
ghost use Rattle.lr_names.specs.Key.{key_text, keys_of};
ghost use Rattle.lr_names.specs.Name.{IsName};
ghost use Rattle.lr_keys.specs.KeySpace.{ChangesOnly, IsPrepared, OthersAreLive, StaysSame, entry_at, live_entry, plan_at};
ghost use Rattle.lr_limits.specs.Limits.{amount_limit, last_moment};
ghost use Rattle.lr_model.specs.Answer.{Objects, answer, reply_of, objects_after, post_of};
ghost use Rattle.lr_model.specs.Semaphore.{semaphore_call};
ghost use Rattle.lr_counter.specs.Numbers.{IsNumberAt, number_entry_of};
ghost use Rattle.lr_counter.specs.Run.{IsNumberRun};
ghost use Rattle.lr_counter.specs.Step.{IsNumberStep};
ghost use Rattle.lr_semaphore.specs.Run.{makes_key, semaphore_op};
ghost use Rattle.lr_semaphore.specs.Stands.{SemaphoresStand};

use crate::functions::{sem_count, sem_release, sem_set, sem_try};
use lr_counter::make_room;
use lr_keys::{KeySpace, ValueKind};
use lr_names::{Kind, Name, Part, Post, key};
use lr_objects::{Reply, SemaphoreCall};
use lr_text::Brief;
use std::alloc::{AllocError, Global};

// Takes the memory of the key, for a call that makes it where it isn't there.
fn take_memory(
    alloc: Global,
    keys: &mut KeySpace,
    key: &Brief,
    call: &SemaphoreCall,
) -> Result<(), AllocError>
    ensures room { OnOk result (IsTrue (makes_key call.now (entry_at keys.old key.now))
        → IsPrepared keys.new key.now ValueKind.Counter []) }
    ensures stays { StaysSame keys.old keys.new }
    ensures succeeds { (moment : ℕ)
        → makes_key call.now (live_entry moment (entry_at keys.old key.now)) ≡ false → IsOk result }
    ensures err { OnErr result (keys.new ≡ keys.old) }
{
    match call {
        SemaphoreCall::Set { .. } | SemaphoreCall::Release { .. } => make_room(alloc, keys, key),
        _ => Ok(()),
    }
}

// The step of a function on the number, at the moment of the keys.
fn step(
    keys: &mut KeySpace,
    key: &Brief,
    name: &Name,
    call: &SemaphoreCall,
) -> (Reply, Option<Post>)
    ensures step { (semaphore : Option ℕ)
        → IsNumberAt amount_limit (entry_at keys.old key.now) semaphore
        → (IsTrue (makes_key call.now (number_entry_of semaphore))
        → IsPrepared keys.old key.now ValueKind.Counter [])
        → IsNumberStep (λ s. s) amount_limit keys.new key.now result
        (semaphore_call name.now call.now semaphore) }
    ensures others { ChangesOnly key.now keys.old keys.new }
    ensures moment { keys.new.moment ≡ keys.old.moment }
{
    match call {
        SemaphoreCall::Set { number } => sem_set(keys, key, name, number),
        SemaphoreCall::Try { number } => sem_try(keys, key, number),
        SemaphoreCall::Release { number } => sem_release(keys, key, name, number),
        SemaphoreCall::Count => sem_count(keys, key),
    }
}

// The answer of a function at a moment, with its change of the keys.
fn answer(
    alloc: Global,
    keys: &mut KeySpace,
    moment: u64,
    name: &Name,
    call: &SemaphoreCall,
) -> Result<(Reply, Option<Post>), AllocError>
    requires name { IsName name.now }
    requires early { moment ≤ last_moment }
    ensures run { let m = max keys.old.moment moment in IfOk result (λ r.
        IsNumberRun SemaphoresStand keys.old keys.new m
        (key_text Part.Semaphore name.now) r
        (λ objects. answer objects m (semaphore_op name.now call.now))) }
    ensures succeeds { let m = max keys.old.moment moment in
        let key = key_text Part.Semaphore name.now in
        makes_key call.now (live_entry m (entry_at keys.old key)) ≡ false → IsOk result }
    ensures err { OnErr result (keys.new ≡ keys.old) }
{
    let key = key(Part::Semaphore, name);
    take_memory(alloc, keys, &key, call)?;
    keys.advance(moment);
    Ok(step(keys, &key, name, call))
}

/// Runs a function of a semaphore, as one step at a moment in milliseconds, or at that of the keys
/// where that is later.
///
/// Where the keys stand for the semaphores of some objects, the reply and the message are what the
/// function gives for these, and afterwards the keys stand for what it makes of them. All keys of
/// other objects hold what is live of them. Memory that was prepared is given up.
///
/// Only a call that makes the semaphore's key takes memory: where its number isn't set, to set it
/// or to give permits. After an error nothing has changed: the moment and the keys are as before.
pub fn run(
    alloc: Global,
    keys: &mut KeySpace,
    moment: u64,
    name: &Name,
    call: &SemaphoreCall,
) -> Result<(Reply, Option<Post>), AllocError>
    requires early { moment ≤ last_moment }
    ensures reply { let m = max keys.old.moment moment in IfOk result (λ r.
        (objects : Objects) → SemaphoresStand keys.old objects
        → r.0 ≡ reply_of objects m (semaphore_op name.now call.now)) }
    ensures post { let m = max keys.old.moment moment in IfOk result (λ r.
        (objects : Objects) → SemaphoresStand keys.old objects
        → r.1 ≡ post_of objects m (semaphore_op name.now call.now)) }
    ensures stands { let m = max keys.old.moment moment in
        OnOk result ((objects : Objects) → SemaphoresStand keys.old objects
        → SemaphoresStand keys.new (objects_after objects m (semaphore_op name.now call.now))) }
    ensures frame { OnOk result
        (OthersAreLive (keys_of Kind.Semaphore name.now) keys.old keys.new) }
    ensures moment { OnOk result (keys.new.moment ≡ max keys.old.moment moment) }
    ensures settled { OnOk result (plan_at keys.new ≡ (λ _. None)) }
    ensures succeeds { let m = max keys.old.moment moment in
        let key = key_text Part.Semaphore name.now in
        makes_key call.now (live_entry m (entry_at keys.old key)) ≡ false → IsOk result }
    ensures err { OnErr result (keys.new ≡ keys.old) }
{
    // What the type of the name says of it.
    let _text = name.as_slice();
    let answer = answer(alloc, keys, moment, name, call)?;
    keys.settle();
    Ok(answer)
}
