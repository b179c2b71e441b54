//! The call of a function of a lock.
ghost use Rattle.std.specs.Prelude.{◌≡◌, ◌≤◌, Option, None, Some, max, false, if◌then◌else◌, IsOk, IfOk, OnOk, OnErr};
ghost use Rattle.lr_names.specs.Key.{key_text, keys_of};
ghost use Rattle.lr_names.specs.Name.{IsName};
ghost use Rattle.lr_keys.specs.KeySpace.{OthersAreLive, entry_at, live_entry, plan_at};
ghost use Rattle.lr_limits.specs.Limits.{last_moment};
ghost use Rattle.lr_model.specs.Answer.{Objects, answer, reply_of, objects_after, post_of};
ghost use Rattle.lr_model.specs.Mutex.{lock_post};
ghost use Rattle.lr_hold.specs.Step.{is_freed};
ghost use Rattle.lr_mutex.specs.Run.{IsRun, lock_op, makes_key};
ghost use Rattle.lr_mutex.specs.Stands.{MutexesStand};

use crate::functions::{lock_force, lock_renew, lock_try, lock_unlock};
use lr_keys::KeySpace;
use lr_names::{Channel, Kind, Name, Part, Post};
use lr_objects::{LockCall, Reply};
use std::alloc::{AllocError, Global};

// The reply of a function, with its change of the keys.
fn answer(
    alloc: Global,
    keys: &mut KeySpace,
    moment: u64,
    name: &Name,
    call: &LockCall,
) -> Result<Reply, AllocError>
    requires name { IsName name.now }
    requires early { moment ≤ last_moment }
    ensures run { let m = max keys.old.moment moment in IfOk result (λ reply.
        IsRun keys.old keys.new m name.now reply
        (λ objects. answer objects m (lock_op name.now call.now))) }
    ensures succeeds { let m = max keys.old.moment moment in
        let key = key_text Part.Lock name.now in
        makes_key call.now (live_entry m (entry_at keys.old key)) ≡ false → IsOk result }
    ensures err { OnErr result (keys.new ≡ keys.old) }
{
    match call {
        LockCall::Try { owner, lease } => { lock_try(alloc, keys, moment, name, owner, *lease) }
        LockCall::Unlock { owner, rest } => {
            Ok(lock_unlock(alloc, keys, moment, name, owner, *rest))
        }
        LockCall::Renew { owner, lease } => Ok(lock_renew(keys, moment, name, owner, *lease)),
        LockCall::Force => Ok(lock_force(keys, moment, name)),
    }
}

// The message of a call on the lock of this name that was answered so: those who wait are told that
// the lock has come free.
fn post_after(name: &Name, reply: &Reply) -> Option<Post>
    ensures { result ≡ (if is_freed reply.now then Some (lock_post name.now) else None) }
{
    match reply {
        Reply::Freed => Some(Post::to(Channel::of(Kind::Mutex, name))),
        _ => None,
    }
}

/// Runs a function of a reentrant lock, as one step at a moment in milliseconds, or at that of the
/// keys where that is later.
///
/// Where the keys stand for the locks of some objects, the reply and the message are what the
/// function gives for these, and afterwards the keys stand for what it makes of them. All keys of
/// other objects hold what is live of them. Memory that was prepared is given up.
///
/// Only a try that makes the lock's key takes memory. After an error nothing has changed: the moment
/// and the keys are as before.
pub fn run(
    alloc: Global,
    keys: &mut KeySpace,
    moment: u64,
    name: &Name,
    call: &LockCall,
) -> Result<(Reply, Option<Post>), AllocError>
    requires early { moment ≤ last_moment }
    ensures reply { let m = max keys.old.moment moment in IfOk result (λ r.
        (objects : Objects) → MutexesStand keys.old objects
        → r.0 ≡ reply_of objects m (lock_op name.now call.now)) }
    ensures post { let m = max keys.old.moment moment in IfOk result (λ r.
        (objects : Objects) → MutexesStand keys.old objects
        → r.1 ≡ post_of objects m (lock_op name.now call.now)) }
    ensures stands { let m = max keys.old.moment moment in
        OnOk result ((objects : Objects) → MutexesStand keys.old objects
        → MutexesStand keys.new (objects_after objects m (lock_op name.now call.now))) }
    ensures frame { OnOk result
        (OthersAreLive (keys_of Kind.Mutex name.now) keys.old keys.new) }
    ensures moment { OnOk result (keys.new.moment ≡ max keys.old.moment moment) }
    ensures settled { OnOk result (plan_at keys.new ≡ (λ _. None)) }
    ensures succeeds { let m = max keys.old.moment moment in
        let key = key_text Part.Lock name.now in
        makes_key call.now (live_entry m (entry_at keys.old key)) ≡ false → IsOk result }
    ensures err { OnErr result (keys.new ≡ keys.old) }
{
    // What the type of the name says of it.
    let _text = name.as_slice();
    let reply = answer(alloc, keys, moment, name, call)?;
    keys.settle();
    let post = post_after(name, &reply);
    Ok((reply, post))
}
