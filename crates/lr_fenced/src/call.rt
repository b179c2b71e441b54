//! The call of a function of a fenced lock.
ghost use Rattle.std.specs.Prelude.{◌≡◌, ◌≤◌, Option, None, Some, max, false, if◌then◌else◌, IsOk, IfOk, OnOk, OnErr};
ghost use Rattle.lr_names.specs.Key.{key_text, keys_of};
ghost use Rattle.lr_names.specs.Name.{IsName};
ghost use Rattle.lr_keys.specs.KeySpace.{OthersAreLive, StaysSame, entry_at, live_entry, plan_at};
ghost use Rattle.lr_limits.specs.Limits.{last_moment};
ghost use Rattle.lr_model.specs.Answer.{Objects, answer, reply_of, objects_after, post_of};
ghost use Rattle.lr_model.specs.Fenced.{fenced_post};
ghost use Rattle.lr_hold.specs.Step.{is_freed};
ghost use Rattle.lr_fenced.specs.Run.{IsRun, fenced_op, makes_key};
ghost use Rattle.lr_fenced.specs.Stands.{FencedLocksStand};

use crate::functions::{fenced_renew, fenced_token, fenced_try, fenced_unlock};
use lr_keys::KeySpace;
use lr_names::{Channel, Kind, Name, Part, Post};
use lr_objects::{FencedCall, Reply};
use std::alloc::{AllocError, Global};

// The reply of a function, with its change of the keys.
fn answer(
    alloc: Global,
    keys: &mut KeySpace,
    moment: u64,
    name: &Name,
    call: &FencedCall,
) -> Result<Reply, AllocError>
    requires name { IsName name.now }
    requires early { moment ≤ last_moment }
    ensures run { let m = max keys.old.moment moment in IfOk result (λ reply.
        IsRun keys.old keys.new m name.now reply
        (λ objects. answer objects m (fenced_op name.now call.now))) }
    ensures succeeds { let m = max keys.old.moment moment in
        let hash = live_entry m (entry_at keys.old (key_text Part.Fenced name.now)) in
        let counter = entry_at keys.old (key_text Part.Token name.now) in
        makes_key call.now hash counter ≡ false → IsOk result }
    ensures err { OnErr result (StaysSame keys.old keys.new) }
{
    match call {
        FencedCall::Try { owner, lease } => { fenced_try(alloc, keys, moment, name, owner, *lease) }
        FencedCall::Unlock { owner, rest } => {
            Ok(fenced_unlock(alloc, keys, moment, name, owner, *rest))
        }
        FencedCall::Renew { owner, lease } => {
            Ok(fenced_renew(keys, moment, name, owner, *lease))
        }
        FencedCall::Token => Ok(fenced_token(keys, moment, name)),
    }
}

// The message of a call on the lock of this name that was answered so: those who wait are told that
// the lock has come free.
fn post_after(name: &Name, reply: &Reply) -> Option<Post>
    ensures { result ≡ (if is_freed reply.now then Some (fenced_post name.now) else None) }
{
    match reply {
        Reply::Freed => Some(Post::to(Channel::of(Kind::Fenced, name))),
        _ => None,
    }
}

/// Runs a function of a fenced lock, as one step at a moment in milliseconds, or at that of the
/// keys where that is later.
///
/// Where the keys stand for the fenced locks of some objects, the reply and the message are what
/// the function gives for these, and afterwards the keys stand for what it makes of them. All keys
/// of other objects hold what is live of them.
///
/// Only a try that makes a key of the lock takes memory: its hash, or the counter of its tokens.
/// After an error the moment and the keys are as before. Memory that was prepared is given up in
/// any case.
pub fn run(
    alloc: Global,
    keys: &mut KeySpace,
    moment: u64,
    name: &Name,
    call: &FencedCall,
) -> Result<(Reply, Option<Post>), AllocError>
    requires early { moment ≤ last_moment }
    ensures reply { let m = max keys.old.moment moment in IfOk result (λ r.
        (objects : Objects) → FencedLocksStand keys.old objects
        → r.0 ≡ reply_of objects m (fenced_op name.now call.now)) }
    ensures post { let m = max keys.old.moment moment in IfOk result (λ r.
        (objects : Objects) → FencedLocksStand keys.old objects
        → r.1 ≡ post_of objects m (fenced_op name.now call.now)) }
    ensures stands { let m = max keys.old.moment moment in
        OnOk result ((objects : Objects) → FencedLocksStand keys.old objects
        → FencedLocksStand keys.new (objects_after objects m (fenced_op name.now call.now))) }
    ensures frame { OnOk result
        (OthersAreLive (keys_of Kind.Fenced name.now) keys.old keys.new) }
    ensures moment { OnOk result (keys.new.moment ≡ max keys.old.moment moment) }
    ensures settled { plan_at keys.new ≡ (λ _. None) }
    ensures succeeds { let m = max keys.old.moment moment in
        let hash = live_entry m (entry_at keys.old (key_text Part.Fenced name.now)) in
        let counter = entry_at keys.old (key_text Part.Token name.now) in
        makes_key call.now hash counter ≡ false → IsOk result }
    ensures err { OnErr result (StaysSame keys.old keys.new) }
{
    // What the type of the name says of it.
    let _text = name.as_slice();
    let answered = answer(alloc, keys, moment, name, call);
    keys.settle();
    let reply = answered?;
    let post = post_after(name, &reply);
    Ok((reply, post))
}
