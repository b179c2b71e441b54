//! The call of a function of a fair lock.
ghost use Rattle.std.specs.Prelude.{◌≡◌, ◌≤◌, None, max, false, IsOk, IfOk, OnOk, OnErr};
ghost use Rattle.lr_names.specs.Key.{key_text, keys_of};
ghost use Rattle.lr_names.specs.Name.{IsName};
ghost use Rattle.lr_keys.specs.KeySpace.{OthersAreLive, StaysSame, entry_at, live_entry, plan_at};
ghost use Rattle.lr_limits.specs.Limits.{last_moment};
ghost use Rattle.lr_model.specs.Answer.{Objects, reply_of, objects_after, post_of};
ghost use Rattle.lr_model.specs.Fair.{fair_call};
ghost use Rattle.lr_fair.specs.Run.{IsRun, fair_op, takes_memory};
ghost use Rattle.lr_fair.specs.Stands.{FairLocksStand};

use crate::functions::{fair_leave, fair_renew, fair_try, fair_unlock};
use lr_keys::KeySpace;
use lr_names::{Kind, Name, Part, Post};
use lr_objects::{FairCall, Reply};
use std::alloc::{AllocError, Global};

// The answer of a function, with its change of the keys.
fn answer(
    alloc: Global,
    keys: &mut KeySpace,
    moment: u64,
    name: &Name,
    call: &FairCall,
) -> Result<(Reply, Option<Post>), AllocError>
    requires name { IsName name.now }
    requires early { moment ≤ last_moment }
    ensures run { let m = max keys.old.moment moment in IfOk result (λ r.
        IsRun keys.old keys.new m name.now r (fair_call name.now m call.now)) }
    ensures succeeds { let m = max keys.old.moment moment in
        let hold = live_entry m (entry_at keys.old (key_text Part.Fair name.now)) in
        let stales = entry_at keys.old (key_text Part.FairStale name.now) in
        takes_memory call.now m hold stales ≡ false → IsOk result }
    ensures err { OnErr result (StaysSame keys.old keys.new) }
{
    match call {
        FairCall::Try {
            owner,
            lease,
            queue,
        } => {
            let reply = fair_try(alloc, keys, moment, name, owner, *lease, *queue)?;
            Ok((reply, None))
        }
        FairCall::Unlock { owner, rest } => {
            Ok(fair_unlock(alloc, keys, moment, name, owner, *rest))
        }
        FairCall::Leave { owner } => Ok(fair_leave(keys, moment, name, owner)),
        FairCall::Renew { owner, lease } => {
            Ok((fair_renew(keys, moment, name, owner, *lease), None))
        }
    }
}

/// Runs a function of a fair lock, as one step at a moment in milliseconds, or at that of the keys
/// where that is later. Each function but a renewal first removes the places that are stale, where
/// its lease is within the limits.
///
/// Where the keys stand for the fair locks of some objects, the reply and the message are what the
/// function gives for these, and afterwards the keys stand for what it makes of them. All keys of
/// other objects hold what is live of them.
///
/// Only a try takes memory, and only where nobody holds the lock, or where its owner asks for a
/// place and has none that lasts. After an error the moment and the keys are as before. Memory that
/// was prepared is given up in any case.
pub fn run(
    alloc: Global,
    keys: &mut KeySpace,
    moment: u64,
    name: &Name,
    call: &FairCall,
) -> Result<(Reply, Option<Post>), AllocError>
    requires early { moment ≤ last_moment }
    ensures reply { let m = max keys.old.moment moment in IfOk result (λ r.
        (objects : Objects) → FairLocksStand keys.old objects
        → r.0 ≡ reply_of objects m (fair_op name.now call.now)) }
    ensures post { let m = max keys.old.moment moment in IfOk result (λ r.
        (objects : Objects) → FairLocksStand keys.old objects
        → r.1 ≡ post_of objects m (fair_op name.now call.now)) }
    ensures stands { let m = max keys.old.moment moment in
        OnOk result ((objects : Objects) → FairLocksStand keys.old objects
        → FairLocksStand keys.new (objects_after objects m (fair_op name.now call.now))) }
    ensures frame { OnOk result (OthersAreLive (keys_of Kind.Fair name.now) keys.old keys.new) }
    ensures moment { OnOk result (keys.new.moment ≡ max keys.old.moment moment) }
    ensures settled { plan_at keys.new ≡ (λ _. None) }
    ensures succeeds { let m = max keys.old.moment moment in
        let hold = live_entry m (entry_at keys.old (key_text Part.Fair name.now)) in
        let stales = entry_at keys.old (key_text Part.FairStale name.now) in
        takes_memory call.now m hold stales ≡ false → IsOk result }
    ensures err { OnErr result (StaysSame keys.old keys.new) }
{
    // What the type of the name says of it.
    let _text = name.as_slice();
    let answered = answer(alloc, keys, moment, name, call);
    keys.settle();
    answered
}
