//! The call of a function of expirable permits.
ghost use Rattle.std.specs.Prelude.{◌≡◌, ◌≢◌, ◌≤◌, ℕ, List, None, max, false, IsTrue, IsOk, IfOk, OnOk, OnErr};
ghost use Rattle.lr_names.specs.Key.{key_text, keys_of};
ghost use Rattle.lr_names.specs.Name.{IsName};
ghost use Rattle.lr_keys.specs.KeySpace.{OthersAreLive, StaysSame, entry_at, plan_at, score_at};
ghost use Rattle.lr_limits.specs.Limits.{last_moment};
ghost use Rattle.lr_model.specs.Answer.{Objects, reply_of, objects_after, post_of};
ghost use Rattle.lr_model.specs.Moment.{is_lease};
ghost use Rattle.lr_model.specs.Permits.{Permits, live_permits, permit_call};
ghost use Rattle.lr_expirable.specs.Run.{IsPermitRun, IsReadyFor, has_lease, is_taken, lacks, live_call, permit_op, takes_memory};
ghost use Rattle.lr_expirable.specs.Stands.{ArePermitsAt, PermitsStand};
ghost use Rattle.lr_expirable.specs.Step.{AreLive, ChangesOnlyTwo, IsPermitStep};

use crate::expired::remove_expired;
use crate::functions::{count, release, set, take};
use crate::permit_keys::PermitKeys;
use lr_counter::make_room;
use lr_keys::{KeySpace, ValueKind};
use lr_limits::LONGEST_LEASE;
use lr_names::{Kind, Name, Part, Post, id_brief};
use lr_objects::{PermitCall, Reply};
use lr_text::Brief;
use std::alloc::{AllocError, Global};

// Whether a lease that a call gives is one of 1 to 86,400,000,000 milliseconds.
fn has_lease(call: &PermitCall) -> bool
    ensures { result ≡ has_lease call.now }
{
    match call {
        PermitCall::Try { lease, .. } => (1..=LONGEST_LEASE).contains(lease),
        _ => true,
    }
}

/// Whether the lease with this text lasts beyond the moment, or beyond that of the keys where that is
/// later.
pub(crate) fn is_taken_at(keys: &KeySpace, key: &Brief, member: &Brief, moment: u64) -> bool
    ensures { let m = max keys.now.moment moment in
        result ≡ is_taken m (score_at member.now (entry_at keys.now key.now)) }
{
    match keys.zscore(key, member) {
        Ok(Some(deadline)) => deadline > keys.moment().max(moment),
        _ => false,
    }
}

// Takes the memory for what a call may make: the number where it isn't set, and the lease of an id
// that has none that will be there at the moment.
fn take_memory(
    alloc: Global,
    keys: &mut KeySpace,
    moment: u64,
    permits: &PermitKeys,
    call: &PermitCall,
) -> Result<(), AllocError>
    ensures ready { let m = max keys.old.moment moment in OnOk result ((object : Permits)
        → ArePermitsAt keys.old permits.now.number permits.now.leases object
        → IsReadyFor call.now keys.new permits.now.number permits.now.leases
        (live_permits m object)) }
    ensures same { StaysSame keys.old keys.new }
    ensures succeeds { let m = max keys.old.moment moment in
        let number = entry_at keys.old permits.now.number in
        let leases = entry_at keys.old permits.now.leases in
        lacks call.now m number leases ≡ false → IsOk result }
    ensures err { OnErr result (keys.new ≡ keys.old) }
{
    match call {
        PermitCall::Set { .. } => make_room(alloc, keys, &permits.number),
        PermitCall::Try { id, .. } => {
            let member = id_brief(id);
            if is_taken_at(keys, &permits.leases, &member, moment) {
                return Ok(());
            }
            keys.prepare(alloc, &permits.leases, ValueKind::Zset, &member)
        }
        PermitCall::Release { .. } | PermitCall::Count => Ok(()),
    }
}

// The step of a function at the moment of the keys, where all leases are live.
fn step(
    alloc: Global,
    keys: &mut KeySpace,
    permits: &PermitKeys,
    name: &Name,
    call: &PermitCall,
) -> (Reply, Option<Post>)
    requires apart { permits.now.number ≢ permits.now.leases }
    requires lease { IsTrue (has_lease call.now) }
    ensures step { (object : Permits)
        → ArePermitsAt keys.old permits.now.number permits.now.leases object
        → AreLive keys.old.moment object.leases
        → IsReadyFor call.now keys.old permits.now.number permits.now.leases object
        → IsPermitStep keys.new permits.now.number permits.now.leases result
        (live_call name.now keys.old.moment call.now object) }
    ensures others { ChangesOnlyTwo permits.now.number permits.now.leases keys.old keys.new }
    ensures moment { keys.new.moment ≡ keys.old.moment }
{
    match call {
        PermitCall::Set { number } => set(keys, permits, name, number),
        PermitCall::Try { id, lease } => (take(alloc, keys, permits, id, *lease), None),
        PermitCall::Release { id } => release(keys, permits, name, id),
        PermitCall::Count => count(keys, permits),
    }
}

// The answer of a function at a moment, with its change of the keys.
fn answer(
    alloc: Global,
    keys: &mut KeySpace,
    moment: u64,
    permits: &PermitKeys,
    name: &Name,
    call: &PermitCall,
) -> Result<(Reply, Option<Post>), AllocError>
    requires apart { permits.now.number ≢ permits.now.leases }
    requires early { moment ≤ last_moment }
    ensures run { let m = max keys.old.moment moment in IfOk result (λ r.
        IsPermitRun keys.old keys.new permits.now.number permits.now.leases m r
        (permit_call name.now m call.now)) }
    ensures succeeds { let m = max keys.old.moment moment in
        let number = entry_at keys.old permits.now.number in
        let leases = entry_at keys.old permits.now.leases in
        takes_memory call.now m number leases ≡ false → IsOk result }
    ensures err { OnErr result (keys.new ≡ keys.old) }
{
    if !has_lease(call) {
        keys.advance(moment);
        return Ok((Reply::BadLease, None));
    }
    take_memory(alloc, keys, moment, permits, call)?;
    keys.advance(moment);
    remove_expired(keys, &permits.leases);
    Ok(step(alloc, keys, permits, name, call))
}

/// Runs a function of expirable permits, as one step at a moment in milliseconds, or at that of the
/// keys where that is later. It first removes the leases that have run out.
///
/// Where the keys stand for the permits of some objects, the reply and the message are what the
/// function gives for these, and afterwards the keys stand for what it makes of them. All keys of
/// other objects hold what is live of them. Memory that was prepared is given up.
///
/// Only a call that may make something takes memory: where the number isn't set, to set it, and
/// where an id has no permit that lasts, to take one. After an error nothing has changed: the
/// moment and the keys are as before.
pub fn run(
    alloc: Global,
    keys: &mut KeySpace,
    moment: u64,
    name: &Name,
    call: &PermitCall,
) -> Result<(Reply, Option<Post>), AllocError>
    requires early { moment ≤ last_moment }
    ensures reply { let m = max keys.old.moment moment in IfOk result (λ r.
        (objects : Objects) → PermitsStand keys.old objects
        → r.0 ≡ reply_of objects m (permit_op name.now call.now)) }
    ensures post { let m = max keys.old.moment moment in IfOk result (λ r.
        (objects : Objects) → PermitsStand keys.old objects
        → r.1 ≡ post_of objects m (permit_op name.now call.now)) }
    ensures stands { let m = max keys.old.moment moment in
        OnOk result ((objects : Objects) → PermitsStand keys.old objects
        → PermitsStand keys.new (objects_after objects m (permit_op name.now call.now))) }
    ensures frame { OnOk result
        (OthersAreLive (keys_of Kind.Permits name.now) keys.old keys.new) }
    ensures moment { OnOk result (keys.new.moment ≡ max keys.old.moment moment) }
    ensures settled { OnOk result (plan_at keys.new ≡ (λ _. None)) }
    ensures succeeds { let m = max keys.old.moment moment in
        let number = entry_at keys.old (key_text Part.Permits name.now) in
        let leases = entry_at keys.old (key_text Part.PermitLeases name.now) in
        takes_memory call.now m number leases ≡ false → IsOk result }
    ensures err { OnErr result (keys.new ≡ keys.old) }
{
    // What the type of the name says of it.
    let _text = name.as_slice();
    let permits = PermitKeys::of(name);
    let answer = answer(alloc, keys, moment, &permits, name, call)?;
    keys.settle();
    Ok(answer)
}
