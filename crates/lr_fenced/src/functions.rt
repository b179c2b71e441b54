//! The functions of a fenced lock, each one step at a moment.
ghost use Rattle.std.specs.Prelude.{◌≡◌, ◌≢◌, ◌≤◌, [], None, max, is_none, is_some, ◌&&◌, ◌||◌, false, IsTrue, IsOk, IfOk, OnOk, OnErr};
ghost use Rattle.lr_names.specs.Key.{key_text};
ghost use Rattle.lr_names.specs.Name.{IsName};
ghost use Rattle.lr_names.specs.Owner.{owner_text};
ghost use Rattle.lr_keys.specs.KeySpace.{IsPrepared, StaysSame, entry_at, live_entry};
ghost use Rattle.lr_limits.specs.Limits.{last_moment};
ghost use Rattle.lr_model.specs.Fenced.{fenced_try, fenced_unlock, fenced_renew, fenced_token};
ghost use Rattle.lr_model.specs.Moment.{is_lease};
ghost use Rattle.lr_fenced.specs.Run.{IsRun, on_fenced_lock};

use crate::take::take_lock;
use crate::token::last_token;
use lr_hold::{give_back, is_lease, renew};
use lr_keys::{KeySpace, ValueKind};
use lr_names::{Name, Owner, Part, key};
use lr_objects::{Integer, Reply};
use lr_text::Brief;
use std::alloc::{AllocError, Global};

// Takes the memory of both keys, each unless it is there: the hash at the moment, and the counter,
// which never goes. An error leaves the moment and the keys as they were.
fn make_rooms(
    alloc: Global,
    keys: &mut KeySpace,
    moment: u64,
    hash: &Brief,
    counter: &Brief,
    owner: &Owner,
) -> Result<(), AllocError>
    requires early { moment ≤ last_moment }
    requires apart { hash.now ≢ counter.now }
    ensures hash { let m = max keys.old.moment moment in
        OnOk result (live_entry m (entry_at keys.old hash.now) ≡ None
        → IsPrepared keys.new hash.now ValueKind.Hash (owner_text owner.now)) }
    ensures counter { OnOk result (entry_at keys.old counter.now ≡ None
        → IsPrepared keys.new counter.now ValueKind.Counter []) }
    ensures same { StaysSame keys.old keys.new }
    ensures there { let m = max keys.old.moment moment in
        is_none (live_entry m (entry_at keys.old hash.now))
        || is_none (entry_at keys.old counter.now) ≡ false → IsOk result }
{
    lr_hold::make_room(alloc, keys, moment, hash, owner)?;
    lr_counter::make_room(alloc, keys, counter)
}

/// Takes the lock. Where a key of it isn't there, its memory is taken before the moment goes on.
pub(crate) fn fenced_try(
    alloc: Global,
    keys: &mut KeySpace,
    moment: u64,
    name: &Name,
    owner: &Owner,
    lease: u64,
) -> Result<Reply, AllocError>
    requires name { IsName name.now }
    requires early { moment ≤ last_moment }
    ensures run { let m = max keys.old.moment moment in IfOk result (λ reply.
        IsRun keys.old keys.new m name.now reply
        (λ objects. on_fenced_lock objects name.now (fenced_try m owner.now lease))) }
    ensures succeeds { let m = max keys.old.moment moment in
        let hash = live_entry m (entry_at keys.old (key_text Part.Fenced name.now)) in
        let counter = entry_at keys.old (key_text Part.Token name.now) in
        is_lease lease && (is_none hash || is_none counter) ≡ false → IsOk result }
    ensures err { OnErr result (StaysSame keys.old keys.new) }
{
    if !is_lease(lease) {
        keys.advance(moment);
        return Ok(Reply::BadLease);
    }
    let hash = key(Part::Fenced, name);
    let counter = key(Part::Token, name);
    make_rooms(alloc, keys, moment, &hash, &counter, owner)?;
    keys.advance(moment);
    Ok(take_lock(alloc, keys, &hash, &counter, owner, lease))
}

/// Gives one hold back.
pub(crate) fn fenced_unlock(
    alloc: Global,
    keys: &mut KeySpace,
    moment: u64,
    name: &Name,
    owner: &Owner,
    rest: u64,
) -> Reply
    requires name { IsName name.now }
    requires early { moment ≤ last_moment }
    ensures { let m = max keys.old.moment moment in IsRun keys.old keys.new m name.now result
        (λ objects. on_fenced_lock objects name.now (fenced_unlock name.now m owner.now rest)) }
{
    keys.advance(moment);
    if !is_lease(rest) {
        return Reply::BadLease;
    }
    give_back(alloc, keys, &key(Part::Fenced, name), owner, rest)
}

/// Renews the lease of a hold.
pub(crate) fn fenced_renew(
    keys: &mut KeySpace,
    moment: u64,
    name: &Name,
    owner: &Owner,
    lease: u64,
) -> Reply
    requires name { IsName name.now }
    requires early { moment ≤ last_moment }
    ensures { let m = max keys.old.moment moment in IsRun keys.old keys.new m name.now result
        (λ objects. on_fenced_lock objects name.now (fenced_renew m owner.now lease)) }
{
    keys.advance(moment);
    if !is_lease(lease) {
        return Reply::BadLease;
    }
    renew(keys, &key(Part::Fenced, name), owner, lease)
}

/// Tells the last token.
pub(crate) fn fenced_token(keys: &mut KeySpace, moment: u64, name: &Name) -> Reply
    requires name { IsName name.now }
    requires early { moment ≤ last_moment }
    ensures { let m = max keys.old.moment moment in IsRun keys.old keys.new m name.now result
        (λ objects. on_fenced_lock objects name.now fenced_token) }
{
    keys.advance(moment);
    Reply::Count(Integer::new(last_token(keys, &key(Part::Token, name))))
}
