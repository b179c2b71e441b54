//! The functions of a lock, each one step at a moment.
ghost use Rattle.std.specs.Prelude.{◌≡◌, ◌≤◌, max, is_none, ◌&&◌, false, IsOk, IfOk, OnErr};
ghost use Rattle.lr_names.specs.Key.{key_text};
ghost use Rattle.lr_names.specs.Name.{IsName};
ghost use Rattle.lr_keys.specs.KeySpace.{entry_at, live_entry};
ghost use Rattle.lr_limits.specs.Limits.{last_moment};
ghost use Rattle.lr_model.specs.Moment.{is_lease};
ghost use Rattle.lr_model.specs.Mutex.{lock_try, lock_unlock, lock_renew, lock_force};
ghost use Rattle.lr_mutex.specs.Run.{IsRun, on_mutex};

use lr_hold::{end, give_back, is_lease, make_room, renew, take};
use lr_keys::KeySpace;
use lr_names::{Name, Owner, Part, key};
use lr_objects::Reply;
use std::alloc::{AllocError, Global};

/// Takes the lock. Where nobody holds it, its memory is taken before the moment goes on.
pub(crate) fn lock_try(
    alloc: Global,
    keys: &mut KeySpace,
    moment: u64,
    name: &Name,
    owner: &Owner,
    lease: u64,
) -> Result<Reply, AllocError>
    requires name { IsName name.now }
    requires early { moment ≤ last_moment }
    ensures run { let m = max keys.old.moment moment in IfOk result (λ reply.
        IsRun keys.old keys.new m name.now reply
        (λ objects. on_mutex objects name.now (lock_try m owner.now lease))) }
    ensures succeeds { let m = max keys.old.moment moment in
        let key = key_text Part.Lock name.now in
        is_lease lease && is_none (live_entry m (entry_at keys.old key)) ≡ false → IsOk result }
    ensures err { OnErr result (keys.new ≡ keys.old) }
{
    if !is_lease(lease) {
        keys.advance(moment);
        return Ok(Reply::BadLease);
    }
    let key = key(Part::Lock, name);
    make_room(alloc, keys, moment, &key, owner)?;
    keys.advance(moment);
    Ok(take(alloc, keys, &key, owner, lease))
}

/// Gives one hold back.
pub(crate) fn lock_unlock(
    alloc: Global,
    keys: &mut KeySpace,
    moment: u64,
    name: &Name,
    owner: &Owner,
    rest: u64,
) -> Reply
    requires name { IsName name.now }
    requires early { moment ≤ last_moment }
    ensures { let m = max keys.old.moment moment in IsRun keys.old keys.new m name.now result
        (λ objects. on_mutex objects name.now (lock_unlock name.now m owner.now rest)) }
{
    keys.advance(moment);
    if !is_lease(rest) {
        return Reply::BadLease;
    }
    give_back(alloc, keys, &key(Part::Lock, name), owner, rest)
}

/// Renews the lease of a hold.
pub(crate) fn lock_renew(
    keys: &mut KeySpace,
    moment: u64,
    name: &Name,
    owner: &Owner,
    lease: u64,
) -> Reply
    requires name { IsName name.now }
    requires early { moment ≤ last_moment }
    ensures { let m = max keys.old.moment moment in IsRun keys.old keys.new m name.now result
        (λ objects. on_mutex objects name.now (lock_renew m owner.now lease)) }
{
    keys.advance(moment);
    if !is_lease(lease) {
        return Reply::BadLease;
    }
    renew(keys, &key(Part::Lock, name), owner, lease)
}

/// Takes the lock away from whoever holds it.
pub(crate) fn lock_force(keys: &mut KeySpace, moment: u64, name: &Name) -> Reply
    requires name { IsName name.now }
    requires early { moment ≤ last_moment }
    ensures { let m = max keys.old.moment moment in IsRun keys.old keys.new m name.now result
        (λ objects. on_mutex objects name.now (lock_force name.now m)) }
{
    keys.advance(moment);
    end(keys, &key(Part::Lock, name))
}
