//! The steps of the functions on the two keys of permits, at the moment of the keys. Of the leases
//! those that are gone were removed.
ghost use Rattle.std.specs.Prelude.{◌≡◌, ◌≢◌, ◌<◌, ◌≤◌, ◌-◌, ℕ, [], Option, None, Some, IsTrue};
ghost use Rattle.lr_keys.specs.KeySpace.{IsPrepared};
ghost use Rattle.lr_limits.specs.Limits.{never};
ghost use Rattle.lr_model.specs.Moment.{is_lease};
ghost use Rattle.lr_model.specs.Permits.{Permits, permits_post, lease_under, set_step, try_step, release_step, count_step};
ghost use Rattle.lr_names.specs.Owner.{id_text};
ghost use Rattle.lr_expirable.specs.Stands.{ArePermitsAt};
ghost use Rattle.lr_expirable.specs.Step.{AreLive, ChangesOnlyTwo, IsPermitStep};

use crate::leases;
use crate::permit_keys::PermitKeys;
use lr_counter::{add, count_at, number_at};
use lr_keys::{KeySpace, ValueKind};
use lr_limits::{MOST_MEMBERS, NEVER};
use lr_names::{Channel, Kind, Name, Post, id_brief};
use lr_objects::{Amount, Integer, Remaining, Reply};
use std::alloc::Global;
use uuid::Uuid;

// The message to those who wait for permits.
fn post(name: &Name) -> Option<Post>
    ensures { result ≡ Some (permits_post name.now) }
{
    Some(Post::to(Channel::of(Kind::Permits, name)))
}

// How long it is until a deadline.
fn remaining(keys: &KeySpace, deadline: u64) -> Remaining
    ensures { keys.now.moment < deadline → deadline ≤ never
        → result ≡ deadline - keys.now.moment }
{
    let left = deadline.saturating_sub(keys.moment());
    Remaining::new(left.clamp(1, NEVER))
}

/// Sets the number of permits, where none is set.
pub(crate) fn set(
    keys: &mut KeySpace,
    permits: &PermitKeys,
    name: &Name,
    number: &Amount,
) -> (Reply, Option<Post>)
    requires apart { permits.now.number ≢ permits.now.leases }
    ensures step { (object : Permits)
        → ArePermitsAt keys.old permits.now.number permits.now.leases object
        → (object.number ≡ None → IsPrepared keys.old permits.now.number ValueKind.Counter [])
        → IsPermitStep keys.new permits.now.number permits.now.leases result
        (set_step name.now number.now object) }
    ensures others { ChangesOnlyTwo permits.now.number permits.now.leases keys.old keys.new }
    ensures moment { keys.new.moment ≡ keys.old.moment }
{
    if number_at(keys, &permits.number).is_some() {
        return (Reply::AlreadySet, None);
    }
    add(keys, &permits.number, number.number());
    (Reply::Set, post(name))
}

/// Takes a permit under an id that has none, for a lease from now on.
pub(crate) fn take(
    alloc: Global,
    keys: &mut KeySpace,
    permits: &PermitKeys,
    id: &Uuid,
    lease: u64,
) -> Reply
    requires apart { permits.now.number ≢ permits.now.leases }
    requires lease { IsTrue (is_lease lease) }
    ensures step { (object : Permits)
        → ArePermitsAt keys.old permits.now.number permits.now.leases object
        → AreLive keys.old.moment object.leases
        → (lease_under id.now object.leases ≡ None
        → IsPrepared keys.old permits.now.leases ValueKind.Zset (id_text id.now))
        → IsPermitStep keys.new permits.now.number permits.now.leases (result, None)
        (try_step keys.old.moment id.now lease object) }
    ensures others { ChangesOnlyTwo permits.now.number permits.now.leases keys.old keys.new }
    ensures moment { keys.new.moment ≡ keys.old.moment }
{
    let Some(number) = number_at(keys, &permits.number) else {
        return Reply::Short;
    };
    let member = id_brief(id);
    if leases::deadline_under(keys, &permits.leases, &member).is_some() {
        return Reply::AlreadySet;
    }
    let taken = leases::len(keys, &permits.leases);
    if taken >= number {
        let deadline = leases::least_deadline(keys, &permits.leases);
        return Reply::Busy(remaining(keys, deadline));
    }
    if taken >= MOST_MEMBERS as u64 {
        return Reply::TooMany;
    }
    let deadline = keys.moment() + lease;
    leases::add(alloc, keys, &permits.leases, &member, deadline);
    Reply::Granted
}

/// Gives back the permit that was taken under an id.
pub(crate) fn release(
    keys: &mut KeySpace,
    permits: &PermitKeys,
    name: &Name,
    id: &Uuid,
) -> (Reply, Option<Post>)
    requires apart { permits.now.number ≢ permits.now.leases }
    ensures step { (object : Permits)
        → ArePermitsAt keys.old permits.now.number permits.now.leases object
        → IsPermitStep keys.new permits.now.number permits.now.leases result
        (release_step name.now id.now object) }
    ensures others { ChangesOnlyTwo permits.now.number permits.now.leases keys.old keys.new }
    ensures moment { keys.new.moment ≡ keys.old.moment }
{
    if !leases::remove(keys, &permits.leases, &id_brief(id)) {
        return (Reply::Unknown, None);
    }
    (Reply::Freed, post(name))
}

/// Tells how many permits are free.
pub(crate) fn count(keys: &KeySpace, permits: &PermitKeys) -> (Reply, Option<Post>)
    ensures { (object : Permits)
        → ArePermitsAt keys.now permits.now.number permits.now.leases object
        → IsPermitStep keys.now permits.now.number permits.now.leases result (count_step object) }
{
    let number = count_at(keys, &permits.number);
    let free = number.saturating_sub(leases::len(keys, &permits.leases));
    (Reply::Count(Integer::new(free)), None)
}
