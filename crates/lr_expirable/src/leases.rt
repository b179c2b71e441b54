//! The leases under a key: what it says of them, and the changes of one.
ghost use Rattle.std.specs.Prelude.{◌≡◌, ◌<◌, ◌≤◌, ℕ, List, ◌∷◌, length, Ok, Some, None, IfSome, is_some, option_map, slice_get, true, false};
ghost use Rattle.lr_keys.specs.KeySpace.{ChangesOnly, IsPrepared, entry_at, score_at};
ghost use Rattle.lr_limits.specs.Limits.{member_limit, never};
ghost use Rattle.lr_model.specs.Permits.{PermitLease, least_deadline, lease_under, without_lease};
ghost use Rattle.lr_names.specs.Owner.{IsId, id_text};
ghost use Rattle.lr_sorted.specs.Members.{Members};
ghost use Rattle.lr_expirable.specs.Leases.{AreLeasesAt, members_entry};

use lr_keys::{KeySpace, ValueKind};
use lr_text::Brief;
use std::alloc::Global;

/// The deadline of the lease under the id with this text, if there is one.
pub(crate) fn deadline_under(keys: &KeySpace, key: &Brief, member: &Brief) -> Option<u64>
    ensures { (leases : List PermitLease) (id : List ℕ)
        → AreLeasesAt (entry_at keys.now key.now) leases → IsId id → member.now ≡ id_text id
        → result ≡ option_map (λ lease. lease.deadline) (lease_under id leases) }
{
    keys.zscore(key, member).unwrap_or(None)
}

/// How many leases there are.
pub(crate) fn len(keys: &KeySpace, key: &Brief) -> u64
    ensures { (leases : List PermitLease) → AreLeasesAt (entry_at keys.now key.now) leases
        → result ≡ length leases }
{
    keys.zcard(key).unwrap_or(0)
}

/// The text and the deadline of the lease that runs out first, if there is one.
pub(crate) fn first_lease(keys: &KeySpace, key: &Brief) -> Option<(Brief, u64)>
    ensures first { (members : Members) → entry_at keys.now key.now ≡ members_entry members
        → result ≡ slice_get members 0 }
    ensures there { IfSome result (λ first. (score : ℕ)
        × (score_at first.0 (entry_at keys.now key.now) ≡ Ok (Some score))) }
{
    keys.zindex(key, 0).unwrap_or(None)
}

/// The deadline that comes first, where there is a lease.
pub(crate) fn least_deadline(keys: &KeySpace, key: &Brief) -> u64
    ensures { (leases : List PermitLease) → AreLeasesAt (entry_at keys.now key.now) leases
        → result ≡ least_deadline leases }
{
    match first_lease(keys, key) {
        Some((_, deadline)) => deadline,
        None => 0,
    }
}

/// Adds a lease, for which memory was taken, under an id that has none.
pub(crate) fn add(alloc: Global, keys: &mut KeySpace, key: &Brief, member: &Brief, deadline: u64)
    ensures added { (leases : List PermitLease) (id : List ℕ)
        → AreLeasesAt (entry_at keys.old key.now) leases → IsId id → member.now ≡ id_text id
        → lease_under id leases ≡ None → length leases < member_limit → deadline ≤ never
        → IsPrepared keys.old key.now ValueKind.Zset member.now
        → AreLeasesAt (entry_at keys.new key.now)
        (record { id = id; deadline = deadline } ∷ leases) }
    ensures others { ChangesOnly key.now keys.old keys.new }
    ensures moment { keys.new.moment ≡ keys.old.moment }
{
    // It can't fail: there is memory and room for it.
    let _new = keys.zadd(alloc, key, member, deadline);
}

/// Removes the lease under the id with this text, and tells whether there was one.
pub(crate) fn remove(keys: &mut KeySpace, key: &Brief, member: &Brief) -> bool
    ensures found { (leases : List PermitLease) (id : List ℕ)
        → AreLeasesAt (entry_at keys.old key.now) leases → IsId id → member.now ≡ id_text id
        → result ≡ is_some (lease_under id leases) }
    ensures removed { result ≡ true → (leases : List PermitLease) (id : List ℕ)
        → AreLeasesAt (entry_at keys.old key.now) leases → IsId id → member.now ≡ id_text id
        → AreLeasesAt (entry_at keys.new key.now) (without_lease id leases) }
    ensures kept { result ≡ false → keys.new ≡ keys.old }
    ensures others { ChangesOnly key.now keys.old keys.new }
    ensures moment { keys.new.moment ≡ keys.old.moment }
{
    keys.zrem(key, member).unwrap_or(false)
}
