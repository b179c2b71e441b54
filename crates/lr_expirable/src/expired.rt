//! The leases whose deadlines have come.
ghost use Rattle.std.specs.Prelude.{◌≡◌, ◌<◌, ℕ, List, ◌∷◌, Ok, Some, None, IfSome, true};
ghost use Rattle.lr_keys.specs.KeySpace.{ChangesOnly, count_at, entry_at, plan_at, score_at};
ghost use Rattle.lr_model.specs.Permits.{PermitLease, live_leases};
ghost use Rattle.lr_sorted.specs.Members.{Members, is_in_order};
ghost use Rattle.lr_expirable.specs.Leases.{AreLeasesAt, members_entry};
ghost use Rattle.lr_expirable.specs.Step.{IsFirstGone, live_members};

use crate::leases::first_lease;
use lr_keys::KeySpace;
use lr_text::Brief;

// The text of a lease that is gone at the moment of the keys, if there is one. The first place of the
// sorted set tells: no lease ends before that.
fn expired(keys: &KeySpace, key: &Brief) -> Option<Brief>
    ensures there { IfSome result (λ member. (score : ℕ)
        × (score_at member (entry_at keys.now key.now) ≡ Ok (Some score))) }
    ensures some { IfSome result (λ member. (members : Members)
        → entry_at keys.now key.now ≡ members_entry members
        → IsFirstGone keys.now.moment members member) }
    ensures none { result ≡ None → (members : Members)
        → entry_at keys.now key.now ≡ members_entry members → is_in_order members ≡ true
        → live_members keys.now.moment members ≡ members }
{
    let first = first_lease(keys, key)?;
    if first.1 > keys.moment() {
        return None;
    }
    Some(first.0)
}

// Removes the first member.
fn drop_first(keys: &mut KeySpace, key: &Brief, member: &Brief)
    ensures dropped { (deadline : ℕ) (rest : Members)
        → entry_at keys.old key.now ≡ members_entry ((member.now, deadline) ∷ rest)
        → entry_at keys.new key.now ≡ members_entry rest }
    ensures others { ChangesOnly key.now keys.old keys.new }
    ensures moment { keys.new.moment ≡ keys.old.moment }
    ensures prepared { plan_at keys.new ≡ plan_at keys.old }
    ensures fewer { (score : ℕ)
        → score_at member.now (entry_at keys.old key.now) ≡ Ok (Some score)
        → count_at (entry_at keys.new key.now) < count_at (entry_at keys.old key.now) }
{
    let _removed = keys.zrem(key, member);
}

/// Removes the leases that are gone at the moment of the keys.
pub(crate) fn remove_expired(keys: &mut KeySpace, key: &Brief)
    ensures live { (leases : List PermitLease)
        → AreLeasesAt (entry_at keys.old key.now) leases
        → AreLeasesAt (entry_at keys.new key.now) (live_leases keys.old.moment leases) }
    ensures others { ChangesOnly key.now keys.old keys.new }
    ensures moment { keys.new.moment ≡ keys.old.moment }
    ensures prepared { plan_at keys.new ≡ plan_at keys.old }
{
    'expired: while let Some(member) = expired(keys, key) {
        drop_first(keys, key, &member);
    }
}
