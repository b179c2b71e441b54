//! A look at the permits of a name, which changes nothing. Leases that have run out may stand there
//! still: they don't count.
ghost use Rattle.std.specs.Prelude.{◌≡◌, ◌≤◌, ℕ, List, length, max, nat_le, IsTrue};
ghost use Rattle.lr_keys.specs.KeySpace.{entry_at};
ghost use Rattle.lr_model.specs.Answer.{Objects, reply_of};
ghost use Rattle.lr_model.specs.Moment.{is_lease};
ghost use Rattle.lr_model.specs.Permits.{PermitLease, Permits, live_leases, live_permits, try_step};
ghost use Rattle.lr_objects.specs.Reply.{blocks};
ghost use Rattle.lr_objects.specs.declared.kinds.Function.TheVariants as kinds;
ghost use Rattle.lr_objects.specs.declared.permits.PermitCall.TheVariants as calls;
ghost use Rattle.lr_objects.specs.declared.permits.PermitFunction.TheVariants as functions;
ghost use Rattle.lr_expirable.specs.Leases.{AreLeasesAt};
ghost use Rattle.lr_expirable.specs.Run.{permit_op};
ghost use Rattle.lr_expirable.specs.Stands.{ArePermitsAt, PermitsStand};

use crate::call::is_taken_at;
use crate::leases;
use crate::permit_keys::PermitKeys;
use lr_counter::number_at;
use lr_keys::KeySpace;
use lr_names::{Name, id_brief};
use lr_text::Brief;
use uuid::Uuid;

// Whether so many leases last beyond the moment, or beyond that of the keys where that is later. There
// are no more leases than permits: so all must be there, and the one that ends first must last.
fn is_full(keys: &KeySpace, key: &Brief, number: u64, moment: u64) -> bool
    ensures { let m = max keys.now.moment moment in (leases : List PermitLease)
        → AreLeasesAt (entry_at keys.now key.now) leases → 1 ≤ number → length leases ≤ number
        → result ≡ nat_le number (length (live_leases m leases)) }
{
    let first = leases::least_deadline(keys, key);
    leases::len(keys, key) >= number && first > keys.moment().max(moment)
}

// Whether a try under an id would have its thread wait, by the two keys.
fn is_kept_waiting(keys: &KeySpace, permits: &PermitKeys, moment: u64, id: &Uuid) -> bool
    ensures { let m = max keys.now.moment moment in (object : Permits) (lease : ℕ)
        → ArePermitsAt keys.now permits.now.number permits.now.leases object
        → result ≡ blocks (try_step m id.now lease (live_permits m object)).reply
        (kinds.Permits functions.Try) }
{
    let Some(number) = number_at(keys, &permits.number) else {
        return true;
    };
    if is_taken_at(keys, &permits.leases, &id_brief(id), moment) {
        return false;
    }
    is_full(keys, &permits.leases, number, moment)
}

/// Whether a try for a permit under an id would have its thread wait at a moment in milliseconds, or
/// at that of the keys where that is later: where no number is set, or where the id has no permit
/// and all are taken. It is so for each lease of 1 to 86,400,000,000 milliseconds.
pub fn would_wait(keys: &KeySpace, moment: u64, name: &Name, id: &Uuid) -> bool
    ensures { let m = max keys.now.moment moment in (objects : Objects) (lease : ℕ)
        → PermitsStand keys.now objects → IsTrue (is_lease lease)
        → result ≡ blocks (reply_of objects m (permit_op name.now (calls.Try id.now lease)))
        (kinds.Permits functions.Try) }
{
    // What the type of the name says of it.
    let _text = name.as_slice();
    is_kept_waiting(keys, &PermitKeys::of(name), moment, id)
}
