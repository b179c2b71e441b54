//! The slots and their expiries by place: what changes both.
ghost use Rattle.std.specs.Prelude.{◌≡◌, ℕ, List, ◌+◌, ◌<◌, ◌≤◌, ◌^◌, None, Some, length, slice_index, slice_set, is_some, OnOk, false, if◌then◌else◌};
ghost use Rattle.std.specs.Option.{ForSome};
ghost use Rattle.std.specs.Str.{bytes_eq};
ghost use Rattle.indexmap.specs.IndexMap.{get, index_map_len, spare};
ghost use Rattle.lr_keys.specs.Slots.{AreExpiries, live_slot};
ghost use Rattle.lr_keys.specs.Table.{WritesKey, without_key_if};
ghost use Rattle.lr_limits.specs.Limits.{last_moment};

use super::slot::Slot;
use indexmap::IndexMap;
use lr_expiry::{Expiries, NO_EXPIRY};
use lr_text::Brief;
use std::alloc::AllocError;

// Makes room and a place for one key more than those for which memory was taken.
pub(crate) fn make_place(
    slots: &mut IndexMap<Brief, Slot>,
    expiries: &mut Expiries,
    taken: usize,
) -> Result<(), AllocError>
    requires expiries { AreExpiries slots.old.entries expiries.old }
    requires few { taken < 2 ^ 63 }
    ensures expiries { AreExpiries slots.new.entries expiries.new }
    ensures entries { slots.new.entries ≡ slots.old.entries }
    ensures kept { spare slots.old ≤ spare slots.new }
    ensures longer { length expiries.old ≤ length expiries.new }
    ensures room { OnOk result (taken < spare slots.new) }
    ensures places { OnOk result (index_map_len slots.new + taken < length expiries.new) }
{
    let more = taken + 1;
    slots.reserve(more)?;
    let places = slots.len() + more;
    expiries.reserve(places)
}

// Takes the expiry of a place out: what stands at the last place moves there.
fn remove_place(expiries: &mut Expiries, place: usize, last: usize)
    requires place { place ≤ last }
    requires last { last < length expiries.old }
    ensures { let moved = slice_index expiries.old last in
        expiries.new ≡ slice_set (slice_set expiries.old place moved) last NO_EXPIRY }
{
    let moved = expiries.get(last);
    expiries.set(place, moved);
    expiries.set(last, NO_EXPIRY);
}

// Removes the key, and says whether it was there.
pub(crate) fn remove_slot(
    slots: &mut IndexMap<Brief, Slot>,
    expiries: &mut Expiries,
    key: &Brief,
) -> bool
    requires { AreExpiries slots.old.entries expiries.old }
    ensures found { result ≡ is_some (get bytes_eq slots.old key.now) }
    ensures slots { WritesKey (get bytes_eq slots.old) (get bytes_eq slots.new) key.now None }
    ensures absent { result ≡ false → slots.new.entries ≡ slots.old.entries }
    ensures expiries { AreExpiries slots.new.entries expiries.new }
    ensures fewer { index_map_len slots.new + (if result then 1 else 0) ≡ index_map_len slots.old }
    ensures places { length expiries.new ≡ length expiries.old }
    ensures room { spare slots.old ≤ spare slots.new }
{
    let Some((place, _, _)) = slots.swap_remove_full(key) else {
        return false;
    };
    remove_place(expiries, place, slots.len());
    true
}

// Removes the key, if it is to go.
pub(crate) fn remove_slot_if(
    slots: &mut IndexMap<Brief, Slot>,
    expiries: &mut Expiries,
    key: &Brief,
    gone: bool,
)
    requires { AreExpiries slots.old.entries expiries.old }
    ensures slots { (q : List ℕ) → get bytes_eq slots.new q
        ≡ without_key_if gone key.now (get bytes_eq slots.old) q }
    ensures expiries { AreExpiries slots.new.entries expiries.new }
    ensures fewer { index_map_len slots.new ≤ index_map_len slots.old }
    ensures places { length expiries.new ≡ length expiries.old }
    ensures room { spare slots.old ≤ spare slots.new }
{
    if gone {
        remove_slot(slots, expiries, key);
    }
}

// Sets the expiry of the key, and says whether it is there.
pub(crate) fn set_expiry(
    slots: &mut IndexMap<Brief, Slot>,
    expiries: &mut Expiries,
    key: &Brief,
    expiry: u64,
) -> bool
    requires { AreExpiries slots.old.entries expiries.old }
    ensures found { result ≡ is_some (get bytes_eq slots.old key.now) }
    ensures slots { ForSome (get bytes_eq slots.old key.now) (λ slot.
        WritesKey (get bytes_eq slots.old) (get bytes_eq slots.new) key.now
        (Some (record slot { expiry = Some expiry }))) }
    ensures absent { result ≡ false → slots.new.entries ≡ slots.old.entries }
    ensures expiries { AreExpiries slots.new.entries expiries.new }
    ensures len { index_map_len slots.new ≡ index_map_len slots.old }
    ensures places { length expiries.new ≡ length expiries.old }
    ensures room { spare slots.old ≤ spare slots.new }
{
    let Some(place) = slots.get_index_of(key) else {
        return false;
    };
    let slot = slots.get_index_mut(place).unwrap();
    slot.expiry = Some(expiry);
    expiries.set(place, expiry);
    true
}

// Removes the keys that are gone at the moment, one after the other.
pub(crate) fn remove_gone(slots: &mut IndexMap<Brief, Slot>, expiries: &mut Expiries, moment: u64)
    requires expiries { AreExpiries slots.old.entries expiries.old }
    requires moment { moment ≤ last_moment }
    ensures slots { (q : List ℕ)
        → get bytes_eq slots.new q ≡ live_slot moment (get bytes_eq slots.old q) }
    ensures expiries { AreExpiries slots.new.entries expiries.new }
    ensures fewer { index_map_len slots.new ≤ index_map_len slots.old }
    ensures places { length expiries.new ≡ length expiries.old }
    ensures room { spare slots.old ≤ spare slots.new }
{
    'gone: while let Some(place) = expiries.due(moment) {
        remove_at(slots, expiries, place, moment);
    }
}

// Removes the key at a place, which is gone at the moment.
fn remove_at(slots: &mut IndexMap<Brief, Slot>, expiries: &mut Expiries, place: usize, moment: u64)
    requires expiries { AreExpiries slots.old.entries expiries.old }
    requires place { place < length expiries.old }
    requires due { slice_index expiries.old place ≤ moment }
    requires moment { moment ≤ last_moment }
    ensures slots { (q : List ℕ) → live_slot moment (get bytes_eq slots.new q)
        ≡ live_slot moment (get bytes_eq slots.old q) }
    ensures expiries { AreExpiries slots.new.entries expiries.new }
    ensures fewer { index_map_len slots.new < index_map_len slots.old }
    ensures places { length expiries.new ≡ length expiries.old }
    ensures room { spare slots.old ≤ spare slots.new }
{
    // `len` is called for its clause that the keys differ, which the proof cites.
    let _len = slots.len();
    let (key, _) = slots.get_index(place).unwrap();
    let key = *key;
    remove_slot(slots, expiries, &key);
}
