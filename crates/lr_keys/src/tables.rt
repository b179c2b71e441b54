//! Tables by key: what the key space does to its own.
ghost use Rattle.std.specs.Prelude.{◌≡◌, ℕ, List, [], ◌∷◌, ◌++◌, ◌+◌, ◌<◌, ◌≤◌, None, Some, IsSome, OnOk};
ghost use Rattle.std.specs.Str.{bytes_eq};
ghost use Rattle.indexmap.specs.IndexMap.{get, index_map_len, spare};
ghost use Rattle.lr_keys.specs.Slots.{KeepsSlot, IsRoomFor, new_slot, key_entries_of};
ghost use Rattle.lr_keys.specs.Table.{WritesKey, without_key_if};

use super::slot::{Slot, Spare, Stored};
use indexmap::IndexMap;
use lr_text::Brief;
use std::alloc::AllocError;

// Takes the memory out that was taken for the key.
pub(crate) fn take_spare(spares: &mut IndexMap<Brief, Spare>, key: &Brief) -> Spare
    requires { IsSome (get bytes_eq spares.old key.now) }
    ensures spare { get bytes_eq spares.old key.now ≡ Some result }
    ensures spares { WritesKey (get bytes_eq spares.old) (get bytes_eq spares.new) key.now None }
    ensures fewer { index_map_len spares.new + 1 ≡ index_map_len spares.old }
{
    spares.swap_remove(key).unwrap()
}

// Makes room for a new member in the value at the key, if that is there.
pub(crate) fn make_room(slots: &mut IndexMap<Brief, Slot>, key: &Brief) -> Result<(), AllocError>
    ensures shown { key_entries_of slots.new.entries ≡ key_entries_of slots.old.entries }
    ensures kept { (q : List ℕ) → KeepsSlot (get bytes_eq slots.old q) (get bytes_eq slots.new q) }
    ensures room { OnOk result (IsRoomFor (get bytes_eq slots.new key.now)) }
    ensures spare { spare slots.old ≤ spare slots.new }
{
    match slots.get_mut(key) {
        Some(slot) => slot.value.make_room(1),
        None => Ok(()),
    }
}

// Puts a new key last, for which there is room.
pub(crate) fn insert_slot(slots: &mut IndexMap<Brief, Slot>, key: &Brief, value: Stored)
    requires room { 0 < spare slots.old }
    requires absent { get bytes_eq slots.old key.now ≡ None }
    ensures slots { let slot = new_slot value in
        WritesKey (get bytes_eq slots.old) (get bytes_eq slots.new) key.now (Some slot) }
    ensures entries { let slot = new_slot value in
        slots.new.entries ≡ slots.old.entries ++ (key.now, slot) ∷ [] }
    ensures len { index_map_len slots.new ≡ index_map_len slots.old + 1 }
    ensures room { spare slots.old ≤ spare slots.new + 1 }
{
    let slot = Slot {
        value,
        expiry: None,
    };
    slots.insert(*key, slot).unwrap();
}
