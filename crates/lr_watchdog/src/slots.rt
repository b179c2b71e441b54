//! The slots and their due moments by place: what changes both.
ghost use Rattle.std.specs.Prelude.{◌≡◌, ◌≢◌, ◌<◌, ◌≤◌, true, length, slice_index, slice_set, OnOk, OnErr};
ghost use Rattle.lr_model.specs.Table.{put};
ghost use Rattle.lr_waiting.specs.Watchdog.{same_watch};
ghost use Rattle.lr_watchdog.specs.Value.{AreDue, is_kept, no_slot, slot_in};

use crate::slot::{self, Slot};
use indexmap::IndexMap;
use lr_expiry::{Expiries, NO_EXPIRY};
use lr_waiting::WatchKey;
use std::alloc::AllocError;

/// The slot of a hold.
pub(crate) fn find_slot(slots: &IndexMap<WatchKey, Slot>, key: &WatchKey) -> Slot
    ensures { result ≡ slot_in slots.now.entries key.now }
{
    match slots.get(key) {
        Some(slot) => *slot,
        None => slot::no_slot(),
    }
}

/// Puts a slot at a hold. It may take memory, and an error changes nothing.
pub(crate) fn add_slot(
    slots: &mut IndexMap<WatchKey, Slot>,
    due: &mut Expiries,
    key: &WatchKey,
    slot: Slot,
) -> Result<(), AllocError>
    requires { AreDue slots.old.entries due.old }
    ensures at { OnOk result (slot_in slots.new.entries
        ≡ put same_watch (slot_in slots.old.entries) key.now slot) }
    ensures err { OnErr result (slots.new.entries ≡ slots.old.entries) }
    ensures due { AreDue slots.new.entries due.new }
{
    due.reserve(slots.len() + 1)?;
    let (place, _) = slots.insert_full(*key, slot)?;
    due.set(place, slot::due_in(&slot));
    Ok(())
}

/// Puts a slot at a hold that has one, or takes it away where nothing is to be kept. It takes no
/// memory.
pub(crate) fn set_slot(
    slots: &mut IndexMap<WatchKey, Slot>,
    due: &mut Expiries,
    key: &WatchKey,
    slot: Slot,
)
    requires due { AreDue slots.old.entries due.old }
    requires stored { is_kept slot ≡ true → slot_in slots.old.entries key.now ≢ no_slot }
    ensures at { slot_in slots.new.entries
        ≡ put same_watch (slot_in slots.old.entries) key.now slot }
    ensures due { AreDue slots.new.entries due.new }
{
    if slot::is_kept(&slot) {
        write_slot(slots, due, key, slot);
    } else {
        remove_slot(slots, due, key);
    }
}

// Writes the slot of a hold that has one.
fn write_slot(slots: &mut IndexMap<WatchKey, Slot>, due: &mut Expiries, key: &WatchKey, slot: Slot)
    requires due { AreDue slots.old.entries due.old }
    requires stored { slot_in slots.old.entries key.now ≢ no_slot }
    ensures at { slot_in slots.new.entries
        ≡ put same_watch (slot_in slots.old.entries) key.now slot }
    ensures due { AreDue slots.new.entries due.new }
{
    if let Ok((place, _)) = slots.insert_full(*key, slot) {
        due.set(place, slot::due_in(&slot));
    }
}

// Takes the slot of a hold away.
fn remove_slot(slots: &mut IndexMap<WatchKey, Slot>, due: &mut Expiries, key: &WatchKey)
    requires { AreDue slots.old.entries due.old }
    ensures at { slot_in slots.new.entries
        ≡ put same_watch (slot_in slots.old.entries) key.now no_slot }
    ensures due { AreDue slots.new.entries due.new }
{
    let Some((place, _, _)) = slots.swap_remove_full(key) else {
        return;
    };
    remove_place(due, place, slots.len());
}

// Takes the due moment of a place out: what stands at the last place moves there.
fn remove_place(due: &mut Expiries, place: usize, last: usize)
    requires place { place ≤ last }
    requires last { last < length due.old }
    ensures { let moved = slice_index due.old last in
        due.new ≡ slice_set (slice_set due.old place moved) last NO_EXPIRY }
{
    let moved = due.get(last);
    due.set(place, moved);
    due.set(last, NO_EXPIRY);
}
