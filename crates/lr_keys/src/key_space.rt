ghost use Rattle.std.specs.Prelude.{◌≡◌, ℕ, List, ◌+◌, ◌≤◌, None, IfSome, ◌↔◌, IfOk, OnOk, OnErr, is_some, false, max, option_map};
ghost use Rattle.std.specs.Option.{option_copied, ForSome};
ghost use Rattle.lr_keys.specs.KeySpace.{AreLive, ChangesEntry, IsLive, TakesPlan, entry_at, plan_at, expiry_at, kind_at, entry_with_expiry, time_left, live_entries};
ghost use Rattle.lr_limits.specs.Limits.{last_moment, longest_lease};

use super::expiry::{make_place, remove_gone, remove_slot, set_expiry};
use super::slot::{Slot, Spare};
use super::tables::make_room;
use super::value_kind::ValueKind;
use indexmap::IndexMap;
use lr_expiry::{Expiries, NO_EXPIRY};
use lr_text::Brief;
use std::alloc::{AllocError, Global};
use std::marker::Model;

mod counters;
pub(crate) mod hashes;
mod lists;
mod members;
mod sorted_sets;

// For how many keys there is room from the start to note what is prepared.
const PREPARED_KEYS: usize = 4;

/// Keys with a value, and an expiry or none, at a moment.
///
/// A moment is a number of milliseconds, at most `LAST_MOMENT`. A key whose expiry is at most the
/// moment is gone. A key has at most `MOST_MEMBERS` members. (Both are numbers of `lr_limits`.)
#[derive(Drop)]
pub struct KeySpace {
    moment: u64,
    slots: IndexMap<Brief, Slot>,
    /// The expiry of the key at each place of `slots`.
    expiries: Expiries,
    spares: IndexMap<Brief, Spare>,
}

impl Model for KeySpace {
    ghost use Rattle.lr_keys.specs.KeySpace.{Keys};

    ghost Value = { Keys };

    ghost use Rattle.lr_keys.specs.Slots.{keys_inside, IsKeySpace};

    ghost view = { keys_inside };

    ghost invariant = { IsKeySpace };
}

impl KeySpace {
    ghost use Rattle.lr_keys.specs.Slots.{key_entry_of};

    /// No keys, at moment 0.
    pub fn new(alloc: Global) -> Result<Self, AllocError>
        ensures moment { IfOk result (λ keys. keys.moment ≡ 0) }
        ensures none { IfOk result (λ keys. entry_at keys ≡ (λ _. None)) }
        ensures unprepared { IfOk result (λ keys. plan_at keys ≡ (λ _. None)) }
    {
        Ok(KeySpace {
            moment: 0,
            slots: IndexMap::new(alloc),
            expiries: Expiries::new(alloc),
            spares: IndexMap::with_capacity(alloc, PREPARED_KEYS)?,
        })
    }

    /// The moment.
    pub fn moment(&self) -> u64
        ensures moment { result ≡ self.now.moment }
        ensures live { AreLive self.now }
    {
        self.moment
    }

    // What is at the key.
    fn slot(&self, key: &Brief) -> Option<&Slot>
        ensures entry { entry_at self.now key.now ≡ option_map key_entry_of (option_copied result) }
        ensures live { ForSome (option_copied result)
            (λ s. IsLive self.now.moment (key_entry_of s)) }
    {
        self.slots.get(key)
    }

    /// Goes on to this moment, and stays where it is earlier. Removes each key whose expiry is at
    /// most the moment.
    pub fn advance(&mut self, moment: u64)
        requires { moment ≤ last_moment }
        ensures moment { self.new.moment ≡ max self.old.moment moment }
        ensures entries { let m = max self.old.moment moment in
            entry_at self.new ≡ live_entries m (entry_at self.old) }
        ensures live { AreLive self.new }
        ensures prepared { plan_at self.new ≡ plan_at self.old }
    {
        let moment = self.moment.max(moment);
        self.moment = moment;
        remove_gone(&mut self.slots, &mut self.expiries, moment);
    }

    /// The least expiry of any key, a moment. None where no key has one.
    pub fn next_expiry(&self) -> Option<u64>
        ensures some { IfSome result (λ expiry.
            (key : List ℕ) × (expiry_at self.now key ≡ Some expiry)) }
        ensures least { IfSome result (λ least. (key : List ℕ)
            → ForSome (expiry_at self.now key) (λ expiry. least ≤ expiry)) }
        ensures none { result ≡ None ↔ ((key : List ℕ) → expiry_at self.now key ≡ None) }
    {
        // `len` is called for its clause that the keys differ, which the proof cites.
        let _len = self.slots.len();
        let least = self.expiries.least();
        if least == NO_EXPIRY {
            return None;
        }
        Some(least)
    }

    /// Whether the key is there.
    pub fn exists(&self, key: &Brief) -> bool
        ensures { result ≡ is_some (entry_at self.now key.now) }
    {
        self.slot(key).is_some()
    }

    /// The kind of the key's value, if the key is there.
    pub fn kind_of(&self, key: &Brief) -> Option<ValueKind>
        ensures { result ≡ kind_at (entry_at self.now key.now) }
    {
        match self.slot(key) {
            Some(slot) => Some(slot.value.kind()),
            None => None,
        }
    }

    /// The milliseconds that are left of the key: -2 where it is absent, and -1 where it has no
    /// expiry.
    pub fn pttl(&self, key: &Brief) -> i64
        ensures { result ≡ time_left self.now.moment (entry_at self.now key.now) }
    {
        match self.slot(key) {
            Some(slot) => match slot.expiry {
                Some(expiry) => (expiry - self.moment) as i64,
                None => -1,
            },
            None => -2,
        }
    }

    /// Removes the key, and says whether it was there.
    pub fn del(&mut self, key: &Brief) -> bool
        ensures found { result ≡ is_some (entry_at self.old key.now) }
        ensures removed { ChangesEntry self.old self.new key.now (λ _. None) }
        ensures moment { self.new.moment ≡ self.old.moment }
        ensures prepared { plan_at self.new ≡ plan_at self.old }
        ensures absent { result ≡ false → self.new ≡ self.old }
    {
        remove_slot(&mut self.slots, &mut self.expiries, key)
    }

    /// Sets the key's expiry to this many milliseconds from the moment, 1 to the longest lease, and
    /// says whether the key is there.
    pub fn pexpire(&mut self, key: &Brief, millis: u64) -> bool
        requires some { 1 ≤ millis }
        requires few { millis ≤ longest_lease }
        ensures found { result ≡ is_some (entry_at self.old key.now) }
        ensures expires { ChangesEntry self.old self.new key.now
            (entry_with_expiry (self.old.moment + millis)) }
        ensures moment { self.new.moment ≡ self.old.moment }
        ensures prepared { plan_at self.new ≡ plan_at self.old }
        ensures absent { result ≡ false → self.new ≡ self.old }
    {
        let expiry = self.moment + millis;
        set_expiry(&mut self.slots, &mut self.expiries, key, expiry)
    }

    /// Takes the memory for this new member of the key, as a key of this kind, and for the key
    /// itself. For a counter the member is empty. After an error nothing has changed.
    ///
    /// Until the next [`settle`](KeySpace::settle) the first call that makes the member finds that
    /// memory, whatever was removed before. A key has one member prepared: a second call for the
    /// key replaces the first.
    pub fn prepare(
        &mut self,
        alloc: Global,
        key: &Brief,
        kind: ValueKind,
        member: &Brief,
    ) -> Result<(), AllocError>
        ensures prepared { OnOk result (TakesPlan self.old self.new key.now kind member.now) }
        ensures entries { entry_at self.new ≡ entry_at self.old }
        ensures moment { self.new.moment ≡ self.old.moment }
        ensures err { OnErr result (self.new ≡ self.old) }
    {
        let spare = Spare::new(alloc, kind, member)?;
        make_place(&mut self.slots, &mut self.expiries, self.spares.len())?;
        make_room(&mut self.slots, key)?;
        self.spares.insert(*key, spare)?;
        Ok(())
    }

    /// Gives up what is left of the memory that was prepared.
    pub fn settle(&mut self)
        ensures prepared { plan_at self.new ≡ (λ _. None) }
        ensures entries { entry_at self.new ≡ entry_at self.old }
        ensures moment { self.new.moment ≡ self.old.moment }
    {
        self.spares.clear();
    }
}
