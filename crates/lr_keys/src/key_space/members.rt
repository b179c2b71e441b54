//! Members of all kinds of values alike: what a call makes, writes and removes.
ghost use Rattle.std.specs.Prelude.{◌≡◌, ◌<◌, None, IsSome, IsTrue, IsOk, OnOk, OnErr, false, nat_lt};
ghost use Rattle.lr_keys.specs.Addition.{kind_added, member_added, entry_with, entry_without};
ghost use Rattle.lr_keys.specs.KeySpace.{ChangesEntry, UsesPlan, entry_at, plan_at, count_at, has_plan};
ghost use Rattle.lr_keys.specs.Slots.{HasMemberAt};
ghost use Rattle.lr_keys.specs.Table.{with_key};
ghost use Rattle.lr_limits.specs.Limits.{member_limit};

use super::KeySpace;
use crate::addition::Addition;
use crate::expiry::{make_place, remove_slot_if};
use crate::slot::{Spare, Stored};
use crate::tables::{insert_slot, take_spare};
use crate::value_kind::ValueKind;
use lr_limits::MOST_MEMBERS;
use lr_text::Brief;
use std::alloc::{AllocError, Global};

impl KeySpace {
    // Whether the key has fewer members than it may have.
    pub(super) fn takes_member(&self, key: &Brief) -> bool
        ensures { result ≡ nat_lt (count_at (entry_at self.now key.now)) member_limit }
    {
        match self.slot(key) {
            Some(slot) => slot.value.members() < MOST_MEMBERS,
            None => true,
        }
    }

    // Whether memory for this member of the key is there.
    fn is_prepared(&self, key: &Brief, kind: ValueKind, member: &Brief) -> bool
        ensures { result ≡ has_plan self.now key.now kind member.now }
    {
        match self.spares.get(key) {
            Some(spare) => spare.is_for(kind, member),
            None => false,
        }
    }

    // Puts a new member into the value, and makes that where the key is absent.
    pub(super) fn new_member(
        &mut self,
        alloc: Global,
        key: &Brief,
        addition: &Addition,
    ) -> Result<(), AllocError>
        requires { count_at (entry_at self.old key.now) < member_limit }
        ensures entry { OnOk result (ChangesEntry self.old self.new key.now
            (λ e. Some (entry_with addition.now e))) }
        ensures moment { self.new.moment ≡ self.old.moment }
        ensures prepared { let kind = kind_added addition.now in
            let member = member_added addition.now in
            OnOk result (UsesPlan self.old self.new false key.now kind member) }
        ensures succeeds { let kind = kind_added addition.now in
            let member = member_added addition.now in
            IsTrue (has_plan self.old key.now kind member) → IsOk result }
        ensures err { OnErr result (self.new ≡ self.old) }
    {
        if self.is_prepared(key, addition.kind(), &addition.member()) {
            self.use_spare(key, addition);
            return Ok(());
        }
        if self.exists(key) {
            return self.add_member(alloc, key, addition);
        }
        self.make_key(alloc, key, addition)
    }

    // Writes a number or a score that is there.
    pub(super) fn write_member(&mut self, key: &Brief, addition: &Addition)
        requires { HasMemberAt addition.now (entry_at self.old key.now) }
        ensures entry { ChangesEntry self.old self.new key.now
            (λ e. Some (entry_with addition.now e)) }
        ensures moment { self.new.moment ≡ self.old.moment }
        ensures prepared { plan_at self.new ≡ plan_at self.old }
    {
        let slot = self.slots.get_mut(key).unwrap();
        slot.value.write(addition);
    }

    // Puts a new member into a value that is there. What is prepared for another member stays.
    fn add_member(
        &mut self,
        alloc: Global,
        key: &Brief,
        addition: &Addition,
    ) -> Result<(), AllocError>
        requires there { IsSome (entry_at self.old key.now) }
        requires few { count_at (entry_at self.old key.now) < member_limit }
        ensures entry { OnOk result (ChangesEntry self.old self.new key.now
            (λ e. Some (entry_with addition.now e))) }
        ensures moment { self.new.moment ≡ self.old.moment }
        ensures prepared { plan_at self.new ≡ plan_at self.old }
        ensures err { OnErr result (self.new ≡ self.old) }
    {
        let slot = self.slots.get_mut(key).unwrap();
        slot.value.add(alloc, addition)
    }

    // Makes a key that is absent.
    fn make_key(
        &mut self,
        alloc: Global,
        key: &Brief,
        addition: &Addition,
    ) -> Result<(), AllocError>
        requires { entry_at self.old key.now ≡ None }
        ensures entry { OnOk result (ChangesEntry self.old self.new key.now
            (λ e. Some (entry_with addition.now e))) }
        ensures moment { self.new.moment ≡ self.old.moment }
        ensures prepared { plan_at self.new ≡ plan_at self.old }
        ensures err { OnErr result (self.new ≡ self.old) }
    {
        let value = Stored::new(alloc, addition)?;
        make_place(&mut self.slots, &mut self.expiries, self.spares.len())?;
        insert_slot(&mut self.slots, key, value);
        Ok(())
    }

    // Puts a new member into the value in memory that was taken for it, and makes the value where
    // the key is absent.
    fn use_spare(&mut self, key: &Brief, addition: &Addition)
        requires few { count_at (entry_at self.old key.now) < member_limit }
        requires prepared { let kind = kind_added addition.now in
            let member = member_added addition.now in
            IsTrue (has_plan self.old key.now kind member) }
        ensures entry { ChangesEntry self.old self.new key.now
            (λ e. Some (entry_with addition.now e)) }
        ensures moment { self.new.moment ≡ self.old.moment }
        ensures prepared { plan_at self.new ≡ with_key key.now None (plan_at self.old) }
    {
        if self.exists(key) {
            self.put_member(key, addition);
        } else {
            self.use_key(key, addition);
        }
    }

    // Puts a new member into a value that is there, in memory that was taken for it.
    fn put_member(&mut self, key: &Brief, addition: &Addition)
        requires there { IsSome (entry_at self.old key.now) }
        requires few { count_at (entry_at self.old key.now) < member_limit }
        requires prepared { let kind = kind_added addition.now in
            let member = member_added addition.now in
            IsTrue (has_plan self.old key.now kind member) }
        ensures entry { ChangesEntry self.old self.new key.now
            (λ e. Some (entry_with addition.now e)) }
        ensures moment { self.new.moment ≡ self.old.moment }
        ensures prepared { plan_at self.new ≡ with_key key.now None (plan_at self.old) }
    {
        let Spare { value, .. } = take_spare(&mut self.spares, key);
        let slot = self.slots.get_mut(key).unwrap();
        slot.value.put_spare(addition, value);
    }

    // Makes a key that is absent, in memory that was taken for it.
    fn use_key(&mut self, key: &Brief, addition: &Addition)
        requires absent { entry_at self.old key.now ≡ None }
        requires prepared { let kind = kind_added addition.now in
            let member = member_added addition.now in
            IsTrue (has_plan self.old key.now kind member) }
        ensures entry { ChangesEntry self.old self.new key.now
            (λ e. Some (entry_with addition.now e)) }
        ensures moment { self.new.moment ≡ self.old.moment }
        ensures prepared { plan_at self.new ≡ with_key key.now None (plan_at self.old) }
    {
        let Spare { value, .. } = take_spare(&mut self.spares, key);
        insert_slot(&mut self.slots, key, Stored::made(addition, value));
    }

    // Removes a member, and with the last one the key.
    pub(super) fn remove_member(&mut self, key: &Brief, kind: ValueKind, member: &Brief)
        requires { IsSome (entry_at self.old key.now) }
        ensures entry { ChangesEntry self.old self.new key.now (entry_without kind member.now) }
        ensures moment { self.new.moment ≡ self.old.moment }
        ensures prepared { plan_at self.new ≡ plan_at self.old }
    {
        let slot = self.slots.get_mut(key).unwrap();
        let emptied = slot.value.remove(kind, member);
        remove_slot_if(&mut self.slots, &mut self.expiries, key, emptied);
    }
}
