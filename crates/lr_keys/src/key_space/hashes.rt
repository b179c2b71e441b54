//! Calls on hashes.
ghost use Rattle.std.specs.Prelude.{◌≡◌, ◌≢◌, true, IsTrue, IfOk, OnOk, OnErr};
ghost use Rattle.lr_keys.specs.declared.addition.Addition.TheVariants.{Field};
ghost use Rattle.lr_keys.specs.KeySpace.{Answers, ChangesEntry, IsPrepared, UsesPlan, WritesField, entry_at, plan_at, has_field, hash_at, field_at, found_in, field_after_increment, entry_without_field};

use super::KeySpace;
use crate::addition::Addition;
use crate::fault::KeyFault;
use crate::field_map::checked_sum;
use crate::value_kind::ValueKind;
use lr_text::Brief;
use std::alloc::Global;

/// The fields of a hash and their numbers, in order of making.
pub type Fields = Vec<(Brief, i64)>;

// A field with its number.
fn new_field(field: &Brief, number: i64) -> Addition
    ensures { result ≡ Field field.now number }
{
    Addition::Field {
        field: *field,
        number,
    }
}

impl KeySpace {
    /// The number of a field of the hash, if the field is there. `WrongKind` where the key holds
    /// another kind.
    pub fn hget(&self, key: &Brief, field: &Brief) -> Result<Option<i64>, KeyFault>
        ensures { result ≡ field_at field.now (entry_at self.now key.now) }
    {
        match self.slot(key) {
            Some(slot) => slot.value.field(field),
            None => Ok(None),
        }
    }

    /// The fields of the hash and their numbers, in order of making. `WrongKind` where the key
    /// holds another kind, `NoMemory` where there is no memory for them.
    pub fn hgetall(&self, alloc: Global, key: &Brief) -> Result<Fields, KeyFault>
        ensures { Answers (λ fields. fields.items) result (hash_at (entry_at self.now key.now)) }
    {
        match self.slot(key) {
            Some(slot) => slot.value.pairs(alloc),
            None => Ok(Vec::new(alloc)),
        }
    }

    /// Adds to a field of the hash, and gives the sum. A field that isn't there counts as 0, and a
    /// key that isn't there becomes a hash with no expiry.
    ///
    /// `WrongKind` where the key holds another kind, `TooMany` where the new field would be one
    /// more than a key may have, `Overflow` where the sum leaves 64 signed bits. `NoMemory` comes
    /// only for a new field that isn't prepared. After an error nothing has changed.
    pub fn hincrby(
        &mut self,
        alloc: Global,
        key: &Brief,
        field: &Brief,
        by: i64,
    ) -> Result<i64, KeyFault>
        ensures answer { Answers (λ n. n) result
            (field_after_increment field.now by (hash_at (entry_at self.old key.now))) }
        ensures there { IsTrue (has_field self.old key.now field.now)
            → result ≢ Err KeyFault.NoMemory }
        ensures prepared { IsPrepared self.old key.now ValueKind.Hash field.now
            → result ≢ Err KeyFault.NoMemory }
        ensures written { IfOk result (λ n. WritesField self.old self.new key.now field.now n) }
        ensures plans { let was_there = has_field self.old key.now field.now in
            OnOk result (UsesPlan self.old self.new was_there key.now ValueKind.Hash field.now) }
        ensures moment { self.new.moment ≡ self.old.moment }
        ensures refused { OnErr result (self.new ≡ self.old) }
    {
        if let Some(number) = self.hget(key, field)? {
            let sum = checked_sum(number, by).ok_or(KeyFault::Overflow)?;
            self.write_member(key, &new_field(field, sum));
            return Ok(sum);
        }
        if !self.takes_member(key) {
            return Err(KeyFault::TooMany);
        }
        self.new_member(alloc, key, &new_field(field, by))?;
        Ok(by)
    }

    /// Removes a field of the hash, and says whether it was there. A hash that becomes empty is
    /// removed. `WrongKind` where the key holds another kind.
    pub fn hdel(&mut self, key: &Brief, field: &Brief) -> Result<bool, KeyFault>
        ensures answer { result ≡ found_in (field_at field.now (entry_at self.old key.now)) }
        ensures removed { result ≡ Ok true
            → ChangesEntry self.old self.new key.now (entry_without_field field.now) }
        ensures moment { self.new.moment ≡ self.old.moment }
        ensures prepared { plan_at self.new ≡ plan_at self.old }
        ensures absent { result ≢ Ok true → self.new ≡ self.old }
    {
        if self.hget(key, field)?.is_none() {
            return Ok(false);
        }
        self.remove_member(key, ValueKind::Hash, field);
        Ok(true)
    }
}
