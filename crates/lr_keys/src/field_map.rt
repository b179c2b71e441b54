ghost use Rattle.std.specs.Prelude.{◌≡◌, ◌+◌, ◌≤◌, ◌<◌, [], None, IsSome, IfOk, OnOk, is_some, length, map, IsTrue, ◌↔◌};
ghost use Rattle.std.specs.List.Sorted.{IsNonDecreasingBy, IsPermutation};
ghost use Rattle.lr_keys.specs.FieldMap.{field_value, with_field, without_field, sum_of};
ghost use Rattle.lr_keys.specs.PairOf.{pair_of};

use indexmap::IndexMap;
use lr_text::Brief;
use std::alloc::{AllocError, Global};
use std::marker::Model;

/// The sum, or `None` where it leaves 64 signed bits.
pub(crate) fn checked_sum(number: i64, by: i64) -> Option<i64>
    ensures { result ≡ sum_of number by }
{
    number.checked_add(by)
}

/// The number of a field, and its place in the order of making.
#[derive(Clone, Copy)]
pub(crate) struct Numbered {
    pub(crate) number: i64,
    pub(crate) order: u64,
}

fn number_of(own: &Numbered) -> i64
    ensures { result ≡ own.now.number }
{
    own.number
}

// The fields as they lie in the table.
fn copied(
    fields: &IndexMap<Brief, Numbered>,
    alloc: Global,
) -> Result<Vec<(Brief, Numbered)>, AllocError>
    ensures { IfOk result (λ copies. copies.items ≡ fields.now.entries) }
{
    fields
        .iter()
        .map(|(field, own)| (*field, *own))
        .collect(alloc)
}

// Puts the fields in order of making.
fn sort(fields: &mut Vec<(Brief, Numbered)>)
    ensures moved { IsPermutation fields.old.items fields.new.items }
    ensures sorted { IsNonDecreasingBy (λ f. f.1.order) fields.new.items }
{
    fields.sort_unstable_by_key(|(_, own)| own.order);
}

// The fields with their numbers alone.
fn numbers(fields: &Vec<(Brief, Numbered)>, alloc: Global) -> Result<Vec<(Brief, i64)>, AllocError>
    ensures { IfOk result (λ pairs. pairs.items ≡ map pair_of fields.now.items) }
{
    fields
        .iter()
        .map(|(field, own)| (*field, own.number))
        .collect(alloc)
}

/// The fields of a hash and their numbers, in order of making.
///
/// A removal moves one field at most: each field has a number of its own in the order of making,
/// and that order is restored where all fields are asked for. Such a number is never given twice:
/// when all are used up there is no room.
#[derive(Drop)]
pub(crate) struct FieldMap {
    fields: IndexMap<Brief, Numbered>,
    /// The order of the next new field, above that of all others.
    next: u64,
}

impl Model for FieldMap {
    ghost use Rattle.lr_keys.specs.FieldMap.{FieldTable};

    ghost Value = { FieldTable };

    ghost use Rattle.lr_keys.specs.FieldOrder.{field_table, AreOrdered};

    ghost view = { field_table };

    ghost invariant = { AreOrdered };
}

impl FieldMap {
    /// No fields, and room for some.
    pub(crate) fn with_room(alloc: Global, fields: usize) -> Result<Self, AllocError>
        ensures none { IfOk result (λ f. f.pairs ≡ []) }
        ensures room { IfOk result (λ f. fields ≤ f.room) }
    {
        let mut map = FieldMap {
            fields: IndexMap::new(alloc),
            next: 0,
        };
        map.reserve(fields)?;
        Ok(map)
    }

    /// Makes room for so many more fields.
    pub(crate) fn reserve(&mut self, more: usize) -> Result<(), AllocError>
        ensures same { self.new.pairs ≡ self.old.pairs }
        ensures room { OnOk result (more ≤ self.new.room) }
        ensures kept { self.old.room ≤ self.new.room }
    {
        if (more as u64) > u64::MAX - self.next {
            return Err(AllocError);
        }
        self.fields.reserve(more)
    }

    /// How many fields there are.
    pub(crate) fn len(&self) -> usize
        ensures { result ≡ length self.now.pairs }
    {
        self.fields.len()
    }

    /// Whether there are no fields.
    pub(crate) fn is_empty(&self) -> bool
        ensures { IsTrue result ↔ (self.now.pairs ≡ []) }
    {
        self.len() == 0
    }

    /// The number of a field.
    pub(crate) fn get(&self, field: &Brief) -> Option<i64>
        ensures { result ≡ field_value field.now self.now.pairs }
    {
        match self.fields.get(field) {
            Some(own) => Some(number_of(own)),
            None => None,
        }
    }

    /// Gives a field this number: in its place where it is there, and else last. A new one needs
    /// room. It takes no memory.
    pub(crate) fn put(&mut self, field: &Brief, number: i64)
        requires { field_value field.now self.old.pairs ≡ None → 0 < self.old.room }
        ensures pairs { self.new.pairs ≡ with_field field.now number self.old.pairs }
        ensures room { self.old.room ≤ self.new.room + 1 }
        ensures there { IsSome (field_value field.now self.old.pairs)
            → self.old.room ≤ self.new.room }
    {
        if self.get(field).is_some() {
            self.write(field, number);
        } else {
            self.push(field, number);
        }
    }

    // Writes the number of a field that is there.
    fn write(&mut self, field: &Brief, number: i64)
        requires { IsSome (field_value field.now self.old.pairs) }
        ensures pairs { self.new.pairs ≡ with_field field.now number self.old.pairs }
        ensures room { self.new.room ≡ self.old.room }
    {
        let own = self.fields.get_mut(field).unwrap();
        own.number = number;
    }

    // Puts a new field last, for which there is room.
    fn push(&mut self, field: &Brief, number: i64)
        requires new { field_value field.now self.old.pairs ≡ None }
        requires room { 0 < self.old.room }
        ensures pairs { self.new.pairs ≡ with_field field.now number self.old.pairs }
        ensures room { self.old.room ≤ self.new.room + 1 }
    {
        let own = Numbered {
            number,
            order: self.next,
        };
        self.fields.insert(*field, own).unwrap();
        self.next += 1;
    }

    /// Removes a field, and says whether it was there. The others keep their order.
    pub(crate) fn remove(&mut self, field: &Brief) -> bool
        ensures found { result ≡ is_some (field_value field.now self.old.pairs) }
        ensures pairs { self.new.pairs ≡ without_field field.now self.old.pairs }
        ensures room { self.old.room ≤ self.new.room }
    {
        self.fields.swap_remove(field).is_some()
    }

    /// The fields and their numbers, in order of making.
    pub(crate) fn to_pairs(&self, alloc: Global) -> Result<Vec<(Brief, i64)>, AllocError>
        ensures { IfOk result (λ fields. fields.items ≡ self.now.pairs) }
    {
        let mut fields = copied(&self.fields, alloc)?;
        sort(&mut fields);
        numbers(&fields, alloc)
    }
}
