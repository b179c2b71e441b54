ghost use Rattle.std.specs.Prelude.{◌≡◌, [], ◌∷◌, IfOk, IfErr};
ghost use Rattle.lr_keys.specs.FieldMap.{field_value};
ghost use Rattle.lr_keys.specs.KeySpace.{Answers, kind_in, hash_in, list_in, zset_in, counter_in, seen, member_count, is_empty, is_plan_for};
ghost use Rattle.lr_keys.specs.Slots.{content_of, plan_of, IsSpareFor};

use super::fault::KeyFault;
use super::field_map::FieldMap;
use super::value_kind::ValueKind;
use lr_lists::ItemList;
use lr_sorted::SortedSet;
use lr_text::Brief;
use std::alloc::{AllocError, Global};

/// The value of a key.
#[derive(Drop)]
pub(crate) enum Stored {
    /// A hash of one field, which needs no table. What is held is most often such a hash.
    Single { field: Brief, number: i64 },
    /// A hash of several fields, or one that had several.
    Hash(Box<FieldMap>),
    List(Box<ItemList>),
    Zset(Box<SortedSet>),
    Counter(i64),
}

/// A key's value and expiry.
#[derive(Drop)]
pub(crate) struct Slot {
    pub(crate) value: Stored,
    pub(crate) expiry: Option<u64>,
}

/// Memory that was taken for a new member of a key, as a key of this kind.
#[derive(Drop)]
pub(crate) struct Spare {
    pub(crate) kind: ValueKind,
    pub(crate) member: Brief,
    /// An empty value of that kind with room for two members, so that a hash of one field can take a
    /// second. No key has an empty value.
    pub(crate) value: Stored,
}

// One field and its number.
fn one_pair(alloc: Global, field: &Brief, number: i64) -> Result<Vec<(Brief, i64)>, AllocError>
    ensures { IfOk result (λ pairs. pairs.items ≡ (field.now, number) ∷ []) }
{
    Ok(vec![in alloc; (*field, number)]?)
}

impl Stored {
    pub(crate) fn kind(&self) -> ValueKind
        ensures { result ≡ kind_in (content_of self.now) }
    {
        match self {
            Stored::Single { .. } | Stored::Hash(_) => ValueKind::Hash,
            Stored::List(_) => ValueKind::List,
            Stored::Zset(_) => ValueKind::Zset,
            Stored::Counter(_) => ValueKind::Counter,
        }
    }

    /// The number of a field of a hash.
    pub(crate) fn field(&self, field: &Brief) -> Result<Option<i64>, KeyFault>
        ensures { result ≡ seen (field_value field.now) (hash_in (content_of self.now)) }
    {
        match self {
            Stored::Single { field: own, number } => Ok(if *field == *own {
                Some(*number)
            } else {
                None
            }),
            Stored::Hash(fields) => Ok(fields.get(field)),
            _ => Err(KeyFault::WrongKind),
        }
    }

    /// The fields of a hash and their numbers.
    pub(crate) fn pairs(&self, alloc: Global) -> Result<Vec<(Brief, i64)>, KeyFault>
        ensures { Answers (λ pairs. pairs.items) result (hash_in (content_of self.now)) }
    {
        match self {
            Stored::Single { field, number } => Ok(one_pair(alloc, field, *number)?),
            Stored::Hash(fields) => Ok(fields.to_pairs(alloc)?),
            _ => Err(KeyFault::WrongKind),
        }
    }

    pub(crate) fn list(&self) -> Result<&ItemList, KeyFault>
        ensures ok { IfOk result (λ l. list_in (content_of self.now) ≡ Ok l.now.items) }
        ensures err { IfErr result (λ fault. list_in (content_of self.now) ≡ Err fault) }
    {
        match self {
            Stored::List(list) => Ok(list),
            _ => Err(KeyFault::WrongKind),
        }
    }

    pub(crate) fn zset(&self) -> Result<&SortedSet, KeyFault>
        ensures ok { IfOk result (λ s. zset_in (content_of self.now) ≡ Ok s.now.members) }
        ensures err { IfErr result (λ fault. zset_in (content_of self.now) ≡ Err fault) }
    {
        match self {
            Stored::Zset(set) => Ok(set),
            _ => Err(KeyFault::WrongKind),
        }
    }

    pub(crate) fn counter(&self) -> Result<Option<i64>, KeyFault>
        ensures { result ≡ counter_in (content_of self.now) }
    {
        match self {
            Stored::Counter(number) => Ok(Some(*number)),
            _ => Err(KeyFault::WrongKind),
        }
    }

    /// How many members there are. A counter counts as one.
    pub(crate) fn members(&self) -> usize
        ensures { result ≡ member_count (content_of self.now) }
    {
        match self {
            Stored::Hash(fields) => fields.len(),
            Stored::List(list) => list.len(),
            Stored::Zset(set) => set.len(),
            Stored::Single { .. } | Stored::Counter(_) => 1,
        }
    }

    /// Whether there are none.
    pub(crate) fn is_empty(&self) -> bool
        ensures { result ≡ is_empty (content_of self.now) }
    {
        match self {
            Stored::Hash(fields) => fields.is_empty(),
            Stored::List(list) => list.is_empty(),
            Stored::Zset(set) => set.is_empty(),
            Stored::Single { .. } | Stored::Counter(_) => false,
        }
    }
}

impl Spare {
    /// The memory for one member of a key of this kind.
    pub(crate) fn new(alloc: Global, kind: ValueKind, member: &Brief) -> Result<Self, AllocError>
        ensures kind { IfOk result (λ s. s.kind ≡ kind) }
        ensures member { IfOk result (λ s. s.member ≡ member.now) }
        ensures value { IfOk result (λ s. IsSpareFor s.kind s.value) }
    {
        Ok(Spare {
            kind,
            member: *member,
            value: Stored::empty(alloc, kind)?,
        })
    }

    /// Whether this is memory for that kind and that member.
    pub(crate) fn is_for(&self, kind: ValueKind, member: &Brief) -> bool
        ensures { result ≡ is_plan_for kind member.now (Some (plan_of self.now)) }
    {
        self.kind == kind && *member == self.member
    }
}
