//! What calls put into the value of a key and take from it.
ghost use Rattle.std.specs.Prelude.{◌≡◌, [], None, false, ◌≤◌, IsTrue, IfOk, OnOk, OnErr};
ghost use Rattle.lr_sorted.specs.Members.{score_of};
ghost use Rattle.lr_keys.specs.Addition.{kind_added, content_made, content_with, content_without};
ghost use Rattle.lr_keys.specs.Content.{hash_in, zset_in, is_empty, content_with_field, content_with_item, content_with_member, content_without_field, content_without_item, content_without_member};
ghost use Rattle.lr_keys.specs.FieldMap.{field_value};
ghost use Rattle.lr_keys.specs.KeySpace.{is_there, seen};
ghost use Rattle.lr_keys.specs.Slots.{content_of, HasMember, HasRoom, HasRoomFor, IsSpareFor, single_of};

use super::addition::Addition;
use super::field_map::FieldMap;
use super::slot::Stored;
use super::value_kind::ValueKind;
use lr_lists::ItemList;
use lr_sorted::SortedSet;
use lr_text::Brief;
use std::alloc::{AllocError, Global};

// An empty hash with room for so many fields.
fn empty_hash(alloc: Global, fields: usize) -> Result<Box<FieldMap>, AllocError>
    ensures none { IfOk result (λ f. f.value.pairs ≡ []) }
    ensures room { IfOk result (λ f. fields ≤ f.value.room) }
{
    let fields = FieldMap::with_room(alloc, fields)?;
    Ok(Box::new(alloc, fields)?)
}

// An empty list with room for two items.
fn empty_list(alloc: Global) -> Result<Box<ItemList>, AllocError>
    ensures none { IfOk result (λ l. l.value.items ≡ []) }
    ensures room { IfOk result (λ l. 2 ≤ l.value.room) }
{
    let mut list = ItemList::new(alloc);
    list.reserve(2)?;
    Ok(Box::new(alloc, list)?)
}

// An empty sorted set with room for two members.
fn empty_zset(alloc: Global) -> Result<Box<SortedSet>, AllocError>
    ensures none { IfOk result (λ s. s.value.members ≡ []) }
    ensures room { IfOk result (λ s. 2 ≤ s.value.room) }
{
    let mut set = SortedSet::new(alloc);
    set.reserve(2)?;
    Ok(Box::new(alloc, set)?)
}

impl Stored {
    /// An empty value of this kind with room for two members.
    pub(crate) fn empty(alloc: Global, kind: ValueKind) -> Result<Self, AllocError>
        ensures { IfOk result (λ v. IsSpareFor kind v) }
    {
        Ok(match kind {
            ValueKind::Hash => Stored::Hash(empty_hash(alloc, 2)?),
            ValueKind::List => Stored::List(empty_list(alloc)?),
            ValueKind::Zset => Stored::Zset(empty_zset(alloc)?),
            ValueKind::Counter => Stored::Counter(0),
        })
    }

    /// The value of a new key, in memory that was taken for it. It has room for one member more.
    pub(crate) fn made(addition: &Addition, spare: Stored) -> Self
        requires { IsSpareFor (kind_added addition.now) spare }
        ensures value { content_of result ≡ content_made addition.now }
        ensures room { HasRoom result }
    {
        if let Addition::Field { field, number } = addition {
            return Stored::Single {
                field: *field,
                number: *number,
            };
        }
        let mut value = spare;
        value.put(addition);
        value
    }

    /// The value of a new key. It takes memory, and has room for one member more.
    pub(crate) fn new(alloc: Global, addition: &Addition) -> Result<Self, AllocError>
        ensures value { IfOk result (λ v. content_of v ≡ content_made addition.now) }
        ensures room { IfOk result (λ v. HasRoom v) }
    {
        if let Addition::Field { field, number } = addition {
            return Ok(Stored::Single {
                field: *field,
                number: *number,
            });
        }
        let spare = Stored::empty(alloc, addition.kind())?;
        Ok(Stored::made(addition, spare))
    }

    /// Makes room for so many new members. What has no table gets one that was taken for it, once it
    /// has a second field.
    pub(crate) fn make_room(&mut self, more: usize) -> Result<(), AllocError>
        ensures value { content_of self.new ≡ content_of self.old }
        ensures wide { single_of self.new ≡ single_of self.old }
        ensures room { OnOk result (HasRoomFor more self.new) }
        ensures kept { HasRoom self.old → HasRoom self.new }
    {
        match self {
            Stored::Hash(fields) => fields.reserve(more),
            Stored::List(list) => list.reserve(more),
            Stored::Zset(set) => set.reserve(more),
            Stored::Single { .. } | Stored::Counter(_) => Ok(()),
        }
    }

    /// Writes a number or a score that is there. It takes no memory.
    pub(crate) fn write(&mut self, addition: &Addition)
        requires { HasMember addition.now (content_of self.old) }
        ensures value { content_of self.new ≡ content_with addition.now (content_of self.old) }
        ensures room { HasRoom self.old → HasRoom self.new }
    {
        match addition {
            Addition::Field { field, number } => self.write_field(field, *number),
            Addition::Member { member, score } => self.write_score(member, *score),
            Addition::Number { number } => *self = Stored::Counter(*number),
            Addition::Item { .. } => {}
        }
    }

    // Puts a new member into a table that has room for it.
    fn put(&mut self, addition: &Addition)
        requires room { HasRoom self.old }
        requires wide { kind_added addition.now ≡ ValueKind.Hash → single_of self.old ≡ None }
        ensures value { content_of self.new ≡ content_with addition.now (content_of self.old) }
        ensures room { HasRoomFor 2 self.old → HasRoom self.new }
    {
        match addition {
            Addition::Field { field, number } => self.put_field(field, *number),
            Addition::Item { item } => self.put_item(item),
            Addition::Member { member, score } => self.put_score(member, *score),
            Addition::Number { number } => *self = Stored::Counter(*number),
        }
    }

    /// Puts a new member into the value. It takes memory, and leaves room for one member more.
    pub(crate) fn add(&mut self, alloc: Global, addition: &Addition) -> Result<(), AllocError>
        ensures ok { OnOk result
            (content_of self.new ≡ content_with addition.now (content_of self.old)) }
        ensures err { OnErr result (content_of self.new ≡ content_of self.old) }
        ensures room { HasRoom self.old → HasRoom self.new }
    {
        if self.single().is_some() {
            self.widen(empty_hash(alloc, 3)?);
        }
        self.make_room(2)?;
        self.put(addition);
        Ok(())
    }

    /// Puts a new member into the value, for which there is room in its table. A hash of one field
    /// gets the table that was taken for it.
    pub(crate) fn put_spare(&mut self, addition: &Addition, spare: Stored)
        requires room { HasRoom self.old }
        requires spare { IsSpareFor (kind_added addition.now) spare }
        ensures { content_of self.new ≡ content_with addition.now (content_of self.old) }
    {
        if let Stored::Hash(table) = spare {
            self.widen(table);
        }
        self.put(addition);
    }

    /// Removes a member, and says whether it was the last one. A hash of one field stays as it is
    /// where that is removed.
    pub(crate) fn remove(&mut self, kind: ValueKind, member: &Brief) -> bool
        ensures value { result ≡ false → content_of self.new
            ≡ content_without kind member.now (content_of self.old) }
        ensures empty { result ≡ is_empty (content_without kind member.now (content_of self.old)) }
        ensures room { HasRoom self.old → HasRoom self.new }
    {
        if let Stored::Single { field, .. } = self {
            return kind == ValueKind::Hash && *member == *field;
        }
        self.take(kind, member);
        self.is_empty()
    }

    // Removes a member from a table.
    fn take(&mut self, kind: ValueKind, member: &Brief)
        requires { single_of self.old ≡ None }
        ensures value { content_of self.new ≡ content_without kind member.now (content_of self.old) }
        ensures room { HasRoom self.old → HasRoom self.new }
    {
        match kind {
            ValueKind::Hash => self.take_field(member),
            ValueKind::List => self.take_items(member),
            ValueKind::Zset => self.take_scored(member),
            ValueKind::Counter => {}
        }
    }

    // The field and the number of a hash with no table.
    fn single(&self) -> Option<(Brief, i64)>
        ensures { result ≡ single_of self.now }
    {
        match self {
            Stored::Single { field, number } => Some((*field, *number)),
            _ => None,
        }
    }

    // Gives a hash of one field this empty table.
    fn widen(&mut self, table: Box<FieldMap>)
        requires empty { table.value.pairs ≡ [] }
        requires two { 2 ≤ table.value.room }
        ensures value { content_of self.new ≡ content_of self.old }
        ensures wide { single_of self.new ≡ None }
        ensures room { HasRoom self.old → HasRoom self.new }
    {
        let Some((field, number)) = self.single() else {
            return;
        };
        let mut fields = table;
        fields.put(&field, number);
        *self = Stored::Hash(fields);
    }

    // Writes the number of a field that is there.
    fn write_field(&mut self, field: &Brief, number: i64)
        requires { IsTrue (is_there (seen (field_value field.now) (hash_in (content_of self.old)))) }
        ensures value { content_of self.new
            ≡ content_with_field field.now number (content_of self.old) }
        ensures room { HasRoom self.old → HasRoom self.new }
    {
        match self {
            Stored::Single { number: own, .. } => *own = number,
            Stored::Hash(fields) => fields.put(field, number),
            _ => {}
        }
    }

    // Writes the score of a member that is there.
    fn write_score(&mut self, member: &Brief, score: u64)
        requires { IsTrue (is_there (seen (score_of member.now) (zset_in (content_of self.old)))) }
        ensures value { content_of self.new
            ≡ content_with_member member.now score (content_of self.old) }
        ensures room { HasRoom self.old → HasRoom self.new }
    {
        if let Stored::Zset(set) = self {
            set.put(member, score);
        }
    }

    // Puts a field into the table of a hash.
    fn put_field(&mut self, field: &Brief, number: i64)
        requires room { HasRoom self.old }
        requires wide { single_of self.old ≡ None }
        ensures value { content_of self.new
            ≡ content_with_field field.now number (content_of self.old) }
        ensures room { HasRoomFor 2 self.old → HasRoom self.new }
    {
        if let Stored::Hash(fields) = self {
            fields.put(field, number);
        }
    }

    // Puts an item last in a list.
    fn put_item(&mut self, item: &Brief)
        requires { HasRoom self.old }
        ensures value { content_of self.new ≡ content_with_item item.now (content_of self.old) }
        ensures room { HasRoomFor 2 self.old → HasRoom self.new }
    {
        if let Stored::List(list) = self {
            list.push(item);
        }
    }

    // Puts a member with its score into a sorted set.
    fn put_score(&mut self, member: &Brief, score: u64)
        requires { HasRoom self.old }
        ensures value { content_of self.new
            ≡ content_with_member member.now score (content_of self.old) }
        ensures room { HasRoomFor 2 self.old → HasRoom self.new }
    {
        if let Stored::Zset(set) = self {
            set.put(member, score);
        }
    }

    // Removes a field from the table of a hash.
    fn take_field(&mut self, field: &Brief)
        requires { single_of self.old ≡ None }
        ensures value { content_of self.new ≡ content_without_field field.now (content_of self.old) }
        ensures room { HasRoom self.old → HasRoom self.new }
    {
        if let Stored::Hash(fields) = self {
            fields.remove(field);
        }
    }

    // Removes all items that are equal to this one from a list.
    fn take_items(&mut self, item: &Brief)
        ensures value { content_of self.new ≡ content_without_item item.now (content_of self.old) }
        ensures room { HasRoom self.old → HasRoom self.new }
    {
        if let Stored::List(list) = self {
            list.remove_all(item);
        }
    }

    // Removes a member from a sorted set.
    fn take_scored(&mut self, member: &Brief)
        ensures value { content_of self.new
            ≡ content_without_member member.now (content_of self.old) }
        ensures room { HasRoom self.old → HasRoom self.new }
    {
        if let Stored::Zset(set) = self {
            set.remove(member);
        }
    }
}
