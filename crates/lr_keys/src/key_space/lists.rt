//! Calls on lists.
ghost use Rattle.std.specs.Prelude.{◌≡◌, ◌≢◌, ◌<◌, [], None, false, length, IfOk, IfErr, IfSome, OnOk, OnErr};
ghost use Rattle.lr_lists.specs.Items.{times};
ghost use Rattle.lr_lists.specs.Places.{item_at, range_of};
ghost use Rattle.lr_keys.specs.KeySpace.{Answers, ChangesEntry, IsPrepared, UsesPlan, WritesItem, entry_at, plan_at, list_at, seen, times_at, length_after_push, entry_without_item};

use super::KeySpace;
use crate::addition::Addition;
use crate::fault::KeyFault;
use crate::value_kind::ValueKind;
use lr_limits::MOST_MEMBERS;
use lr_lists::ItemList;
use lr_text::{Brief, Items};
use std::alloc::Global;

impl KeySpace {
    /// Puts an item behind the last one of the list, and gives the new length. A key that isn't
    /// there becomes a list with no expiry.
    ///
    /// `WrongKind` where the key holds another kind, `TooMany` where the item would be one more than
    /// a key may have. `NoMemory` comes only for an item that isn't prepared. After an error nothing
    /// has changed.
    pub fn rpush(&mut self, alloc: Global, key: &Brief, item: &Brief) -> Result<u64, KeyFault>
        ensures answer { Answers (λ n. n) result
            (length_after_push (list_at (entry_at self.old key.now))) }
        ensures prepared { IsPrepared self.old key.now ValueKind.List item.now
            → result ≢ Err KeyFault.NoMemory }
        ensures written { OnOk result (WritesItem self.old self.new key.now item.now) }
        ensures plans { OnOk result
            (UsesPlan self.old self.new false key.now ValueKind.List item.now) }
        ensures moment { self.new.moment ≡ self.old.moment }
        ensures refused { OnErr result (self.new ≡ self.old) }
    {
        let items = self.llen(key)?;
        if items >= MOST_MEMBERS as u64 {
            return Err(KeyFault::TooMany);
        }
        self.new_member(alloc, key, &Addition::Item { item: *item })?;
        Ok(items + 1)
    }

    /// The item at a place of the list, if there is one: places count from 0 at the front, and from
    /// -1 at the end. `WrongKind` where the key holds another kind.
    pub fn lindex(&self, key: &Brief, at: i64) -> Result<Option<Brief>, KeyFault>
        ensures { result ≡ seen (item_at at) (list_at (entry_at self.now key.now)) }
    {
        match self.list(key)? {
            Some(list) => Ok(list.get(at)),
            None => Ok(None),
        }
    }

    /// How many items the list has. `WrongKind` where the key holds another kind.
    pub fn llen(&self, key: &Brief) -> Result<u64, KeyFault>
        ensures { result ≡ seen length (list_at (entry_at self.now key.now)) }
    {
        match self.list(key)? {
            Some(list) => Ok(list.len() as u64),
            None => Ok(0),
        }
    }

    /// The items of the list from one place to another, both in. Places are those of
    /// [`lindex`](KeySpace::lindex), and what lies past the ends is cut off. `WrongKind` where the
    /// key holds another kind, `NoMemory` where there is no memory for them.
    pub fn lrange(
        &self,
        alloc: Global,
        key: &Brief,
        start: i64,
        stop: i64,
    ) -> Result<Items, KeyFault>
        ensures { Answers (λ items. items) result
            (seen (range_of start stop) (list_at (entry_at self.now key.now))) }
    {
        match self.list(key)? {
            Some(list) => Ok(list.range(alloc, start, stop)?),
            None => Ok(Items::new(alloc)),
        }
    }

    /// Removes all items of the list that are equal to this one, and says how many they were. A list
    /// that becomes empty is removed. `WrongKind` where the key holds another kind.
    pub fn lrem(&mut self, key: &Brief, item: &Brief) -> Result<u64, KeyFault>
        ensures answer { result ≡ times_at item.now (entry_at self.old key.now) }
        ensures removed { IfOk result (λ n. 0 < n
            → ChangesEntry self.old self.new key.now (entry_without_item item.now)) }
        ensures moment { self.new.moment ≡ self.old.moment }
        ensures prepared { plan_at self.new ≡ plan_at self.old }
        ensures none { IfOk result (λ n. n ≡ 0 → self.new ≡ self.old) }
        ensures refused { OnErr result (self.new ≡ self.old) }
    {
        let times = self.times(key, item)?;
        if times > 0 {
            self.remove_member(key, ValueKind::List, item);
        }
        Ok(times)
    }

    // How many items of the list are equal to this one.
    fn times(&self, key: &Brief, item: &Brief) -> Result<u64, KeyFault>
        ensures { result ≡ times_at item.now (entry_at self.now key.now) }
    {
        match self.list(key)? {
            Some(list) => Ok(list.times(item) as u64),
            None => Ok(0),
        }
    }

    // The list at the key, if the key is there.
    fn list(&self, key: &Brief) -> Result<Option<&ItemList>, KeyFault>
        ensures some { IfOk result (λ found. IfSome found
            (λ list. list_at (entry_at self.now key.now) ≡ Ok list.now.items)) }
        ensures none { result ≡ Ok None → list_at (entry_at self.now key.now) ≡ Ok [] }
        ensures err { IfErr result (λ fault. list_at (entry_at self.now key.now) ≡ Err fault) }
    {
        match self.slot(key) {
            Some(slot) => Ok(Some(slot.value.list()?)),
            None => Ok(None),
        }
    }
}
