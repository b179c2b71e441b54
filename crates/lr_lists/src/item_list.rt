ghost use Rattle.std.specs.Prelude.{◌≡◌, [], ◌∷◌, ◌++◌, ◌+◌, ◌<◌, ◌≤◌, length, IsTrue, ◌↔◌, IfOk, OnOk};
ghost use Rattle.lr_lists.specs.Items.{times, without_item};
ghost use Rattle.lr_lists.specs.Places.{item_at, range_of};

use super::counts::{
    Counts, FEW_ITEMS, count_all, count_item, count_more, reserve_items, take_out,
};
use super::places::{before_start, place_in, up_to_stop};
use lr_text::{Brief, Items, Text};
use std::alloc::{AllocError, Global};
use std::collections::VecDeque;
use std::marker::Model;

/// Items in order, of which equal ones may be there several times.
#[derive(Drop)]
pub struct ItemList {
    items: VecDeque<Brief>,
    /// How often each item is there, once there were more than a few.
    counts: Option<Box<Counts>>,
}

impl Model for ItemList {
    ghost use Rattle.lr_lists.specs.Items.{ItemTable};

    ghost Value = { ItemTable };

    ghost use Rattle.lr_lists.specs.Inside.{table_inside, IsCounted};

    ghost view = { table_inside };

    ghost invariant = { IsCounted };
}

impl ItemList {
    /// No items. It takes no memory yet.
    pub fn new(alloc: Global) -> Self
        ensures { result.items ≡ [] }
    {
        ItemList {
            items: VecDeque::new(alloc),
            counts: None,
        }
    }

    /// Makes room for so many more items. After an error the items and the room are as they were.
    pub fn reserve(&mut self, more: usize) -> Result<(), AllocError>
        ensures items { self.new.items ≡ self.old.items }
        ensures room { OnOk result (more ≤ self.new.room) }
        ensures kept { self.old.room ≤ self.new.room }
    {
        reserve_items(&mut self.items, more)?;
        if let Some(counts) = &mut self.counts {
            return counts.reserve(more);
        }
        if more > FEW_ITEMS - self.items.len() {
            let alloc = *self.items.allocator();
            let counts = count_all(alloc, &self.items, more)?;
            self.counts = Some(Box::new(alloc, counts)?);
        }
        Ok(())
    }

    /// How many items there are.
    pub fn len(&self) -> usize
        ensures { result ≡ length self.now.items }
    {
        self.items.len()
    }

    /// Whether there are none.
    pub fn is_empty(&self) -> bool
        ensures { IsTrue result ↔ (self.now.items ≡ []) }
    {
        self.items.is_empty()
    }

    /// The item at a place: from 0 at the front, and from -1 at the end.
    pub fn get(&self, place: i64) -> Option<Brief>
        ensures { result ≡ item_at place self.now.items }
    {
        let place = place_in(place, self.items.len())?;
        Some(self.items[place])
    }

    /// How many items are equal to this one. It costs a look.
    pub fn times(&self, item: &Brief) -> usize
        ensures { result ≡ times item.now self.now.items }
    {
        match &self.counts {
            Some(counts) => counts.get(item).copied().unwrap_or(0),
            None => count_item(&self.items, item),
        }
    }

    /// Puts an item last, for which there is room. It takes no memory.
    pub fn push(&mut self, item: &Brief)
        requires { 0 < self.old.room }
        ensures items { self.new.items ≡ self.old.items ++ item.now ∷ [] }
        ensures room { self.old.room ≤ self.new.room + 1 }
    {
        if let Some(counts) = &mut self.counts {
            count_more(counts, item);
        }
        self.items.push_back(*item).unwrap();
    }

    /// Removes all items that are equal to this one, and says how many they were. It takes no
    /// memory. Where there are none it costs a look, and little where the only one is the first.
    pub fn remove_all(&mut self, item: &Brief) -> usize
        ensures times { result ≡ times item.now self.old.items }
        ensures items { self.new.items ≡ without_item item.now self.old.items }
        ensures room { self.old.room ≤ self.new.room }
    {
        let count = self.times(item);
        if count == 0 {
            return 0;
        }
        take_out(&mut self.items, item, count);
        if let Some(counts) = &mut self.counts {
            counts.swap_remove(item);
        }
        count
    }

    /// The items from one place to another, both in. Places are those of `get`, and what lies past
    /// the ends is cut off.
    pub fn range(&self, alloc: Global, start: i64, stop: i64) -> Result<Items, AllocError>
        ensures { IfOk result (λ items. items ≡ range_of start stop self.now.items) }
    {
        let first = before_start(start, self.items.len());
        let end = up_to_stop(stop, self.items.len());
        let mut items = Items::new(alloc);
        for place in first..end {
            items.push(Text::of(alloc, self.items[place].as_slice())?)?;
        }
        Ok(items)
    }
}
