//! How often each item is there.
ghost use Rattle.std.specs.Prelude.{◌≡◌, ℕ, List, [], ◌∷◌, ◌+◌, ◌<◌, ◌≤◌, ◌^◌, length, IfSome, IfOk, OnOk};
ghost use Rattle.std.specs.Str.{bytes_eq};
ghost use Rattle.std.specs.VecDeque.{deque_len, deque_capacity};
ghost use Rattle.indexmap.specs.IndexMap.{get, spare};
ghost use Rattle.lr_lists.specs.Items.{times, without_item};
ghost use Rattle.lr_lists.specs.Counts.{count_in, IsAt, IsCountOf};

use indexmap::IndexMap;
use lr_text::Brief;
use std::alloc::{AllocError, Global};
use std::collections::VecDeque;

// A list of so many items or fewer has no table of counts, which takes more memory than they do.
pub(crate) const FEW_ITEMS: usize = 8;

/// How often each item is there.
pub(crate) type Counts = IndexMap<Brief, usize>;

// Makes room for so many more items, and for half as many as there are where there is too little: a
// short list takes no more than it needs, and all growths together move each item a few times.
pub(crate) fn reserve_items(items: &mut VecDeque<Brief>, more: usize) -> Result<(), AllocError>
    ensures items { items.new.items ≡ items.old.items }
    ensures len { deque_len items.new ≡ deque_len items.old }
    ensures room { OnOk result (deque_len items.new + more ≤ deque_capacity items.new) }
    ensures kept { deque_capacity items.old ≤ deque_capacity items.new }
{
    if items.capacity().saturating_sub(items.len()) >= more {
        return Ok(());
    }
    let wanted = (items.len() / 2).max(more);
    items.reserve_exact(wanted)
}

// Goes through the items.
pub(crate) fn count_item(items: &VecDeque<Brief>, item: &Brief) -> usize
    ensures times { result ≡ times item.now items.now.items }
    ensures few { result ≤ length items.now.items }
{
    let mut count = 0;
    for place in 0..items.len() {
        if *item == items[place] {
            count += 1;
        }
    }
    count
}

// Counts an item once more, for which there is room.
pub(crate) fn count_more(counts: &mut Counts, item: &Brief)
    requires room { 0 < spare counts.old }
    requires few { count_in counts.old item.now < 2 ^ 63 }
    ensures counts { (q : List ℕ) → count_in counts.new q
        ≡ count_in counts.old q + times q (item.now ∷ []) }
    ensures room { spare counts.old ≤ spare counts.new + 1 }
{
    let count = counts.get(item).copied().unwrap_or(0);
    counts.insert(*item, count + 1).unwrap();
}

// Counts all items, with room for so many more.
pub(crate) fn count_all(
    alloc: Global,
    items: &VecDeque<Brief>,
    more: usize,
) -> Result<Counts, AllocError>
    ensures counts { IfOk result (λ counts. IsCountOf items.now.items counts) }
    ensures room { IfOk result (λ counts. more ≤ spare counts) }
{
    let room = items.len().checked_add(more).ok_or(AllocError)?;
    let mut counts = IndexMap::with_capacity(alloc, room)?;
    for place in 0..items.len() {
        count_more(&mut counts, &items[place]);
    }
    Ok(counts)
}

// The place of the first item that is equal to this one.
fn place_of(items: &VecDeque<Brief>, item: &Brief) -> Option<usize>
    ensures { IfSome result (λ place. IsAt item.now items.now.items place) }
{
    for place in 0..items.len() {
        if *item == items[place] {
            return Some(place);
        }
    }
    None
}

// Takes all items out that are equal to this one, which are so many. Where there is one alone,
// those behind it aren't looked at, and those before it or behind it are moved, whichever are fewer.
pub(crate) fn take_out(items: &mut VecDeque<Brief>, item: &Brief, count: usize)
    requires { times item.now items.old.items ≡ count }
    ensures items { items.new.items ≡ without_item item.now items.old.items }
    ensures capacity { deque_capacity items.new ≡ deque_capacity items.old }
{
    let place = place_of(items, item);
    match place {
        Some(place) if count == 1 => take_one(items, item, place),
        _ => take_all(items, item),
    }
}

// Takes the only item out that is equal to this one.
fn take_one(items: &mut VecDeque<Brief>, item: &Brief, place: usize)
    requires once { times item.now items.old.items ≡ 1 }
    requires at { IsAt item.now items.old.items place }
    ensures items { items.new.items ≡ without_item item.now items.old.items }
    ensures capacity { deque_capacity items.new ≡ deque_capacity items.old }
{
    let _gone = items.remove(place);
}

// Takes all items out that are equal to this one.
fn take_all(items: &mut VecDeque<Brief>, item: &Brief)
    ensures items { items.new.items ≡ without_item item.now items.old.items }
    ensures capacity { deque_capacity items.new ≡ deque_capacity items.old }
{
    items.retain(|other| item != other);
}
