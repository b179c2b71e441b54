use crate::asked::{RangeLook, all_kinds, is_answered, range_look};
use lr_keys::KeySpace;
use std::alloc::{AllocError, Global};
use std::test::Fail;

// Whether these places of the list a, b, a, c are these items.
fn is_part(
    alloc: Global,
    keys: &KeySpace,
    start: i64,
    stop: i64,
    items: &[u8],
) -> Result<bool, AllocError> {
    let look = range_look(alloc, RangeLook::List, b"list", start, stop)?;
    is_answered(alloc, keys, 500, &look, items)
}

// Whether these places of the sorted set next, soon, late are these members.
fn is_sorted_part(
    alloc: Global,
    keys: &KeySpace,
    start: i64,
    stop: i64,
    members: &[u8],
) -> Result<bool, AllocError> {
    let look = range_look(alloc, RangeLook::Sorted, b"zset", start, stop)?;
    is_answered(alloc, keys, 500, &look, members)
}

fn all_items(alloc: Global, keys: &KeySpace) -> Result<bool, AllocError> {
    let all = b"*4\r\n$1\r\na\r\n$1\r\nb\r\n$1\r\na\r\n$1\r\nc\r\n";
    Ok(is_part(alloc, keys, i64::MIN, i64::MAX, all)? && is_part(alloc, keys, -4, 3, all)?)
}

fn some_items(alloc: Global, keys: &KeySpace) -> Result<bool, AllocError> {
    let middle = b"*2\r\n$1\r\nb\r\n$1\r\na\r\n";
    Ok(is_part(alloc, keys, 1, 2, middle)? && is_part(alloc, keys, -3, -2, middle)?)
}

fn one_item(alloc: Global, keys: &KeySpace) -> Result<bool, AllocError> {
    let last = b"*1\r\n$1\r\nc\r\n";
    Ok(
        is_part(alloc, keys, -1, -1, last)?
            && is_part(alloc, keys, 3, 9, last)?
            && is_part(alloc, keys, -9, 0, b"*1\r\n$1\r\na\r\n")?,
    )
}

fn no_items(alloc: Global, keys: &KeySpace) -> Result<bool, AllocError> {
    Ok(
        is_part(alloc, keys, 4, 9, b"*0\r\n")?
            && is_part(alloc, keys, 2, 1, b"*0\r\n")?
            && is_part(alloc, keys, 0, -5, b"*0\r\n")?,
    )
}

fn some_members(alloc: Global, keys: &KeySpace) -> Result<bool, AllocError> {
    let behind = b"*2\r\n$4\r\nsoon\r\n$4\r\nlate\r\n";
    Ok(
        is_sorted_part(alloc, keys, 1, i64::MAX, behind)?
            && is_sorted_part(alloc, keys, -2, -1, behind)?
            && is_sorted_part(alloc, keys, i64::MIN, 0, b"*1\r\n$4\r\nnext\r\n")?,
    )
}

fn no_members(alloc: Global, keys: &KeySpace) -> Result<bool, AllocError> {
    Ok(
        is_sorted_part(alloc, keys, 3, 3, b"*0\r\n")?
            && is_sorted_part(alloc, keys, 2, 0, b"*0\r\n")?
            && is_sorted_part(alloc, keys, 0, -4, b"*0\r\n")?,
    )
}

#[test]
fn places_of_lists(rt: HostRuntime) -> Result<(), Fail> {
    let keys = all_kinds(rt.alloc())?;
    let some = all_items(rt.alloc(), &keys)? && some_items(rt.alloc(), &keys)?;
    assert!(rt; some && one_item(rt.alloc(), &keys)? && no_items(rt.alloc(), &keys)?);
    Ok(())
}

#[test]
fn places_of_sorted_sets(rt: HostRuntime) -> Result<(), Fail> {
    let keys = all_kinds(rt.alloc())?;
    assert!(rt; some_members(rt.alloc(), &keys)? && no_members(rt.alloc(), &keys)?);
    Ok(())
}
