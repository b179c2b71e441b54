use lr_lists::ItemList;
use lr_text::Brief;
use std::alloc::{AllocError, Global};
use std::test::Fail;

fn brief(text: &[u8]) -> Brief {
    Brief::of(text).unwrap_or(Brief::new())
}

fn push(list: &mut ItemList, text: &[u8]) -> Result<(), AllocError> {
    list.reserve(1)?;
    list.push(&brief(text));
    Ok(())
}

// A list of these items.
fn list_of(alloc: Global, items: &[&[u8]]) -> Result<ItemList, AllocError> {
    let mut list = ItemList::new(alloc);
    for item in items {
        push(&mut list, item)?;
    }
    Ok(list)
}

// Whether a range has so many items, from this one on to that one.
fn ranges(
    alloc: Global,
    list: &ItemList,
    start: i64,
    stop: i64,
    count: usize,
    ends: (&[u8], &[u8]),
) -> bool {
    let Ok(items) = list.range(alloc, start, stop) else {
        return false;
    };
    let items = items.as_slice();
    match (items.first(), items.last()) {
        (Some(first), Some(last)) => {
            items.len() == count && first.as_slice() == ends.0 && last.as_slice() == ends.1
        }
        _ => count == 0,
    }
}

// The ranges of the page of LRANGE.
fn ranges_of_the_page(alloc: Global) -> Result<bool, AllocError> {
    let list = list_of(alloc, &[b"one", b"two", b"three"])?;
    Ok(
        ranges(alloc, &list, 0, 0, 1, (b"one", b"one"))
            && ranges(alloc, &list, -3, 2, 3, (b"one", b"three"))
            && ranges(alloc, &list, -100, 100, 3, (b"one", b"three"))
            && ranges(alloc, &list, 5, 10, 0, (b"", b"")),
    )
}

// The places of the page of LINDEX.
fn places_of_the_page(alloc: Global) -> Result<bool, AllocError> {
    let list = list_of(alloc, &[b"Hello", b"World"])?;
    Ok(
        list.get(0) == Some(brief(b"Hello"))
            && list.get(-1) == Some(brief(b"World"))
            && list.get(3).is_none()
            && list.get(-3).is_none(),
    )
}

// The items of the page of LREM, with count 0.
fn removals_of_the_page(alloc: Global) -> Result<bool, AllocError> {
    let mut list = list_of(alloc, &[b"hello", b"hello", b"foo", b"hello"])?;
    let none = list.remove_all(&brief(b"bar")) == 0 && list.len() == 4;
    let all = list.remove_all(&brief(b"hello")) == 3 && list.len() == 1;
    Ok(none && all && list.get(0) == Some(brief(b"foo")))
}

// Removes an item from a list that counts, and says whether the next one is first then.
fn counts(alloc: Global) -> Result<bool, AllocError> {
    let items: [&[u8]; 11] = [
        b"a", b"b", b"c", b"d", b"e", b"f", b"g", b"h", b"i", b"j", b"c",
    ];
    let mut list = list_of(alloc, &items)?;
    let twice = list.times(&brief(b"c")) == 2 && list.remove_all(&brief(b"c")) == 2;
    let front = list.remove_all(&brief(b"a")) == 1 && list.get(0) == Some(brief(b"b"));
    Ok(twice && front && list.remove_all(&brief(b"a")) == 0 && list.len() == 8)
}

#[test]
fn answers_of_the_pages(rt: HostRuntime) -> Result<(), Fail> {
    let pages = ranges_of_the_page(rt.alloc())? && places_of_the_page(rt.alloc())?;
    assert!(rt; pages && removals_of_the_page(rt.alloc())? && counts(rt.alloc())?);
    Ok(())
}
