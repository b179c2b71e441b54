use lr_sorted::SortedSet;
use lr_text::Brief;
use std::alloc::{AllocError, Global};
use std::test::Fail;

fn brief(text: &[u8]) -> Brief {
    Brief::of(text).unwrap_or(Brief::new())
}

// Gives a member a score, and says whether it was new.
fn put(set: &mut SortedSet, member: &[u8], score: u64) -> Result<bool, AllocError> {
    set.reserve(1)?;
    Ok(set.put(&brief(member), score))
}

// A set of these members, with the scores 1, 2, 3 and so on.
fn set_of(alloc: Global, members: &[&[u8]]) -> Result<SortedSet, AllocError> {
    let mut set = SortedSet::new(alloc);
    for (place, member) in members.iter().enumerate() {
        put(&mut set, member, place as u64 + 1)?;
    }
    Ok(set)
}

// Whether this member stands at a place, with this score.
fn has_at(set: &SortedSet, place: i64, member: &[u8], score: u64) -> bool {
    set.get(place) == Some((brief(member), score))
}

// Whether a range has so many members, from this one on to that one.
fn ranges(
    alloc: Global,
    set: &SortedSet,
    start: i64,
    stop: i64,
    count: usize,
    ends: (&[u8], &[u8]),
) -> bool {
    let Ok(members) = set.range(alloc, start, stop) else {
        return false;
    };
    match (members.first(), members.last()) {
        (Some(first), Some(last)) => {
            members.len() == count && first.0 == brief(ends.0) && last.0 == brief(ends.1)
        }
        _ => count == 0,
    }
}

// The page of ZRANGE.
fn ranges_of_the_page(alloc: Global) -> Result<bool, AllocError> {
    let set = set_of(alloc, &[b"one", b"two", b"three"])?;
    Ok(
        ranges(alloc, &set, 0, -1, 3, (b"one", b"three"))
            && ranges(alloc, &set, 2, 3, 1, (b"three", b"three"))
            && ranges(alloc, &set, -2, -1, 2, (b"two", b"three"))
            && ranges(alloc, &set, 5, 10, 0, (b"", b"")),
    )
}

// The page of ZADD: a member that is there takes the new score, and goes to its place.
fn scores_of_the_page(alloc: Global) -> Result<bool, AllocError> {
    let mut set = set_of(alloc, &[b"one"])?;
    let uno = put(&mut set, b"uno", 1)? && put(&mut set, b"two", 3)?;
    let moved = !put(&mut set, b"two", 2)? && has_at(&set, -1, b"two", 2);
    let first = !put(&mut set, b"two", 0)? && has_at(&set, 0, b"two", 0);
    Ok(uno && moved && first && set.len() == 3 && set.score(&brief(b"uno")) == Some(1))
}

// Members of one score stand in the order of their bytes, whatever came first.
fn equal_scores(alloc: Global) -> Result<bool, AllocError> {
    let mut set = SortedSet::new(alloc);
    for member in [b"b".as_slice(), b"ba", b"", b"c", b"a"] {
        put(&mut set, member, 7)?;
    }
    let ends = has_at(&set, 0, b"", 7) && has_at(&set, -1, b"c", 7);
    Ok(ends && has_at(&set, 1, b"a", 7) && has_at(&set, -2, b"ba", 7) && set.get(5).is_none())
}

// More than a few members: the same answers come from a table.
fn many(alloc: Global) -> Result<bool, AllocError> {
    let members: [&[u8]; 11] = [
        b"k", b"j", b"i", b"h", b"g", b"f", b"e", b"d", b"c", b"b", b"a",
    ];
    let mut set = set_of(alloc, &members)?;
    let places = has_at(&set, 0, b"k", 1) && has_at(&set, 5, b"f", 6) && has_at(&set, -1, b"a", 11);
    let moved = !put(&mut set, b"k", 12)? && has_at(&set, -1, b"k", 12) && has_at(&set, 0, b"j", 2);
    let gone = set.remove(&brief(b"k")) && !set.remove(&brief(b"k")) && has_at(&set, -1, b"a", 11);
    let range = ranges(alloc, &set, 1, -2, 8, (b"i", b"b"));
    Ok(places && moved && gone && range && set.len() == 10)
}

#[test]
fn answers_of_the_pages(rt: HostRuntime) -> Result<(), Fail> {
    let pages = ranges_of_the_page(rt.alloc())? && scores_of_the_page(rt.alloc())?;
    assert!(rt; pages && equal_scores(rt.alloc())? && many(rt.alloc())?);
    Ok(())
}
