use lr_keys::{KeyFault, KeySpace, ValueKind};
use lr_limits::{LAST_MOMENT, LONGEST_LEASE, MOST_MEMBERS};
use lr_text::Brief;
use std::alloc::{AllocError, Global};
use std::test::Fail;

fn brief(text: &[u8]) -> Brief {
    Brief::of(text).unwrap_or(Brief::new())
}

// Whether the field has this sum after an increment.
fn counts(
    alloc: Global,
    keys: &mut KeySpace,
    hash: &Brief,
    field: &Brief,
    by: i64,
    sum: i64,
) -> bool {
    keys.hincrby(alloc, hash, field, by) == Ok(sum) && keys.hget(hash, field) == Ok(Some(sum))
}

// Whether these are the fields of a hash.
fn has_fields(alloc: Global, keys: &KeySpace, hash: &Brief, fields: &[(Brief, i64)]) -> bool {
    match keys.hgetall(alloc, hash) {
        Ok(found) => found.as_slice() == fields && keys.kind_of(hash) == Some(ValueKind::Hash),
        Err(_) => false,
    }
}

// Whether a field that isn't there counts as 0, and the fields stay in order of making.
fn fields_count(
    alloc: Global,
    keys: &mut KeySpace,
    hash: &Brief,
    one: &Brief,
    two: &Brief,
) -> bool {
    counts(alloc, keys, hash, one, 5, 5)
        && counts(alloc, keys, hash, two, -1, -1)
        && counts(alloc, keys, hash, one, -7, -2)
        && has_fields(alloc, keys, hash, &[(*one, -2), (*two, -1)])
}

// Whether a removal answers so, and leaves the hash there or not.
fn removes(keys: &mut KeySpace, hash: &Brief, field: &Brief, removed: bool, exists: bool) -> bool {
    keys.hdel(hash, field) == Ok(removed) && keys.exists(hash) == exists
}

// Whether a hash goes with its last field.
fn goes_when_empty(keys: &mut KeySpace, hash: &Brief, one: &Brief, two: &Brief) -> bool {
    removes(keys, hash, one, true, true)
        && removes(keys, hash, one, false, true)
        && removes(keys, hash, two, true, false)
}

#[test]
fn hashes(rt: HostRuntime) -> Result<(), Fail> {
    let mut keys = KeySpace::new(rt.alloc())?;
    let (hash, one, two) = (brief(b"hash"), brief(b"one"), brief(b"two"));
    let counted = fields_count(rt.alloc(), &mut keys, &hash, &one, &two);
    assert!(rt; counted && goes_when_empty(&mut keys, &hash, &one, &two));
    Ok(())
}

// Makes a hash with a field of 1, and a counter with the greatest number.
fn make(alloc: Global, keys: &mut KeySpace, hash: &Brief, field: &Brief, counter: &Brief) -> bool {
    keys.hincrby(alloc, hash, field, 1) == Ok(1) && keys.incrby(counter, i64::MAX) == Ok(i64::MAX)
}

// Whether a hash and a counter refuse what they can't take.
fn refuses(alloc: Global, keys: &mut KeySpace, hash: &Brief, one: &Brief, counter: &Brief) -> bool {
    keys.incrby(counter, 1) == Err(KeyFault::Overflow)
        && keys.incrby(hash, 1) == Err(KeyFault::WrongKind)
        && keys.hincrby(alloc, counter, one, 1) == Err(KeyFault::WrongKind)
}

// Whether they are as they were made.
fn are_as_made(keys: &KeySpace, hash: &Brief, one: &Brief, counter: &Brief) -> bool {
    keys.get(counter) == Ok(Some(i64::MAX)) && keys.hget(hash, one) == Ok(Some(1))
}

#[test]
fn refusals(rt: HostRuntime) -> Result<(), Fail> {
    let mut keys = KeySpace::new(rt.alloc())?;
    let (hash, one, counter) = (brief(b"hash"), brief(b"one"), brief(b"counter"));
    let made = make(rt.alloc(), &mut keys, &hash, &one, &counter);
    let refused = refuses(rt.alloc(), &mut keys, &hash, &one, &counter);
    assert!(rt; made && refused && are_as_made(&keys, &hash, &one, &counter));
    Ok(())
}

// Whether a key has so many milliseconds left at a moment.
fn has_left(keys: &mut KeySpace, moment: u64, key: &Brief, millis: i64) -> bool {
    keys.advance(moment.min(LAST_MOMENT));
    keys.pttl(key) == millis
}

// Whether a key that was given 500 milliseconds at 1,000 is gone from 1,500 on, and no moment goes
// back.
fn expires(keys: &mut KeySpace, lock: &Brief) -> bool {
    has_left(keys, 1_000, lock, -1)
        && keys.pexpire(lock, 500)
        && has_left(keys, 1_499, lock, 1)
        && has_left(keys, 1_500, lock, -2)
        && has_left(keys, 7, lock, -2)
        && keys.moment() == 1_500
}

#[test]
fn expiry(rt: HostRuntime) -> Result<(), Fail> {
    let mut keys = KeySpace::new(rt.alloc())?;
    let (lock, lasting) = (brief(b"lock"), brief(b"lasting"));
    let made = keys.incrby(&lock, 3) == Ok(3) && keys.incrby(&lasting, 3) == Ok(3);
    assert!(rt; made && expires(&mut keys, &lock) && keys.pttl(&lasting) == -1);
    Ok(())
}

// Takes the memory for a field of a hash, and for a counter.
fn prepare(
    alloc: Global,
    keys: &mut KeySpace,
    lock: &Brief,
    owner: &Brief,
    number: &Brief,
) -> Result<(), AllocError> {
    keys.prepare(alloc, lock, ValueKind::Hash, owner)?;
    keys.prepare(alloc, number, ValueKind::Counter, &Brief::new())
}

// Whether what was prepared serves the first call that makes the member, though the key was made
// and removed before.
fn serves(alloc: Global, keys: &mut KeySpace, lock: &Brief, owner: &Brief, number: &Brief) -> bool {
    keys.hincrby(alloc, lock, number, 1) == Ok(1)
        && keys.del(lock)
        && counts(alloc, keys, lock, owner, 1, 1)
        && keys.incrby(number, 3) == Ok(3)
}

#[test]
fn prepared_memory(rt: HostRuntime) -> Result<(), Fail> {
    let mut keys = KeySpace::new(rt.alloc())?;
    let (lock, owner, number) = (brief(b"lock"), brief(b"owner"), brief(b"number"));
    prepare(rt.alloc(), &mut keys, &lock, &owner, &number)?;
    let served = serves(rt.alloc(), &mut keys, &lock, &owner, &number);
    keys.settle();
    assert!(rt; served && keys.get(&number) == Ok(Some(3)));
    Ok(())
}

// Whether a hash of one field takes a second by the memory that was prepared for it, and keeps the
// order, also once the first is removed and made again.
fn takes_second(
    alloc: Global,
    keys: &mut KeySpace,
    hash: &Brief,
    one: &Brief,
    two: &Brief,
) -> bool {
    keys.hincrby(alloc, hash, one, 1) == Ok(1)
        && keys.hincrby(alloc, hash, two, 2) == Ok(2)
        && has_fields(alloc, keys, hash, &[(*one, 1), (*two, 2)])
        && removes(keys, hash, one, true, true)
        && keys.hincrby(alloc, hash, one, 3) == Ok(3)
        && has_fields(alloc, keys, hash, &[(*two, 2), (*one, 3)])
}

#[test]
fn second_field(rt: HostRuntime) -> Result<(), Fail> {
    let mut keys = KeySpace::new(rt.alloc())?;
    let (hash, one, two) = (brief(b"hash"), brief(b"one"), brief(b"two"));
    keys.prepare(rt.alloc(), &hash, ValueKind::Hash, &two)?;
    assert!(rt; takes_second(rt.alloc(), &mut keys, &hash, &one, &two));
    Ok(())
}

// Makes a key with a field, which expires in so many milliseconds.
fn make_expiring(
    alloc: Global,
    keys: &mut KeySpace,
    key: &Brief,
    field: &Brief,
    millis: u64,
) -> bool {
    keys.hincrby(alloc, key, field, 1) == Ok(1) && keys.pexpire(key, millis.clamp(1, LONGEST_LEASE))
}

// Whether the least expiry is 3, then 5 from moment 3 on, when the second key is gone, and none
// once the first one is removed.
fn expire_in_turn(keys: &mut KeySpace, first: &Brief, second: &Brief) -> bool {
    let before = keys.next_expiry() == Some(3);
    keys.advance(3);
    let at_three = keys.next_expiry() == Some(5) && !keys.exists(second);
    keys.del(first);
    before && at_three && keys.next_expiry().is_none()
}

#[test]
fn next_expiry(rt: HostRuntime) -> Result<(), Fail> {
    let mut keys = KeySpace::new(rt.alloc())?;
    let (first, second, field) = (brief(b"k1"), brief(b"k2"), brief(b"f"));
    let made = make_expiring(rt.alloc(), &mut keys, &first, &field, 5)
        && make_expiring(rt.alloc(), &mut keys, &second, &field, 3);
    assert!(rt; made && expire_in_turn(&mut keys, &first, &second));
    Ok(())
}

// Whether an item is put last in a list, which then is so long.
fn pushes(alloc: Global, keys: &mut KeySpace, list: &Brief, item: &[u8], length: u64) -> bool {
    keys.rpush(alloc, list, &brief(item)) == Ok(length)
}

// Whether an item stands at a place of a list.
fn is_at(keys: &KeySpace, list: &Brief, place: i64, item: &[u8]) -> bool {
    keys.lindex(list, place) == Ok(Some(brief(item)))
}

// Whether a range of a list begins with an item and has so many.
fn ranges(
    alloc: Global,
    keys: &KeySpace,
    list: &Brief,
    start: i64,
    stop: i64,
    first: Option<&[u8]>,
    length: usize,
) -> bool {
    match keys.lrange(alloc, list, start, stop) {
        Ok(items) => items.len() == length && items.get(0).map(|item| item.as_slice()) == first,
        Err(_) => false,
    }
}

// Whether a list is made of three items, as the page of LRANGE makes it.
fn makes_list(alloc: Global, keys: &mut KeySpace, list: &Brief) -> bool {
    pushes(alloc, keys, list, b"one", 1)
        && pushes(alloc, keys, list, b"two", 2)
        && pushes(alloc, keys, list, b"three", 3)
}

// Whether its places count from 0 and from -1, and there is none past the ends.
fn has_places(keys: &KeySpace, list: &Brief) -> bool {
    is_at(keys, list, 0, b"one")
        && is_at(keys, list, -1, b"three")
        && keys.lindex(list, 3) == Ok(None)
        && keys.lindex(list, -4) == Ok(None)
        && keys.llen(list) == Ok(3)
}

// Whether its ranges are those of the page of LRANGE.
fn has_ranges(alloc: Global, keys: &KeySpace, list: &Brief) -> bool {
    ranges(alloc, keys, list, 0, 0, Some(b"one".as_slice()), 1)
        && ranges(alloc, keys, list, -3, 2, Some(b"one".as_slice()), 3)
        && ranges(alloc, keys, list, -100, 100, Some(b"one".as_slice()), 3)
        && ranges(alloc, keys, list, 5, 10, None, 0)
}

// Whether all equal items go at once, and the list with the last one.
fn loses_items(alloc: Global, keys: &mut KeySpace, list: &Brief) -> bool {
    pushes(alloc, keys, list, b"one", 4)
        && keys.lrem(list, &brief(b"one")) == Ok(2)
        && keys.lrem(list, &brief(b"one")) == Ok(0)
        && is_at(keys, list, 0, b"two")
        && keys.lrem(list, &brief(b"two")) == Ok(1)
        && keys.kind_of(list) == Some(ValueKind::List)
        && keys.lrem(list, &brief(b"three")) == Ok(1)
        && !keys.exists(list)
}

#[test]
fn lists(rt: HostRuntime) -> Result<(), Fail> {
    let mut keys = KeySpace::new(rt.alloc())?;
    let list = brief(b"mylist");
    let made = makes_list(rt.alloc(), &mut keys, &list);
    let seen = has_places(&keys, &list) && has_ranges(rt.alloc(), &keys, &list);
    assert!(rt; made && seen && loses_items(rt.alloc(), &mut keys, &list));
    Ok(())
}

// Whether a member gets a score, and is new or not.
fn scores(
    alloc: Global,
    keys: &mut KeySpace,
    zset: &Brief,
    member: &[u8],
    score: u64,
    new: bool,
) -> bool {
    keys.zadd(alloc, zset, &brief(member), score) == Ok(new)
        && keys.zscore(zset, &brief(member)) == Ok(Some(score))
}

// Whether a member stands at a place of a sorted set.
fn ranks(keys: &KeySpace, zset: &Brief, place: i64, member: &[u8], score: u64) -> bool {
    keys.zindex(zset, place) == Ok(Some((brief(member), score)))
}

// Whether a sorted set is made of four members, as the page of ZADD makes it.
fn makes_zset(alloc: Global, keys: &mut KeySpace, zset: &Brief) -> bool {
    scores(alloc, keys, zset, b"three", 3, true)
        && scores(alloc, keys, zset, b"one", 7, true)
        && scores(alloc, keys, zset, b"uno", 1, true)
        && scores(alloc, keys, zset, b"two", 2, true)
        && scores(alloc, keys, zset, b"one", 1, false)
}

// Whether they stand in order of score and then of their bytes.
fn has_ranks(keys: &KeySpace, zset: &Brief) -> bool {
    ranks(keys, zset, 0, b"one", 1)
        && ranks(keys, zset, 1, b"uno", 1)
        && ranks(keys, zset, -1, b"three", 3)
        && keys.zindex(zset, 4) == Ok(None)
        && keys.zcard(zset) == Ok(4)
}

// Whether the members from the third on are these, as the page of ZRANGE says.
fn has_last_two(alloc: Global, keys: &KeySpace, zset: &Brief) -> bool {
    match keys.zrange(alloc, zset, -2, 10) {
        Ok(members) => members.as_slice() == [(brief(b"two"), 2), (brief(b"three"), 3)].as_slice(),
        Err(_) => false,
    }
}

// Whether members go, and the sorted set with the last one.
fn loses_members(keys: &mut KeySpace, zset: &Brief) -> bool {
    keys.zrem(zset, &brief(b"one")) == Ok(true)
        && keys.zrem(zset, &brief(b"one")) == Ok(false)
        && ranks(keys, zset, 0, b"uno", 1)
        && keys.zrem(zset, &brief(b"uno")) == Ok(true)
        && keys.zrem(zset, &brief(b"three")) == Ok(true)
        && keys.kind_of(zset) == Some(ValueKind::Zset)
        && keys.zrem(zset, &brief(b"two")) == Ok(true)
        && !keys.exists(zset)
}

#[test]
fn sorted_sets(rt: HostRuntime) -> Result<(), Fail> {
    let mut keys = KeySpace::new(rt.alloc())?;
    let zset = brief(b"myzset");
    let made = makes_zset(rt.alloc(), &mut keys, &zset);
    let seen = has_ranks(&keys, &zset) && has_last_two(rt.alloc(), &keys, &zset);
    assert!(rt; made && seen && loses_members(&mut keys, &zset));
    Ok(())
}

// Whether a counter is no list and no sorted set.
fn is_no_other(alloc: Global, keys: &mut KeySpace, counter: &Brief, item: &Brief) -> bool {
    keys.incrby(counter, 5) == Ok(5)
        && keys.rpush(alloc, counter, item) == Err(KeyFault::WrongKind)
        && keys.zadd(alloc, counter, item, 1) == Err(KeyFault::WrongKind)
        && keys.get(counter) == Ok(Some(5))
}

// Whether a list takes as many items as a key may have members, and no more.
fn fills(alloc: Global, keys: &mut KeySpace, list: &Brief, item: &Brief) -> bool {
    for _ in 0..MOST_MEMBERS {
        if keys.rpush(alloc, list, item).is_err() {
            return false;
        }
    }
    keys.rpush(alloc, list, item) == Err(KeyFault::TooMany)
        && keys.llen(list) == Ok(MOST_MEMBERS as u64)
}

#[test]
fn list_refusals(rt: HostRuntime) -> Result<(), Fail> {
    let mut keys = KeySpace::new(rt.alloc())?;
    let (counter, list, item) = (brief(b"counter"), brief(b"list"), brief(b"item"));
    let refused = is_no_other(rt.alloc(), &mut keys, &counter, &item);
    assert!(rt; refused && fills(rt.alloc(), &mut keys, &list, &item));
    Ok(())
}

// Whether an item and a member find the memory that was taken for them, though the keys were made
// and removed before.
fn serves_others(alloc: Global, keys: &mut KeySpace, list: &Brief, zset: &Brief) -> bool {
    pushes(alloc, keys, list, b"other", 1)
        && keys.del(list)
        && pushes(alloc, keys, list, b"item", 1)
        && scores(alloc, keys, zset, b"other", 2, true)
        && scores(alloc, keys, zset, b"member", 1, true)
        && ranks(keys, zset, 0, b"member", 1)
}

#[test]
fn prepared_members(rt: HostRuntime) -> Result<(), Fail> {
    let mut keys = KeySpace::new(rt.alloc())?;
    let (list, zset) = (brief(b"list"), brief(b"zset"));
    keys.prepare(rt.alloc(), &list, ValueKind::List, &brief(b"item"))?;
    keys.prepare(rt.alloc(), &zset, ValueKind::Zset, &brief(b"member"))?;
    assert!(rt; serves_others(rt.alloc(), &mut keys, &list, &zset));
    Ok(())
}
