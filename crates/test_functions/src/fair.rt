use lr_fair::run;
use lr_keys::KeySpace;
use lr_limits::{LAST_MOMENT, MOST_HOLDS, MOST_MEMBERS, NEVER};
use lr_names::{Name, Owner, Part, Post, key};
use lr_objects::{FairCall, Remaining, Reply};
use lr_text::Brief;
use std::alloc::Global;
use std::test::Fail;

const OWNERS: [&[u8]; 4] = [
    b"11111111-2222-3333-4444-555555555555:1",
    b"11111111-2222-3333-4444-555555555555:2",
    b"11111111-2222-3333-4444-555555555555:3",
    b"11111111-2222-3333-4444-555555555555:4",
];

// Four threads, and who of them is told, if anyone is.
type Told = Option<usize>;

fn take(owner: &Owner, lease: u64, queue: bool) -> FairCall {
    FairCall::Try {
        owner: *owner,
        lease,
        queue,
    }
}

fn unlock(owner: &Owner, rest: u64) -> FairCall {
    FairCall::Unlock {
        owner: *owner,
        rest,
    }
}

fn leave(owner: &Owner) -> FairCall {
    FairCall::Leave { owner: *owner }
}

fn renew(owner: &Owner, lease: u64) -> FairCall {
    FairCall::Renew {
        owner: *owner,
        lease,
    }
}

fn busy(millis: u64) -> Reply {
    Reply::Busy(Remaining::new(millis.max(1).min(NEVER)))
}

// Whether a message tells this thread, or there is none.
fn tells(post: &Option<Post>, owners: &[Owner; 4], told: Told) -> bool {
    match (post, told) {
        (Some(post), Some(place)) => {
            place < 4 && post.channel.owner() == Some(owners[place.min(3)])
        }
        (None, None) => true,
        _ => false,
    }
}

// Whether calls on a lock are answered so, one after another.
fn all_answer(
    alloc: Global,
    keys: &mut KeySpace,
    name: &Name,
    owners: &[Owner; 4],
    calls: &[(u64, FairCall, Reply, Told)],
) -> bool {
    for (moment, call, wanted, told) in calls {
        match run(alloc, keys, (*moment).min(LAST_MOMENT), name, call) {
            Ok((reply, post)) => {
                if reply != *wanted || !tells(&post, owners, *told) {
                    return false;
                }
            }
            Err(_) => return false,
        }
    }
    true
}

// Whether those in the queue are told in their order, nobody passes the first, and no stale moment
// falls.
fn all_in_turn(alloc: Global, keys: &mut KeySpace, name: &Name, owners: &[Owner; 4]) -> bool {
    let [one, two, three, _] = owners;
    let calls = [
        (0, take(one, 1000, true), Reply::Granted, None),
        (0, take(one, 1000, false), Reply::Granted, None),
        (0, take(two, 5, false), busy(1000), None),
        (0, take(two, 5, true), busy(1000), None),
        (0, take(three, 5, true), busy(1000), None),
        (0, unlock(one, 1000), Reply::Kept, None),
        (0, unlock(one, 1000), Reply::Freed, Some(1)),
        (0, take(three, 5, true), busy(5000), None),
        (0, take(one, 5, false), busy(5000), None),
        (0, take(two, 10, true), Reply::Granted, None),
        (0, take(three, 5, true), busy(10), None),
        (0, unlock(two, 5), Reply::Freed, Some(2)),
        (9999, take(one, 5, true), busy(1), None),
        (10000, take(one, 5, false), Reply::Granted, None),
        (10000, unlock(one, 5), Reply::Freed, None),
        (10000, unlock(one, 5), Reply::NotHeld, None),
    ];
    all_answer(alloc, keys, name, owners, &calls)
}

// Whether a place can be given up, and the next is told where the lock is free.
fn places_are_left(alloc: Global, keys: &mut KeySpace, name: &Name, owners: &[Owner; 4]) -> bool {
    let [one, two, three, _] = owners;
    let calls = [
        (20000, take(one, 1000, true), Reply::Granted, None),
        (20000, leave(two), Reply::Unknown, None),
        (20000, take(two, 5, true), busy(1000), None),
        (20000, take(three, 5, true), busy(1000), None),
        (20000, leave(two), Reply::Left, None),
        (20000, take(two, 5, true), busy(1000), None),
        (20000, unlock(one, 5), Reply::Freed, Some(2)),
        (20000, leave(two), Reply::Left, None),
        (20000, take(two, 5, true), busy(5000), None),
        (20000, leave(three), Reply::Left, Some(1)),
        (20000, take(two, 5, false), Reply::Granted, None),
        (20000, take(two, 0, true), Reply::BadLease, None),
    ];
    all_answer(alloc, keys, name, owners, &calls)
}

// Whether a stale place goes though it isn't the first, and a renewal leaves the queue alone.
fn stale_ones_go(alloc: Global, keys: &mut KeySpace, name: &Name, owners: &[Owner; 4]) -> bool {
    let [one, two, three, four] = owners;
    let before = [
        (40000, take(one, 10, true), Reply::Granted, None),
        (40000, take(two, 5, true), busy(10), None),
        (40000, take(three, 5, true), busy(10), None),
        (40000, renew(two, 5), Reply::Lost, None),
        (40000, renew(one, 60000), Reply::Renewed, None),
        (40000, take(two, 5, true), busy(60000), None),
        (40000, take(four, 5, true), busy(60000), None),
        (45010, renew(one, 60000), Reply::Renewed, None),
    ];
    let after = [
        (45010, leave(three), Reply::Unknown, None),
        (45010, unlock(one, 5), Reply::Freed, Some(1)),
        (45010, leave(two), Reply::Left, Some(3)),
    ];
    let queue = key(Part::FairQueue, name);
    all_answer(alloc, keys, name, owners, &before)
        && keys.llen(&queue) == Ok(3)
        && all_answer(alloc, keys, name, owners, &after)
        && keys.llen(&queue) == Ok(1)
        && keys.zcard(&key(Part::FairStale, name)) == Ok(1)
}

fn four() -> Result<[Owner; 4], Fail> {
    Ok([
        Owner::parse(OWNERS[0])?,
        Owner::parse(OWNERS[1])?,
        Owner::parse(OWNERS[2])?,
        Owner::parse(OWNERS[3])?,
    ])
}

#[test]
fn the_life_of_a_fair_lock(rt: HostRuntime) -> Result<(), Fail> {
    let mut keys = KeySpace::new(rt.alloc())?;
    let name = Name::parse(b"a")?;
    let owners = four()?;
    let lives = all_in_turn(rt.alloc(), &mut keys, &name, &owners)
        && !keys.exists(&key(Part::FairQueue, &name))
        && places_are_left(rt.alloc(), &mut keys, &name, &owners)
        && stale_ones_go(rt.alloc(), &mut keys, &name, &owners);
    assert!(rt; lives);
    Ok(())
}

// The text of a place with this number, in place of an owner.
fn numbered(number: usize) -> Brief {
    let mut text = Brief::new();
    text.push_bytes(&(number as u64).to_be_bytes());
    text
}

// Whether so many places are put under the keys.
fn are_put(alloc: Global, keys: &mut KeySpace, name: &Name, places: usize) -> bool {
    let (queue, stales) = (key(Part::FairQueue, name), key(Part::FairStale, name));
    for number in 0..places {
        let text = numbered(number);
        if keys.rpush(alloc, &queue, &text).is_err()
            || keys.zadd(alloc, &stales, &text, 5).is_err()
        {
            return false;
        }
    }
    true
}

// Puts a hold without an expiry under the key of a lock.
fn hold(alloc: Global, keys: &mut KeySpace, name: &Name, owner: &Owner, count: i64) -> bool {
    keys.hincrby(alloc, &key(Part::Fair, name), &owner.brief(), count)
        .is_ok()
}

// Whether an owner that holds it a million times can't take it once more, and who waits for what never
// ends has a place that hardly ever goes stale.
fn is_deep(alloc: Global, keys: &mut KeySpace, name: &Name, owners: &[Owner; 4]) -> bool {
    let [one, two, ..] = owners;
    let calls = [
        (0, take(one, 5, true), Reply::TooDeep, None),
        (0, take(two, 5, true), busy(NEVER), None),
    ];
    hold(alloc, keys, name, one, MOST_HOLDS as i64)
        && all_answer(alloc, keys, name, owners, &calls)
        && keys.zscore(&key(Part::FairStale, name), &two.brief()) == Ok(Some(NEVER + 5000))
}

// Whether the queue takes no place more than there may be.
fn is_full(alloc: Global, keys: &mut KeySpace, name: &Name, owners: &[Owner; 4]) -> bool {
    let [one, two, ..] = owners;
    let last = [(0, take(two, 5, true), busy(NEVER), None)];
    let more = [(0, take(&owners[2], 5, true), Reply::TooMany, None)];
    hold(alloc, keys, name, one, 1)
        && are_put(alloc, keys, name, MOST_MEMBERS - 1)
        && all_answer(alloc, keys, name, owners, &last)
        && all_answer(alloc, keys, name, owners, &more)
        && keys.llen(&key(Part::FairQueue, name)) == Ok(MOST_MEMBERS as u64)
        && keys.zcard(&key(Part::FairStale, name)) == Ok(MOST_MEMBERS as u64)
}

#[test]
fn limits(rt: HostRuntime) -> Result<(), Fail> {
    let mut keys = KeySpace::new(rt.alloc())?;
    let (one, two) = (Name::parse(b"a")?, Name::parse(b"b")?);
    let owners = four()?;
    let deep = is_deep(rt.alloc(), &mut keys, &one, &owners);
    let full = is_full(rt.alloc(), &mut keys, &two, &owners);
    assert!(rt; deep && full);
    Ok(())
}
