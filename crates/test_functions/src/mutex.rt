use lr_keys::KeySpace;
use lr_limits::{LAST_MOMENT, LONGEST_LEASE, NEVER};
use lr_mutex::run;
use lr_names::{Name, Owner, Part, key};
use lr_objects::{LockCall, Remaining, Reply};
use lr_text::Brief;
use std::alloc::Global;
use std::test::Fail;

const ONE: &[u8] = b"11111111-2222-3333-4444-555555555555:1";

const TWO: &[u8] = b"11111111-2222-3333-4444-555555555555:2";

fn take(owner: &Owner, lease: u64) -> LockCall {
    LockCall::Try {
        owner: *owner,
        lease,
    }
}

fn give_back(owner: &Owner, rest: u64) -> LockCall {
    LockCall::Unlock {
        owner: *owner,
        rest,
    }
}

fn renew(owner: &Owner, lease: u64) -> LockCall {
    LockCall::Renew {
        owner: *owner,
        lease,
    }
}

fn busy(millis: u64) -> Reply {
    Reply::Busy(Remaining::new(millis.max(1).min(NEVER)))
}

// Whether a call at the moment is answered so, and sends a message exactly where the lock comes free.
fn answers(
    alloc: Global,
    keys: &mut KeySpace,
    moment: u64,
    name: &Name,
    call: &LockCall,
    wanted: &Reply,
) -> bool {
    match run(alloc, keys, moment.min(LAST_MOMENT), name, call) {
        Ok((reply, post)) => reply == *wanted && post.is_some() == (reply == Reply::Freed),
        Err(_) => false,
    }
}

// Whether calls are answered so, one after another.
fn all_answer(
    alloc: Global,
    keys: &mut KeySpace,
    name: &Name,
    calls: &[(u64, LockCall, Reply)],
) -> bool {
    for (moment, call, wanted) in calls {
        if !answers(alloc, keys, *moment, name, call, wanted) {
            return false;
        }
    }
    true
}

// Whether an owner takes a lock twice, and keeps it with the rest lease.
fn is_taken(alloc: Global, keys: &mut KeySpace, name: &Name, one: &Owner, two: &Owner) -> bool {
    let calls = [
        (1_000, take(one, 500), Reply::Granted),
        (1_000, take(one, 600), Reply::Granted),
        (1_100, take(two, 500), busy(500)),
        (1_200, give_back(one, 300), Reply::Kept),
        (1_210, take(two, 500), busy(290)),
        (1_210, give_back(two, 300), Reply::NotHeld),
    ];
    all_answer(alloc, keys, name, &calls)
}

// Whether a lease is renewed, and ends at its deadline.
fn is_renewed(alloc: Global, keys: &mut KeySpace, name: &Name, one: &Owner, two: &Owner) -> bool {
    let calls = [
        (1_300, renew(two, 700), Reply::Lost),
        (1_300, renew(one, 0), Reply::BadLease),
        (1_300, renew(one, 700), Reply::Renewed),
        (1_999, take(two, 1), busy(1)),
        (2_000, give_back(one, 300), Reply::NotHeld),
        (2_000, renew(one, 300), Reply::Lost),
    ];
    all_answer(alloc, keys, name, &calls)
}

// Whether a lock comes free by its owner, and by force at a moment that has passed.
fn comes_free(alloc: Global, keys: &mut KeySpace, name: &Name, one: &Owner, two: &Owner) -> bool {
    let calls = [
        (2_000, take(two, LONGEST_LEASE + 1), Reply::BadLease),
        (2_000, take(two, LONGEST_LEASE), Reply::Granted),
        (2_010, give_back(two, 1), Reply::Freed),
        (2_010, LockCall::Force, Reply::NotHeld),
        (2_010, take(one, 100), Reply::Granted),
        (5, LockCall::Force, Reply::Freed),
    ];
    all_answer(alloc, keys, name, &calls)
}

#[test]
fn the_life_of_a_lock(rt: HostRuntime) -> Result<(), Fail> {
    let mut keys = KeySpace::new(rt.alloc())?;
    let (name, one, two) = (Name::parse(b"a")?, Owner::parse(ONE)?, Owner::parse(TWO)?);
    let lives = is_taken(rt.alloc(), &mut keys, &name, &one, &two)
        && is_renewed(rt.alloc(), &mut keys, &name, &one, &two)
        && comes_free(rt.alloc(), &mut keys, &name, &one, &two);
    assert!(rt; lives && keys.moment() == 2_010 && !keys.exists(&key(Part::Lock, &name)));
    Ok(())
}

// Makes the key of a lock that is held so many times, with no expiry.
fn is_held(alloc: Global, keys: &mut KeySpace, lock: &Brief, owner: &Owner, times: i64) -> bool {
    keys.hincrby(alloc, lock, &owner.brief(), times) == Ok(times) && keys.pttl(lock) == -1
}

// Whether a lock that is held 999,999 times is held once more, and no oftener.
fn is_too_deep(alloc: Global, keys: &mut KeySpace, lock: &Brief, name: &Name, one: &Owner) -> bool {
    is_held(alloc, keys, lock, one, 999_999)
        && answers(alloc, keys, 10, name, &take(one, 70), &Reply::Granted)
        && answers(alloc, keys, 20, name, &take(one, 70), &Reply::TooDeep)
        && keys.pttl(lock) == 60
        && keys.hget(lock, &one.brief()) == Ok(Some(1_000_000))
}

#[test]
fn a_million_holds(rt: HostRuntime) -> Result<(), Fail> {
    let mut keys = KeySpace::new(rt.alloc())?;
    let (name, one) = (Name::parse(b"a")?, Owner::parse(ONE)?);
    let lock = key(Part::Lock, &name);
    assert!(rt; is_too_deep(rt.alloc(), &mut keys, &lock, &name, &one));
    Ok(())
}

// Whether a hold without an expiry lasts for ever, until its owner gives one of a million back.
fn lasts(alloc: Global, keys: &mut KeySpace, name: &Name, one: &Owner, two: &Owner) -> bool {
    let calls = [
        (20, take(one, 70), Reply::TooDeep),
        (20, take(two, 70), busy(NEVER - 20)),
        (30, give_back(one, 50), Reply::Kept),
        (30, take(two, 70), busy(50)),
    ];
    all_answer(alloc, keys, name, &calls)
}

#[test]
fn a_hold_without_an_expiry(rt: HostRuntime) -> Result<(), Fail> {
    let mut keys = KeySpace::new(rt.alloc())?;
    let (name, one, two) = (Name::parse(b"a")?, Owner::parse(ONE)?, Owner::parse(TWO)?);
    let lock = key(Part::Lock, &name);
    let held = is_held(rt.alloc(), &mut keys, &lock, &one, 1_000_000);
    assert!(rt; held && lasts(rt.alloc(), &mut keys, &name, &one, &two));
    Ok(())
}
