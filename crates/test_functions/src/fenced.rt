use lr_fenced::run;
use lr_keys::KeySpace;
use lr_limits::{LAST_MOMENT, NEVER};
use lr_names::{Name, Owner, Part, key};
use lr_objects::{FencedCall, Integer, Remaining, Reply};
use lr_text::Brief;
use std::alloc::Global;
use std::test::Fail;

const ONE: &[u8] = b"11111111-2222-3333-4444-555555555555:1";

const TWO: &[u8] = b"11111111-2222-3333-4444-555555555555:2";

fn take(owner: &Owner, lease: u64) -> FencedCall {
    FencedCall::Try {
        owner: *owner,
        lease,
    }
}

fn give_back(owner: &Owner, rest: u64) -> FencedCall {
    FencedCall::Unlock {
        owner: *owner,
        rest,
    }
}

fn renew(owner: &Owner, lease: u64) -> FencedCall {
    FencedCall::Renew {
        owner: *owner,
        lease,
    }
}

fn token(number: u32) -> Reply {
    Reply::GrantedToken(Integer::new(u64::from(number)))
}

fn count(number: u32) -> Reply {
    Reply::Count(Integer::new(u64::from(number)))
}

fn busy(millis: u64) -> Reply {
    Reply::Busy(Remaining::new(millis.max(1).min(NEVER)))
}

// Whether a call on a fenced lock at the moment is answered so, and sends a message exactly where
// the lock comes free.
fn answers(
    alloc: Global,
    keys: &mut KeySpace,
    moment: u64,
    name: &Name,
    call: &FencedCall,
    wanted: &Reply,
) -> bool {
    match run(alloc, keys, moment.min(LAST_MOMENT), name, call) {
        Ok((reply, post)) => reply == *wanted && post.is_some() == (reply == Reply::Freed),
        Err(_) => false,
    }
}

// Whether calls are answered so, one after another.
fn all_answer(
    alloc: Global,
    keys: &mut KeySpace,
    name: &Name,
    calls: &[(u64, FencedCall, Reply)],
) -> bool {
    for (moment, call, wanted) in calls {
        if !answers(alloc, keys, *moment, name, call, wanted) {
            return false;
        }
    }
    true
}

// Whether an owner takes a new lock twice with the first token, and no other takes it.
fn is_taken(alloc: Global, keys: &mut KeySpace, name: &Name, one: &Owner, two: &Owner) -> bool {
    let calls = [
        (1_000, FencedCall::Token, count(0)),
        (1_000, take(one, 0), Reply::BadLease),
        (1_000, take(one, 500), token(1)),
        (1_000, take(one, 600), token(1)),
        (1_100, take(two, 500), busy(500)),
        (1_100, take(two, 0), Reply::BadLease),
    ];
    all_answer(alloc, keys, name, &calls)
}

// Whether a lease is renewed, and one hold of two given back.
fn is_renewed(alloc: Global, keys: &mut KeySpace, name: &Name, one: &Owner, two: &Owner) -> bool {
    let calls = [
        (1_200, renew(two, 700), Reply::Lost),
        (1_200, renew(one, 700), Reply::Renewed),
        (1_300, give_back(one, 300), Reply::Kept),
        (1_599, take(two, 500), busy(1)),
    ];
    all_answer(alloc, keys, name, &calls)
}

// Whether the next owner gets the next token once the hold has ended, and the lock comes free.
fn comes_free(alloc: Global, keys: &mut KeySpace, name: &Name, one: &Owner, two: &Owner) -> bool {
    let calls = [
        (1_600, give_back(one, 300), Reply::NotHeld),
        (1_600, take(two, 500), token(2)),
        (1_700, give_back(two, 300), Reply::Freed),
        (1_700, FencedCall::Token, count(2)),
        (1_700, take(one, 500), token(3)),
    ];
    all_answer(alloc, keys, name, &calls)
}

#[test]
fn the_life_of_a_lock(rt: HostRuntime) -> Result<(), Fail> {
    let mut keys = KeySpace::new(rt.alloc())?;
    let (name, one, two) = (Name::parse(b"a")?, Owner::parse(ONE)?, Owner::parse(TWO)?);
    let lives = is_taken(rt.alloc(), &mut keys, &name, &one, &two)
        && is_renewed(rt.alloc(), &mut keys, &name, &one, &two)
        && comes_free(rt.alloc(), &mut keys, &name, &one, &two);
    assert!(rt; lives && keys.get(&key(Part::Token, &name)) == Ok(Some(3)));
    Ok(())
}

// Whether a lock with this last token is taken no more.
fn is_spent(alloc: Global, keys: &mut KeySpace, name: &Name, one: &Owner, last: i64) -> bool {
    let counter = key(Part::Token, name);
    keys.incrby(&counter, last) == Ok(last)
        && answers(alloc, keys, 10, name, &take(one, 70), &Reply::TokensSpent)
        && !keys.exists(&key(Part::Fenced, name))
        && keys.get(&counter) == Ok(Some(last))
}

#[test]
fn the_last_token(rt: HostRuntime) -> Result<(), Fail> {
    let mut keys = KeySpace::new(rt.alloc())?;
    let (name, one) = (Name::parse(b"g")?, Owner::parse(ONE)?);
    assert!(rt; is_spent(rt.alloc(), &mut keys, &name, &one, 9_007_199_254_740_991));
    Ok(())
}

// Whether a lock that is held a million times is held no oftener, and gives no token for it.
fn is_too_deep(alloc: Global, keys: &mut KeySpace, hash: &Brief, name: &Name, one: &Owner) -> bool {
    keys.hincrby(alloc, hash, &one.brief(), 1_000_000) == Ok(1_000_000)
        && answers(alloc, keys, 10, name, &take(one, 70), &Reply::TooDeep)
        && answers(alloc, keys, 20, name, &FencedCall::Token, &count(0))
}

#[test]
fn a_million_holds(rt: HostRuntime) -> Result<(), Fail> {
    let mut keys = KeySpace::new(rt.alloc())?;
    let (name, one) = (Name::parse(b"a")?, Owner::parse(ONE)?);
    let hash = key(Part::Fenced, &name);
    assert!(rt; is_too_deep(rt.alloc(), &mut keys, &hash, &name, &one));
    Ok(())
}
