use lr_expirable::{run, would_wait};
use lr_keys::KeySpace;
use lr_limits::{LAST_MOMENT, MOST_AMOUNT, MOST_MEMBERS, NEVER};
use lr_names::{Name, Part, id_brief, key};
use lr_objects::{Amount, Integer, PermitCall, Remaining, Reply};
use lr_text::Brief;
use std::alloc::Global;
use std::test::Fail;
use uuid::Uuid;

fn set(number: u64) -> PermitCall {
    PermitCall::Set {
        number: Amount::new(number.max(1).min(MOST_AMOUNT)),
    }
}

fn take(id: Uuid, lease: u64) -> PermitCall {
    PermitCall::Try { id, lease }
}

fn release(id: Uuid) -> PermitCall {
    PermitCall::Release { id }
}

fn busy(millis: u64) -> Reply {
    Reply::Busy(Remaining::new(millis.max(1).min(NEVER)))
}

fn counted(number: u64) -> Reply {
    Reply::Count(Integer::new(number.min(MOST_AMOUNT)))
}

// Whether a call at the moment is answered so, with a message or without.
fn answers(
    alloc: Global,
    keys: &mut KeySpace,
    moment: u64,
    name: &Name,
    call: &PermitCall,
    wanted: &Reply,
    posted: bool,
) -> bool {
    match run(alloc, keys, moment.min(LAST_MOMENT), name, call) {
        Ok((reply, post)) => reply == *wanted && post.is_some() == posted,
        Err(_) => false,
    }
}

// Whether calls are answered so, one after another.
fn all_answer(
    alloc: Global,
    keys: &mut KeySpace,
    name: &Name,
    calls: &[(u64, PermitCall, Reply, bool)],
) -> bool {
    for (moment, call, wanted, posted) in calls {
        if !answers(alloc, keys, *moment, name, call, wanted, *posted) {
            return false;
        }
    }
    true
}

// Whether the one permit of a name is taken, told to others, and free again by itself.
fn comes_back(alloc: Global, keys: &mut KeySpace, name: &Name, one: Uuid, two: Uuid) -> bool {
    let calls = [
        (0, take(one, 1000), Reply::Short, false),
        (0, release(one), Reply::Unknown, false),
        (0, PermitCall::Count, counted(0), false),
        (0, set(1), Reply::Set, true),
        (0, set(4), Reply::AlreadySet, false),
        (0, take(one, 0), Reply::BadLease, false),
        (0, take(one, 1000), Reply::Granted, false),
        (0, take(one, 1000), Reply::AlreadySet, false),
        (400, take(two, 1000), busy(600), false),
        (400, PermitCall::Count, counted(0), false),
        (1000, release(one), Reply::Unknown, false),
        (1000, PermitCall::Count, counted(1), false),
        (1000, take(two, 5), Reply::Granted, false),
        (1004, release(two), Reply::Freed, true),
        (1004, release(two), Reply::Unknown, false),
    ];
    all_answer(alloc, keys, name, &calls)
}

// Whether the wait is until the first lease of several runs out, and each ends by itself.
fn leases_end_alone(alloc: Global, keys: &mut KeySpace, name: &Name, ids: &[Uuid; 4]) -> bool {
    let calls = [
        (2000, set(3), Reply::Set, true),
        (2000, take(ids[0], 3000), Reply::Granted, false),
        (2000, take(ids[1], 1000), Reply::Granted, false),
        (2000, take(ids[2], 2000), Reply::Granted, false),
        (2000, take(ids[3], 5), busy(1000), false),
        (3000, PermitCall::Count, counted(1), false),
        (3000, take(ids[1], 9000), Reply::Granted, false),
        (3000, take(ids[3], 5), busy(1000), false),
        (3000, release(ids[2]), Reply::Freed, true),
        (4999, take(ids[3], 86_400_000_001), Reply::BadLease, false),
        (5000, PermitCall::Count, counted(2), false),
    ];
    all_answer(alloc, keys, name, &calls)
}

// Whether a look counts no lease that has run out, though it stands there still.
fn looks(alloc: Global, keys: &mut KeySpace, name: &Name, ids: &[Uuid; 3]) -> bool {
    let calls = [
        (0, set(2), Reply::Set, true),
        (0, take(ids[0], 1000), Reply::Granted, false),
        (0, take(ids[1], 2000), Reply::Granted, false),
    ];
    let unset = would_wait(keys, 0, name, &ids[2]);
    all_answer(alloc, keys, name, &calls)
        && unset
        && would_wait(keys, 999, name, &ids[2])
        && !would_wait(keys, 999, name, &ids[0])
        && !would_wait(keys, 1000, name, &ids[2])
        && keys.zcard(&key(Part::PermitLeases, name)) == Ok(2)
}

#[test]
fn the_life_of_permits(rt: HostRuntime) -> Result<(), Fail> {
    let mut keys = KeySpace::new(rt.alloc())?;
    let (one, two) = (Name::parse(b"a")?, Name::parse(b"b")?);
    let ids = [
        Uuid::from_u128(1),
        Uuid::from_u128(2),
        Uuid::from_u128(3),
        Uuid::from_u128(4),
    ];
    let lives = comes_back(rt.alloc(), &mut keys, &one, ids[0], ids[1])
        && leases_end_alone(rt.alloc(), &mut keys, &two, &ids);
    assert!(rt; lives && !keys.exists(&key(Part::PermitLeases, &one)));
    Ok(())
}

#[test]
fn a_look(rt: HostRuntime) -> Result<(), Fail> {
    let mut keys = KeySpace::new(rt.alloc())?;
    let name = Name::parse(b"a")?;
    let ids = [Uuid::from_u128(1), Uuid::from_u128(2), Uuid::from_u128(3)];
    assert!(rt; looks(rt.alloc(), &mut keys, &name, &ids));
    Ok(())
}

// The text of a lease with this number, in place of an id.
fn numbered(number: usize) -> Brief {
    let mut text = Brief::new();
    text.push_bytes(&(number as u64).to_be_bytes());
    text
}

// Whether as many leases as there may be are put under the key.
fn are_put(alloc: Global, keys: &mut KeySpace, name: &Name) -> bool {
    let key = key(Part::PermitLeases, name);
    for number in 0..MOST_MEMBERS {
        if keys.zadd(alloc, &key, &numbered(number), 5).is_err() {
            return false;
        }
    }
    true
}

#[test]
fn limits(rt: HostRuntime) -> Result<(), Fail> {
    let mut keys = KeySpace::new(rt.alloc())?;
    let name = Name::parse(b"a")?;
    let id = Uuid::from_u128(1);
    let full = answers(
        rt.alloc(),
        &mut keys,
        0,
        &name,
        &set(MOST_AMOUNT),
        &Reply::Set,
        true,
    ) && are_put(rt.alloc(), &mut keys, &name);
    let calls = [
        (4, take(id, 5), Reply::TooMany, false),
        (4, PermitCall::Count, counted(MOST_AMOUNT - 65_536), false),
        (5, take(id, 5), Reply::Granted, false),
    ];
    let many = all_answer(rt.alloc(), &mut keys, &name, &calls);
    let member = id_brief(&id);
    let score = keys.zscore(&key(Part::PermitLeases, &name), &member);
    assert!(rt; full && many && score == Ok(Some(10)));
    Ok(())
}
