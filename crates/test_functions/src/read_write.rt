use lr_keys::KeySpace;
use lr_limits::{LAST_MOMENT, MOST_HOLDS, MOST_MEMBERS, NEVER};
use lr_names::{Name, Owner, Part, key};
use lr_objects::{Access, ReadWriteCall, Remaining, Reply};
use lr_rw::{run, would_wait};
use lr_text::Brief;
use std::alloc::Global;
use std::test::Fail;

const ONE: &[u8] = b"11111111-2222-3333-4444-555555555555:1";

const TWO: &[u8] = b"11111111-2222-3333-4444-555555555555:2";

const THREE: &[u8] = b"11111111-2222-3333-4444-555555555555:3";

fn read(owner: &Owner, lease: u64) -> ReadWriteCall {
    ReadWriteCall::Take {
        access: Access::Read,
        owner: *owner,
        lease,
    }
}

fn write(owner: &Owner, lease: u64) -> ReadWriteCall {
    ReadWriteCall::Take {
        access: Access::Write,
        owner: *owner,
        lease,
    }
}

fn unlock_read(owner: &Owner, rest: u64) -> ReadWriteCall {
    ReadWriteCall::Unlock {
        access: Access::Read,
        owner: *owner,
        rest,
    }
}

fn unlock_write(owner: &Owner, rest: u64) -> ReadWriteCall {
    ReadWriteCall::Unlock {
        access: Access::Write,
        owner: *owner,
        rest,
    }
}

fn renew(access: Access, owner: &Owner, lease: u64) -> ReadWriteCall {
    ReadWriteCall::Renew {
        access,
        owner: *owner,
        lease,
    }
}

fn busy(millis: u64) -> Reply {
    Reply::Busy(Remaining::new(millis.max(1).min(NEVER)))
}

// Whether a call on a lock at the moment is answered so, with a message or without.
fn answers(
    alloc: Global,
    keys: &mut KeySpace,
    moment: u64,
    name: &Name,
    call: &ReadWriteCall,
    wanted: &Reply,
    posted: bool,
) -> bool {
    match run(alloc, keys, moment.min(LAST_MOMENT), name, call) {
        Ok((reply, post)) => reply == *wanted && post.is_some() == posted,
        Err(_) => false,
    }
}

// Whether calls are answered so, one after another.
fn all_answer(
    alloc: Global,
    keys: &mut KeySpace,
    name: &Name,
    calls: &[(u64, ReadWriteCall, Reply, bool)],
) -> bool {
    for (moment, call, wanted, posted) in calls {
        if !answers(alloc, keys, *moment, name, call, wanted, *posted) {
            return false;
        }
    }
    true
}

// Whether two owners read beside each other, nobody writes meanwhile, not even one of them, and the
// lock comes free with the last of the two. Who writes reads besides.
fn readers_and_writers(
    alloc: Global,
    keys: &mut KeySpace,
    name: &Name,
    one: &Owner,
    two: &Owner,
    three: &Owner,
) -> bool {
    let calls = [
        (0, read(one, 1000), Reply::Granted, false),
        (0, read(two, 2000), Reply::Granted, false),
        (0, write(one, 5), busy(2000), false),
        (0, write(three, 5), busy(2000), false),
        (0, unlock_read(two, 30000), Reply::Freed, false),
        (0, unlock_read(one, 30000), Reply::Freed, true),
        (0, write(one, 1000), Reply::Granted, false),
        (0, read(one, 5), Reply::Granted, false),
        (0, read(two, 5), busy(1000), false),
        (0, unlock_write(one, 5), Reply::Freed, true),
        (0, read(two, 5), Reply::Granted, false),
    ];
    all_answer(alloc, keys, name, &calls)
}

// Whether each hold ends at its own deadline, or at the one that a renewal gave it.
fn holds_end_alone(
    alloc: Global,
    keys: &mut KeySpace,
    name: &Name,
    one: &Owner,
    two: &Owner,
) -> bool {
    let calls = [
        (10, read(one, 1000), Reply::Granted, false),
        (10, read(two, 2000), Reply::Granted, false),
        (10, renew(Access::Read, two, 3000), Reply::Renewed, false),
        (10, renew(Access::Write, two, 3000), Reply::Lost, false),
        (1010, unlock_read(one, 5), Reply::NotHeld, false),
        (3009, write(one, 5), busy(1), false),
        (3010, write(one, 5), Reply::Granted, false),
        (3010, write(one, 0), Reply::BadLease, false),
        (3015, read(two, 5), Reply::Granted, false),
    ];
    all_answer(alloc, keys, name, &calls)
}

// Whether a hold is counted, and what stays of it lasts for the rest lease.
fn is_counted(alloc: Global, keys: &mut KeySpace, name: &Name, one: &Owner, two: &Owner) -> bool {
    let calls = [
        (4000, write(one, 1000), Reply::Granted, false),
        (4000, write(one, 1000), Reply::Granted, false),
        (4000, unlock_write(two, 5), Reply::NotHeld, false),
        (4000, unlock_write(one, 7), Reply::Kept, false),
        (4006, read(two, 5), busy(1), false),
        (4006, unlock_write(one, 7), Reply::Freed, true),
        (4006, unlock_write(one, 7), Reply::NotHeld, false),
    ];
    all_answer(alloc, keys, name, &calls)
}

// Whether a look counts no hold that has expired, though it stands there still.
fn looks(alloc: Global, keys: &mut KeySpace, name: &Name, one: &Owner, two: &Owner) -> bool {
    let calls = [(0, write(one, 1000), Reply::Granted, false)];
    all_answer(alloc, keys, name, &calls)
        && would_wait(keys, 999, name, Access::Read, two)
        && would_wait(keys, 999, name, Access::Write, two)
        && !would_wait(keys, 999, name, Access::Read, one)
        && !would_wait(keys, 999, name, Access::Write, one)
        && !would_wait(keys, 1000, name, Access::Read, two)
        && !would_wait(keys, 1000, name, Access::Write, two)
        && keys.zcard(&key(Part::RwDeadlines, name)) == Ok(1)
}

#[test]
fn a_look(rt: HostRuntime) -> Result<(), Fail> {
    let mut keys = KeySpace::new(rt.alloc())?;
    let name = Name::parse(b"a")?;
    let (one, two) = (Owner::parse(ONE)?, Owner::parse(TWO)?);
    assert!(rt; looks(rt.alloc(), &mut keys, &name, &one, &two));
    Ok(())
}

#[test]
fn the_life_of_a_read_write_lock(rt: HostRuntime) -> Result<(), Fail> {
    let mut keys = KeySpace::new(rt.alloc())?;
    let name = Name::parse(b"a")?;
    let (one, two, three) = (Owner::parse(ONE)?, Owner::parse(TWO)?, Owner::parse(THREE)?);
    let lives = readers_and_writers(rt.alloc(), &mut keys, &name, &one, &two, &three)
        && holds_end_alone(rt.alloc(), &mut keys, &name, &one, &two)
        && is_counted(rt.alloc(), &mut keys, &name, &one, &two);
    assert!(rt; lives && !keys.exists(&key(Part::Rw, &name)));
    Ok(())
}

// Puts a hold under the keys of a lock.
fn put(
    alloc: Global,
    keys: &mut KeySpace,
    name: &Name,
    member: &Brief,
    count: i64,
    deadline: u64,
) -> bool {
    keys.hincrby(alloc, &key(Part::Rw, name), member, count)
        .is_ok()
        && keys
            .zadd(alloc, &key(Part::RwDeadlines, name), member, deadline)
            .is_ok()
}

// The text of a reader's hold.
fn reader(owner: &Owner) -> Brief {
    let mut text = Brief::new();
    text.push_bytes(b"r:");
    text.push_bytes(owner.brief().as_slice());
    text
}

// Whether an owner that has read a million times can't once more.
fn is_full(alloc: Global, keys: &mut KeySpace, name: &Name, one: &Owner) -> bool {
    put(alloc, keys, name, &reader(one), MOST_HOLDS as i64, 5)
        && answers(alloc, keys, 0, name, &read(one, 5), &Reply::TooDeep, false)
}

// The text of a hold with this number, in place of an owner.
fn numbered(number: usize) -> Brief {
    let mut text = Brief::new();
    text.push_bytes(b"r:");
    text.push_bytes(&(number as u64).to_be_bytes());
    text
}

// Whether as many readers as there may be are put under the keys.
fn are_put(alloc: Global, keys: &mut KeySpace, name: &Name) -> bool {
    for number in 0..MOST_MEMBERS {
        if !put(alloc, keys, name, &numbered(number), 1, 5) {
            return false;
        }
    }
    true
}

#[test]
fn limits(rt: HostRuntime) -> Result<(), Fail> {
    let mut keys = KeySpace::new(rt.alloc())?;
    let (one, owner) = (Name::parse(b"a")?, Owner::parse(ONE)?);
    let two = Name::parse(b"b")?;
    let full = is_full(rt.alloc(), &mut keys, &one, &owner) && are_put(rt.alloc(), &mut keys, &two);
    let many = answers(
        rt.alloc(),
        &mut keys,
        0,
        &two,
        &read(&owner, 5),
        &Reply::TooMany,
        false,
    );
    assert!(rt; full && many);
    Ok(())
}
