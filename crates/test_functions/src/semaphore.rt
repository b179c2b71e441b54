use lr_keys::KeySpace;
use lr_limits::MOST_AMOUNT;
use lr_names::{Name, Part, key};
use lr_objects::{Amount, Integer, Reply, SemaphoreCall};
use lr_semaphore::{run, would_wait};
use std::alloc::Global;
use std::test::Fail;

fn amount(number: u64) -> Amount {
    Amount::new(number.max(1).min(MOST_AMOUNT))
}

fn set(number: u64) -> SemaphoreCall {
    SemaphoreCall::Set {
        number: amount(number),
    }
}

fn take(number: u64) -> SemaphoreCall {
    SemaphoreCall::Try {
        number: amount(number),
    }
}

fn release(number: u64) -> SemaphoreCall {
    SemaphoreCall::Release {
        number: amount(number),
    }
}

fn counted(number: u64) -> Reply {
    Reply::Count(Integer::new(number.min(MOST_AMOUNT)))
}

// Whether a call is answered so, with a message or without.
fn answers(
    alloc: Global,
    keys: &mut KeySpace,
    name: &Name,
    call: &SemaphoreCall,
    wanted: &Reply,
    posted: bool,
) -> bool {
    match run(alloc, keys, 7, name, call) {
        Ok((reply, post)) => reply == *wanted && post.is_some() == posted,
        Err(_) => false,
    }
}

// Whether calls are answered so, one after another.
fn all_answer(
    alloc: Global,
    keys: &mut KeySpace,
    name: &Name,
    calls: &[(SemaphoreCall, Reply, bool)],
) -> bool {
    for (call, wanted, posted) in calls {
        if !answers(alloc, keys, name, call, wanted, *posted) {
            return false;
        }
    }
    true
}

// Whether a semaphore of one permit is set once, and its permit taken and given back.
fn goes_round(alloc: Global, keys: &mut KeySpace, name: &Name) -> bool {
    let calls = [
        (set(1), Reply::Set, true),
        (set(4), Reply::AlreadySet, false),
        (take(1), Reply::Granted, false),
        (take(3), Reply::Short, false),
        (release(1), counted(1), true),
        (SemaphoreCall::Count, counted(1), false),
    ];
    all_answer(alloc, keys, name, &calls)
}

// Whether a semaphore without permits is set still.
fn stays_set(alloc: Global, keys: &mut KeySpace, name: &Name) -> bool {
    let calls = [
        (take(1), Reply::Granted, false),
        (set(4), Reply::AlreadySet, false),
        (SemaphoreCall::Count, counted(0), false),
    ];
    all_answer(alloc, keys, name, &calls) && keys.exists(&key(Part::Semaphore, name))
}

// Whether a semaphore that isn't set has none, and takes no more than there may be.
fn is_full(alloc: Global, keys: &mut KeySpace, name: &Name) -> bool {
    let calls = [
        (take(1), Reply::Short, false),
        (release(MOST_AMOUNT), counted(MOST_AMOUNT), true),
        (release(1), Reply::TooMany, false),
        (SemaphoreCall::Count, counted(MOST_AMOUNT), false),
    ];
    all_answer(alloc, keys, name, &calls)
}

// Whether a try is seen to wait for permits that aren't free, or whose number isn't set.
fn looks(alloc: Global, keys: &mut KeySpace, name: &Name) -> bool {
    let unset = would_wait(keys, name, &amount(1));
    all_answer(alloc, keys, name, &[(set(2), Reply::Set, true)])
        && unset
        && !would_wait(keys, name, &amount(2))
        && would_wait(keys, name, &amount(3))
}

#[test]
fn the_life_of_a_semaphore(rt: HostRuntime) -> Result<(), Fail> {
    let mut keys = KeySpace::new(rt.alloc())?;
    let (one, two) = (Name::parse(b"a")?, Name::parse(b"b")?);
    let lives = goes_round(rt.alloc(), &mut keys, &one)
        && stays_set(rt.alloc(), &mut keys, &one)
        && is_full(rt.alloc(), &mut keys, &two);
    assert!(rt; lives && keys.moment() == 7);
    Ok(())
}

#[test]
fn a_look(rt: HostRuntime) -> Result<(), Fail> {
    let mut keys = KeySpace::new(rt.alloc())?;
    let name = Name::parse(b"a")?;
    assert!(rt; looks(rt.alloc(), &mut keys, &name));
    Ok(())
}
