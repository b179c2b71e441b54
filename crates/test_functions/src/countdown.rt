use lr_countdown::{run, would_wait};
use lr_keys::KeySpace;
use lr_limits::MOST_AMOUNT;
use lr_names::{Name, Part, key};
use lr_objects::{Amount, CountdownCall, Integer, Reply};
use std::alloc::Global;
use std::test::Fail;

fn set(number: u64) -> CountdownCall {
    CountdownCall::Set {
        number: Amount::new(number.max(1).min(MOST_AMOUNT)),
    }
}

fn counted(number: u64) -> Reply {
    Reply::Count(Integer::new(number.min(MOST_AMOUNT)))
}

// Whether a call is answered so, with a message or without.
fn answers(
    alloc: Global,
    keys: &mut KeySpace,
    name: &Name,
    call: &CountdownCall,
    wanted: &Reply,
    posted: bool,
) -> bool {
    match run(alloc, keys, 7, name, call) {
        Ok((reply, post)) => reply == *wanted && post.is_some() == posted,
        Err(_) => false,
    }
}

// Whether calls are answered so, one after another.
fn all_answer(
    alloc: Global,
    keys: &mut KeySpace,
    name: &Name,
    calls: &[(CountdownCall, Reply, bool)],
) -> bool {
    for (call, wanted, posted) in calls {
        if !answers(alloc, keys, name, call, wanted, *posted) {
            return false;
        }
    }
    true
}

// Whether a latch that is set to 1 is told when that one is counted, and its key goes.
fn is_counted(alloc: Global, keys: &mut KeySpace, name: &Name) -> bool {
    let calls = [
        (set(1), Reply::Set, false),
        (CountdownCall::Count, counted(1), false),
        (CountdownCall::Down, counted(0), true),
    ];
    all_answer(alloc, keys, name, &calls) && !keys.exists(&key(Part::Countdown, name))
}

// Whether a latch at 0 stays there until it is set again.
fn is_set_again(alloc: Global, keys: &mut KeySpace, name: &Name) -> bool {
    let calls = [
        (CountdownCall::Down, counted(0), false),
        (set(MOST_AMOUNT), Reply::Set, false),
        (set(1), Reply::AlreadySet, false),
        (CountdownCall::Down, counted(MOST_AMOUNT - 1), false),
    ];
    all_answer(alloc, keys, name, &calls) && keys.exists(&key(Part::Countdown, name))
}

// Whether one who asks for the count is seen to wait until it is at 0.
fn looks(alloc: Global, keys: &mut KeySpace, name: &Name) -> bool {
    let unset = would_wait(keys, name);
    let is_set = all_answer(alloc, keys, name, &[(set(1), Reply::Set, false)]);
    let above = would_wait(keys, name);
    let down = [(CountdownCall::Down, counted(0), true)];
    !unset && is_set && above && all_answer(alloc, keys, name, &down) && !would_wait(keys, name)
}

#[test]
fn the_life_of_a_latch(rt: HostRuntime) -> Result<(), Fail> {
    let mut keys = KeySpace::new(rt.alloc())?;
    let name = Name::parse(b"a")?;
    let lives = is_counted(rt.alloc(), &mut keys, &name)
        && is_set_again(rt.alloc(), &mut keys, &name);
    assert!(rt; lives && keys.moment() == 7);
    Ok(())
}

#[test]
fn a_look(rt: HostRuntime) -> Result<(), Fail> {
    let mut keys = KeySpace::new(rt.alloc())?;
    let name = Name::parse(b"a")?;
    assert!(rt; looks(rt.alloc(), &mut keys, &name));
    Ok(())
}
