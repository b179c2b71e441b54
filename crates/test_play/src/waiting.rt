use crate::stories::{Script, Step, Wait, is_shown, shows};
use std::alloc::{AllocError, Global};
use std::test::Fail;

// A thread finds the lock busy, sleeps, is woken by the message, and gets it.
const ORDINARY_PATH: [Step; 23] = [
    Step::Line("begin 1 1 once lock_try a 30000", "fresh"),
    Step::Line("ask 1 1", "asked"),
    Step::Line("exec 1 1", "granted"),
    Step::Line("take 1 1", "done granted"),
    Step::Line("begin 2 1 60000 lock_try a 30000", "fresh"),
    Step::Line("ask 2 1", "asked"),
    Step::Line("exec 2 1", "busy 30000"),
    Step::Line("take 2 1", "joining"),
    Step::Line("sub 2", "subscribe ch:lock:a 1"),
    Step::Line("push 2", "ack ch:lock:a 1"),
    Step::Line("ask 2 1", "asked"),
    Step::Line("exec 2 1", "busy 30000"),
    Step::Line("take 2 1", "refused 30000"),
    Step::Line("check 2 1", "asleep 30000"),
    Step::Line("begin 1 1 once lock_unlock a 30000", "fresh"),
    Step::Line("ask 1 1", "asked"),
    Step::Line("exec 1 1", "freed post ch:lock:a 1"),
    Step::Line("take 1 1", "done freed"),
    Step::Line("push 2", "message ch:lock:a 1"),
    Step::Line("wake 2 1", "ready permit"),
    Step::Line("ask 2 1", "asked"),
    Step::Line("exec 2 1", "granted"),
    Step::Line("take 2 1", "done granted"),
];

// The lock a, held for 30 seconds more.
const LOCK: Wait = Wait {
    call: "lock_try a 30000",
    channel: "ch:lock:a",
    refusal: "busy 30000",
    until: "30000",
};

// It is wanted for half a second, and held for 90 seconds more.
const SHORT_HOLD: Wait = Wait {
    call: "lock_try a 500",
    channel: "ch:lock:a",
    refusal: "busy 90000",
    until: "90000",
};

// A thread that gives up hands its permit on.
const GIVES_UP: [Step; 15] = [
    Step::Do(1, "lock_try a 30000", "granted", "granted"),
    Step::Park(1, LOCK),
    Step::Join(2, LOCK),
    Step::Do(1, "lock_unlock a 30000", "freed post ch:lock:a 1", "freed"),
    Step::Line("push 2", "message ch:lock:a 1"),
    Step::Line("wake 2 1", "ready permit"),
    Step::Line("wake 2 2", "no asleep"),
    Step::Line("show", "2 2 awake"),
    Step::Line("quit 2 1", "done quit"),
    Step::Line("show", "2 2 permit"),
    Step::Line("wake 2 2", "ready permit"),
    Step::Line("ask 2 2", "asked"),
    Step::Line("exec 2 2", "granted"),
    Step::Line("take 2 2", "done granted"),
    Step::Line("show", "none"),
];

// A thread that is granted the lock hands its turn on, and the other sleeps until the lease is over.
const GRANT_THEN_EXPIRY: [Step; 22] = [
    Step::Do(1, "lock_try a 90000", "granted", "granted"),
    Step::Park(1, SHORT_HOLD),
    Step::Join(2, SHORT_HOLD),
    Step::Do(1, "lock_unlock a 30000", "freed post ch:lock:a 1", "freed"),
    Step::Line("push 2", "message ch:lock:a 1"),
    Step::Line("wake 2 2", "ready permit"),
    Step::Line("ask 2 2", "asked"),
    Step::Line("exec 2 2", "granted"),
    Step::Line("show", "2 1 awake"),
    Step::Line("take 2 2", "done granted"),
    Step::Line("show", "2 1 permit"),
    Step::Line("wake 2 1", "ready permit"),
    Step::Line("ask 2 1", "asked"),
    Step::Line("exec 2 1", "busy 500"),
    Step::Line("take 2 1", "refused 500"),
    Step::Line("check 2 1", "asleep 500"),
    Step::Line("show", "2 1 timer 500"),
    Step::Line("fire 2 1", "no asleep"),
    Step::Line("tick 500", "moment 500"),
    Step::Line("fire 2 1", "ready timer"),
    Step::Line("ask 2 1", "asked"),
    Step::Line("exec 2 1", "granted"),
];

// The message comes before the thread looks whether it is to sleep.
const MESSAGE_BEFORE_CHECK: [Step; 13] = [
    Step::Do(1, "lock_try a 30000", "granted", "granted"),
    Step::Line("begin 2 1 long lock_try a 30000", "fresh"),
    Step::Line("ask 2 1", "asked"),
    Step::Line("exec 2 1", "busy 30000"),
    Step::Line("take 2 1", "joining"),
    Step::Line("sub 2", "subscribe ch:lock:a 1"),
    Step::Line("push 2", "ack ch:lock:a 1"),
    Step::Line("ask 2 1", "asked"),
    Step::Line("exec 2 1", "busy 30000"),
    Step::Do(1, "lock_unlock a 30000", "freed post ch:lock:a 1", "freed"),
    Step::Line("push 2", "message ch:lock:a 1"),
    Step::Line("take 2 1", "refused 30000"),
    Step::Line("check 2 1", "ready permit"),
];

// An old acknowledgement makes nobody ready.
const OLD_ACKNOWLEDGEMENT: [Step; 20] = [
    Step::Do(1, "lock_try a 30000", "granted", "granted"),
    Step::Line("begin 2 1 60000 lock_try a 30000", "fresh"),
    Step::Line("ask 2 1", "asked"),
    Step::Line("exec 2 1", "busy 30000"),
    Step::Line("take 2 1", "joining"),
    Step::Line("sub 2", "subscribe ch:lock:a 1"),
    Step::Line("quit 2 1", "done quit"),
    Step::Line("begin 2 1 60000 lock_try a 30000", "fresh"),
    Step::Line("ask 2 1", "asked"),
    Step::Line("exec 2 1", "busy 30000"),
    Step::Line("take 2 1", "joining"),
    Step::Line("sub 2", "unsubscribe ch:lock:a 0"),
    Step::Line("push 2", "ack ch:lock:a 0"),
    Step::Line("ask 2 1", "no joining"),
    Step::Line("push 2", "unack ch:lock:a"),
    Step::Line("sub 2", "subscribe ch:lock:a 1"),
    Step::Line("push 2", "ack ch:lock:a 1"),
    Step::Line("ask 2 1", "asked"),
    Step::Line("sub 2", "no orders"),
    Step::Line("push 2", "no pushes"),
];

// A lock is taken away by force, and the client that slept is cut off.
const FORCE_AND_CUT: [Step; 8] = [
    Step::Do(1, "lock_try a 30000", "granted", "granted"),
    Step::Park(1, LOCK),
    Step::Line("force a", "freed post ch:lock:a 1"),
    Step::Line("force a", "not-held"),
    Step::Line("cut 2", "cut"),
    Step::Line("show", "none"),
    Step::Line("begin 2 1 once lock_try a 5", "no cut"),
    Step::Line("cut 2", "no cut"),
];

// A fenced lock is waited for, and comes with its next token.
const FENCED_WAIT: [Step; 22] = [
    Step::Do(1, "fenced_try g 1000", "token 1", "token 1"),
    Step::Line("begin 2 1 long fenced_try g 1000", "fresh"),
    Step::Line("ask 2 1", "asked"),
    Step::Line("exec 2 1", "busy 1000"),
    Step::Line("take 2 1", "joining"),
    Step::Line("sub 2", "subscribe ch:fenced:g 1"),
    Step::Line("push 2", "ack ch:fenced:g 1"),
    Step::Line("ask 2 1", "asked"),
    Step::Line("exec 2 1", "busy 1000"),
    Step::Line("take 2 1", "refused 1000"),
    Step::Line("check 2 1", "asleep 1000"),
    Step::Line("show", "2 1 timer 1000"),
    Step::Do(
        1,
        "fenced_unlock g 1000",
        "freed post ch:fenced:g 1",
        "freed",
    ),
    Step::Line("show", "2 1 message"),
    Step::Line("push 2", "message ch:fenced:g 1"),
    Step::Line("show", "2 1 permit"),
    Step::Line("wake 2 1", "ready permit"),
    Step::Line("ask 2 1", "asked"),
    Step::Line("exec 2 1", "token 2"),
    Step::Line("take 2 1", "done token 2"),
    Step::Line("sub 2", "unsubscribe ch:fenced:g 0"),
    Step::Line("push 2", "unack ch:fenced:g"),
];

// Client 2 is cut off, and none of its events applies any more.
const CUT_OFF: [Step; 14] = [
    Step::Line("cut 2", "cut"),
    Step::Line("show", "none"),
    Step::Line("begin 2 1 once lock_try a 5", "no cut"),
    Step::Line("ask 2 1", "no cut"),
    Step::Line("exec 2 1", "no cut"),
    Step::Line("take 2 1", "no cut"),
    Step::Line("check 2 1", "no cut"),
    Step::Line("wake 2 1", "no cut"),
    Step::Line("fire 2 1", "no cut"),
    Step::Line("quit 2 1", "no cut"),
    Step::Line("sub 2", "no cut"),
    Step::Line("push 2", "no cut"),
    Step::Line("cut 2", "no cut"),
    Step::Line("show", "none"),
];

// Thread 1 of client 2 comes to each phase, and falls asleep at last.
const ALL_PHASES: [Step; 11] = [
    Step::Do(1, "lock_try a 30000", "granted", "granted"),
    Step::Line("begin 2 1 60000 lock_try a 500", "fresh"),
    Step::Line("ask 2 1", "asked"),
    Step::Line("exec 2 1", "busy 30000"),
    Step::Line("take 2 1", "joining"),
    Step::Line("sub 2", "subscribe ch:lock:a 1"),
    Step::Line("push 2", "ack ch:lock:a 1"),
    Step::Line("ask 2 1", "asked"),
    Step::Line("exec 2 1", "busy 30000"),
    Step::Line("take 2 1", "refused 30000"),
    Step::Line("check 2 1", "asleep 30000"),
];

// After how many of these steps it is idle, fresh, asked, answered, joining, ready, refused and asleep.
const PHASES: [usize; 8] = [1, 2, 3, 4, 5, 7, 10, 11];

// Two locks are held, and a thread of client 2 sleeps until the first is free.
const SLEEPER: [Step; 3] = [
    Step::Do(1, "lock_try b 30000", "granted", "granted"),
    Step::Do(1, "lock_try a 30000", "granted", "granted"),
    Step::Park(1, LOCK),
];

// A message is sent to client 2, and the lock is held again.
const MESSAGE: [Step; 2] = [
    Step::Line("force a", "freed post ch:lock:a 1"),
    Step::Do(1, "lock_try a 30000", "granted", "granted"),
];

// One message more, for which there is no room.
const ONE_MESSAGE_MORE: [Step; 3] = [
    Step::Line("force a", "freed post ch:lock:a 0 cut 2"),
    Step::Line("show", "none"),
    Step::Line("push 2", "no cut"),
];

// An order, and there is no room for what it would be answered.
const ONE_ORDER_MORE: [Step; 7] = [
    Step::Line("begin 2 2 long lock_try b 5", "fresh"),
    Step::Line("ask 2 2", "asked"),
    Step::Line("exec 2 2", "busy 30000"),
    Step::Line("take 2 2", "joining"),
    Step::Line("sub 2", "subscribe ch:lock:b 0 cut 2"),
    Step::Line("show", "none"),
    Step::Line("push 2", "no cut"),
];

// Whether client 2 is cut off whole after these steps.
fn is_cut_after(alloc: Global, steps: &[Step]) -> Result<bool, AllocError> {
    let mut script = Script::new(alloc);
    script.steps(steps)?;
    script.steps(&CUT_OFF)?;
    shows(alloc, &script)
}

// Whether client 2, which has read none of 16,384 messages, is cut off by these steps.
fn is_cut_by(alloc: Global, steps: &[Step]) -> Result<bool, AllocError> {
    let mut script = Script::new(alloc);
    script.steps(&SLEEPER)?;
    for _ in 0..16_384 {
        script.steps(&MESSAGE)?;
    }
    script.steps(steps)?;
    shows(alloc, &script)
}

#[test]
fn a_message_wakes_a_thread(rt: HostRuntime) -> Result<(), Fail> {
    assert!(rt; is_shown(rt.alloc(), &ORDINARY_PATH)?);
    Ok(())
}

#[test]
fn a_permit_is_handed_on(rt: HostRuntime) -> Result<(), Fail> {
    assert!(rt; is_shown(rt.alloc(), &GIVES_UP)?);
    Ok(())
}

#[test]
fn a_grant_hands_the_turn_on_and_a_timer_fires(rt: HostRuntime) -> Result<(), Fail> {
    assert!(rt; is_shown(rt.alloc(), &GRANT_THEN_EXPIRY)?);
    Ok(())
}

#[test]
fn a_message_before_the_look_is_not_lost(rt: HostRuntime) -> Result<(), Fail> {
    assert!(rt; is_shown(rt.alloc(), &MESSAGE_BEFORE_CHECK)?);
    Ok(())
}

#[test]
fn an_old_acknowledgement_wakes_nobody(rt: HostRuntime) -> Result<(), Fail> {
    assert!(rt; is_shown(rt.alloc(), &OLD_ACKNOWLEDGEMENT)?);
    Ok(())
}

#[test]
fn a_lock_is_forced_and_a_client_cut(rt: HostRuntime) -> Result<(), Fail> {
    assert!(rt; is_shown(rt.alloc(), &FORCE_AND_CUT)?);
    Ok(())
}

#[test]
fn fenced_locks_are_waited_for(rt: HostRuntime) -> Result<(), Fail> {
    assert!(rt; is_shown(rt.alloc(), &FENCED_WAIT)?);
    Ok(())
}

#[test]
fn a_client_is_cut_in_each_phase(rt: HostRuntime) -> Result<(), Fail> {
    for count in PHASES {
        assert!(rt; is_cut_after(rt.alloc(), &ALL_PHASES[..count])?);
    }
    Ok(())
}

#[test]
fn a_client_that_does_not_read_is_cut_off(rt: HostRuntime) -> Result<(), Fail> {
    assert!(rt; is_cut_by(rt.alloc(), &ONE_MESSAGE_MORE)?);
    assert!(rt; is_cut_by(rt.alloc(), &ONE_ORDER_MORE)?);
    Ok(())
}
