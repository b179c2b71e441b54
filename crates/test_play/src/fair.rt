use crate::stories::{Script, Step, Wait, is_shown, shows};
use std::alloc::{AllocError, Global};
use std::test::Fail;

// The first in the queue doesn't come back: its place goes stale, and the next one gets the lock. The
// last one gives its place up.
const STALE_FIRST_PLACE: [Step; 28] = [
    Step::Do(1, "fair_try f 1000", "granted", "granted"),
    Step::Line("begin 2 1 60000 fair_try f 1000", "fresh"),
    Step::Line("ask 2 1", "asked"),
    Step::Line("exec 2 1", "busy 1000"),
    Step::Line("tick 1000", "moment 1000"),
    Step::Line("begin 3 1 60000 fair_try f 1000", "fresh"),
    Step::Line("ask 3 1", "asked"),
    Step::Line("exec 3 1", "busy 5000"),
    Step::Line("take 3 1", "joining"),
    Step::Line(
        "sub 3",
        "subscribe ch:fair:f:00000000-0000-0000-0000-000000000003:1 1",
    ),
    Step::Line(
        "push 3",
        "ack ch:fair:f:00000000-0000-0000-0000-000000000003:1 1",
    ),
    Step::Line("begin 4 1 60000 fair_try f 1000", "fresh"),
    Step::Line("ask 4 1", "asked"),
    Step::Line("exec 4 1", "busy 5000"),
    Step::Line("take 4 1", "joining"),
    Step::Line(
        "sub 4",
        "subscribe ch:fair:f:00000000-0000-0000-0000-000000000004:1 1",
    ),
    Step::Line(
        "push 4",
        "ack ch:fair:f:00000000-0000-0000-0000-000000000004:1 1",
    ),
    Step::Line("tick 6000", "moment 6000"),
    Step::Line("ask 4 1", "asked"),
    Step::Line("exec 4 1", "busy 5000"),
    Step::Line("ask 3 1", "asked"),
    Step::Line("exec 3 1", "granted"),
    Step::Line("take 4 1", "refused 11000"),
    Step::Line("quit 4 1", "leaving"),
    Step::Line("ask 4 1", "asked"),
    Step::Line("exec 4 1", "left"),
    Step::Line("take 4 1", "done left"),
    Step::Line("show", "none"),
];

const QUEUED: Wait = Wait {
    call: "fair_try f 30000",
    channel: "ch:fair:f:00000000-0000-0000-0000-000000000002:1",
    refusal: "busy 30000",
    until: "30000",
};

// Client 3 asks behind client 2, and both sleep.
const TWO_IN_A_QUEUE: [Step; 11] = [
    Step::Do(1, "fair_try f 30000", "granted", "granted"),
    Step::Park(1, QUEUED),
    Step::Line("begin 3 1 long fair_try f 30000", "fresh"),
    Step::Line("ask 3 1", "asked"),
    Step::Line("exec 3 1", "busy 30000"),
    Step::Line("take 3 1", "joining"),
    Step::Line(
        "sub 3",
        "subscribe ch:fair:f:00000000-0000-0000-0000-000000000003:1 1",
    ),
    Step::Line(
        "push 3",
        "ack ch:fair:f:00000000-0000-0000-0000-000000000003:1 1",
    ),
    Step::Line("ask 3 1", "asked"),
    Step::Line("exec 3 1", "busy 30000"),
    Step::Line("take 3 1", "refused 30000"),
];

// The lock comes free, and the first in the queue is told. It gives up instead, so the next one is
// told, and nobody else gets the lock meanwhile.
const FIRST_GIVES_UP: [Step; 22] = [
    Step::Line("check 3 1", "asleep 30000"),
    Step::Line("show", "2 1 timer 30000; 3 1 timer 30000"),
    Step::Do(
        1,
        "fair_unlock f 30000",
        "freed post ch:fair:f:00000000-0000-0000-0000-000000000002:1 1",
        "freed",
    ),
    Step::Line("show", "2 1 message; 3 1 timer 30000"),
    Step::Do(4, "fair_try f 5", "busy 5000", "busy 5000"),
    Step::Line(
        "push 2",
        "message ch:fair:f:00000000-0000-0000-0000-000000000002:1 1",
    ),
    Step::Line("show", "2 1 permit; 3 1 timer 30000"),
    Step::Line("quit 2 1", "leaving"),
    Step::Line("quit 2 1", "no leaving"),
    Step::Line("show", "3 1 timer 30000"),
    Step::Line("ask 2 1", "asked"),
    Step::Line(
        "exec 2 1",
        "left post ch:fair:f:00000000-0000-0000-0000-000000000003:1 1",
    ),
    Step::Line("take 2 1", "done left"),
    Step::Line(
        "sub 2",
        "unsubscribe ch:fair:f:00000000-0000-0000-0000-000000000002:1 0",
    ),
    Step::Line(
        "push 3",
        "message ch:fair:f:00000000-0000-0000-0000-000000000003:1 1",
    ),
    Step::Line("wake 3 1", "ready permit"),
    Step::Line("ask 3 1", "asked"),
    Step::Line("exec 3 1", "granted"),
    Step::Line("take 3 1", "done granted"),
    Step::Do(1, "fair_unlock f 30000", "not-held", "not-held"),
    Step::Do(3, "fair_unlock f 30000", "freed", "freed"),
    Step::Line("show", "none"),
];

// A client dies whose thread is the first in the queue: the next one waits until its place goes stale,
// and asks every five seconds.
const FIRST_DIES: [Step; 17] = [
    Step::Line("check 3 1", "asleep 30000"),
    Step::Line("cut 2", "cut"),
    Step::Do(
        1,
        "fair_unlock f 30000",
        "freed post ch:fair:f:00000000-0000-0000-0000-000000000002:1 0",
        "freed",
    ),
    Step::Line("show", "3 1 timer 30000"),
    Step::Line("fire 3 1", "no asleep"),
    Step::Line("tick 30000", "moment 30000"),
    Step::Line("fire 3 1", "ready timer"),
    Step::Line("ask 3 1", "asked"),
    Step::Line("exec 3 1", "busy 5000"),
    Step::Line("take 3 1", "refused 35000"),
    Step::Line("check 3 1", "asleep 35000"),
    Step::Line("show", "3 1 timer 35000"),
    Step::Line("tick 35000", "moment 35000"),
    Step::Line("fire 3 1", "ready timer"),
    Step::Line("ask 3 1", "asked"),
    Step::Line("exec 3 1", "granted"),
    Step::Line("take 3 1", "done granted"),
];

// A thread gives up while its client doesn't hear the channel yet, and once more after its place went
// stale. In mode once nobody takes a place.
const GIVES_UP_EARLY: [Step; 21] = [
    Step::Do(1, "fair_try f 1000", "granted", "granted"),
    Step::Do(3, "fair_try f 1000", "busy 1000", "busy 1000"),
    Step::Line("begin 2 1 long fair_try f 1000", "fresh"),
    Step::Line("ask 2 1", "asked"),
    Step::Line("exec 2 1", "busy 1000"),
    Step::Line("take 2 1", "joining"),
    Step::Line("quit 2 1", "leaving"),
    Step::Line("ask 2 1", "asked"),
    Step::Line(
        "sub 2",
        "subscribe ch:fair:f:00000000-0000-0000-0000-000000000002:1 1",
    ),
    Step::Line(
        "push 2",
        "ack ch:fair:f:00000000-0000-0000-0000-000000000002:1 0",
    ),
    Step::Line("tick 6000", "moment 6000"),
    Step::Line("exec 2 1", "unknown"),
    Step::Line("take 2 1", "done unknown"),
    Step::Line(
        "sub 2",
        "unsubscribe ch:fair:f:00000000-0000-0000-0000-000000000002:1 0",
    ),
    Step::Do(1, "fair_try f 1000", "granted", "granted"),
    Step::Do(1, "fair_try f 1000", "granted", "granted"),
    Step::Do(1, "fair_unlock f 2000", "kept", "kept"),
    Step::Do(3, "fair_try f 5", "busy 2000", "busy 2000"),
    Step::Do(1, "fair_unlock f 0", "bad-lease", "bad-lease"),
    Step::Do(1, "fair_unlock f 5", "freed", "freed"),
    Step::Do(3, "fair_try f 5", "granted", "granted"),
];

// Whether a story shows what it should that goes on from two who sleep in a queue.
fn is_shown_behind(alloc: Global, steps: &[Step]) -> Result<bool, AllocError> {
    let mut script = Script::new(alloc);
    script.steps(&TWO_IN_A_QUEUE)?;
    script.steps(steps)?;
    shows(alloc, &script)
}

#[test]
fn a_stale_place_holds_up_nobody(rt: HostRuntime) -> Result<(), Fail> {
    assert!(rt; is_shown(rt.alloc(), &STALE_FIRST_PLACE)?);
    Ok(())
}

#[test]
fn who_is_first_and_gives_up_has_the_next_told(rt: HostRuntime) -> Result<(), Fail> {
    assert!(rt; is_shown_behind(rt.alloc(), &FIRST_GIVES_UP)?);
    Ok(())
}

#[test]
fn a_dead_client_holds_up_the_queue_for_a_while(rt: HostRuntime) -> Result<(), Fail> {
    assert!(rt; is_shown_behind(rt.alloc(), &FIRST_DIES)?);
    Ok(())
}

#[test]
fn a_place_is_given_up_before_the_channel_is_heard(rt: HostRuntime) -> Result<(), Fail> {
    assert!(rt; is_shown(rt.alloc(), &GIVES_UP_EARLY)?);
    Ok(())
}
