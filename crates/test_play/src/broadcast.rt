use crate::stories::{Script, Step, Wait, is_shown, shows};
use std::alloc::{AllocError, Global};
use std::test::Fail;

const READING: Wait = Wait {
    call: "rw_read a 30000",
    channel: "ch:rw:a",
    refusal: "busy 30000",
    until: "30000",
};

const WRITING: Wait = Wait {
    call: "rw_write a 30000",
    channel: "ch:rw:a",
    refusal: "busy 30000",
    until: "30000",
};

// A reader and a writer are woken by one message. Another client reads by then, so the reader gets
// the lock and the writer sleeps once more.
const READER_AND_WRITER: [Step; 18] = [
    Step::Do(1, "rw_write a 30000", "granted", "granted"),
    Step::Park(1, READING),
    Step::Join(2, WRITING),
    Step::Do(
        1,
        "rw_unlock_write a 30000",
        "freed post ch:rw:a 1",
        "freed",
    ),
    Step::Line("push 2", "message ch:rw:a 1"),
    Step::Do(3, "rw_read a 30000", "granted", "granted"),
    Step::Line("show", "2 1 broadcast; 2 2 held"),
    Step::Line("wake 2 2", "ready broadcast"),
    Step::Line("ask 2 2", "asked"),
    Step::Line("exec 2 2", "busy 30000"),
    Step::Line("take 2 2", "refused 30000"),
    Step::Line("check 2 2", "asleep 30000"),
    Step::Line("wake 2 1", "ready broadcast"),
    Step::Line("ask 2 1", "asked"),
    Step::Line("exec 2 1", "granted"),
    Step::Do(3, "rw_write a 5", "busy 30000", "busy 30000"),
    Step::Line("take 2 1", "done granted"),
    Step::Line("show", "2 2 held"),
];

const THREE_PERMITS: Wait = Wait {
    call: "sem_try s 3",
    channel: "ch:sem:s",
    refusal: "short",
    until: "never",
};

const ONE_PERMIT: Wait = Wait {
    call: "sem_try s 1",
    channel: "ch:sem:s",
    refusal: "short",
    until: "never",
};

// A release wakes both who wait, and is enough for one of them.
const THREE_AND_ONE: [Step; 18] = [
    Step::Do(1, "sem_set s 1", "set post ch:sem:s 0", "set"),
    Step::Do(1, "sem_set s 4", "already-set", "already-set"),
    Step::Do(1, "sem_try s 1", "granted", "granted"),
    Step::Park(1, THREE_PERMITS),
    Step::Join(2, ONE_PERMIT),
    Step::Do(1, "sem_release s 1", "count 1 post ch:sem:s 1", "count 1"),
    Step::Line("push 2", "message ch:sem:s 1"),
    Step::Line("wake 2 2", "ready broadcast"),
    Step::Line("ask 2 2", "asked"),
    Step::Line("exec 2 2", "granted"),
    Step::Line("take 2 2", "done granted"),
    Step::Line("wake 2 1", "ready broadcast"),
    Step::Line("ask 2 1", "asked"),
    Step::Line("exec 2 1", "short"),
    Step::Line("take 2 1", "refused never"),
    Step::Line("check 2 1", "asleep never"),
    Step::Line("show", "2 1 held"),
    Step::Do(1, "sem_count s", "count 0", "count 0"),
];

const LATCH: Wait = Wait {
    call: "latch_count l",
    channel: "ch:latch:l",
    refusal: "count 3",
    until: "never",
};

// A thread sleeps until a latch is counted down to 0.
const LATCH_OF_THREE: [Step; 11] = [
    Step::Do(1, "latch_set l 3", "set", "set"),
    Step::Park(1, LATCH),
    Step::Do(1, "latch_down l", "count 2", "count 2"),
    Step::Do(1, "latch_down l", "count 1", "count 1"),
    Step::Do(1, "latch_down l", "count 0 post ch:latch:l 1", "count 0"),
    Step::Line("push 2", "message ch:latch:l 1"),
    Step::Line("wake 2 1", "ready broadcast"),
    Step::Line("ask 2 1", "asked"),
    Step::Line("exec 2 1", "count 0"),
    Step::Line("take 2 1", "done count 0"),
    Step::Do(1, "latch_down l", "count 0", "count 0"),
];

const PERMIT: Wait = Wait {
    call: "permit_try p 00000000-0000-0000-0000-000000000002 1000",
    channel: "ch:permits:p",
    refusal: "busy 1000",
    until: "1000",
};

// A permit runs out, and sends no message: the timer of the thread that waits wakes it.
const PERMIT_RUNS_OUT: [Step; 16] = [
    Step::Do(1, "permit_set p 1", "set post ch:permits:p 0", "set"),
    Step::Do(
        1,
        "permit_try p 00000000-0000-0000-0000-000000000001 1000",
        "granted",
        "granted",
    ),
    Step::Do(1, "permit_count p", "count 0", "count 0"),
    Step::Park(1, PERMIT),
    Step::Line("show", "2 1 held"),
    Step::Line("tick 1000", "moment 1000"),
    Step::Line("show", "2 1 timer 1000"),
    Step::Do(
        1,
        "permit_release p 00000000-0000-0000-0000-000000000001",
        "unknown",
        "unknown",
    ),
    Step::Line("fire 2 1", "ready timer"),
    Step::Line("ask 2 1", "asked"),
    Step::Line("exec 2 1", "granted"),
    Step::Line("take 2 1", "done granted"),
    Step::Do(
        1,
        "permit_release p 00000000-0000-0000-0000-000000000002",
        "freed post ch:permits:p 1",
        "freed",
    ),
    Step::Line("push 2", "message ch:permits:p 0"),
    Step::Line("sub 2", "unsubscribe ch:permits:p 0"),
    Step::Line("push 2", "unack ch:permits:p"),
];

// A message comes before the thread looks whether it is to sleep.
const MESSAGE_BEFORE_CHECK: [Step; 13] = [
    Step::Do(1, "latch_set l 1", "set", "set"),
    Step::Line("begin 2 1 long latch_count l", "fresh"),
    Step::Line("ask 2 1", "asked"),
    Step::Line("exec 2 1", "count 1"),
    Step::Line("take 2 1", "joining"),
    Step::Line("sub 2", "subscribe ch:latch:l 1"),
    Step::Line("push 2", "ack ch:latch:l 1"),
    Step::Line("ask 2 1", "asked"),
    Step::Line("exec 2 1", "count 1"),
    Step::Do(1, "latch_down l", "count 0 post ch:latch:l 1", "count 0"),
    Step::Line("push 2", "message ch:latch:l 1"),
    Step::Line("take 2 1", "refused never"),
    Step::Line("check 2 1", "ready broadcast"),
];

// A thread that was woken gives up, and the other is awake by the same message.
const GIVES_UP: [Step; 13] = [
    Step::Do(1, "latch_set l 3", "set", "set"),
    Step::Park(1, LATCH),
    Step::Join(2, LATCH),
    Step::Do(1, "latch_down l", "count 2", "count 2"),
    Step::Do(1, "latch_down l", "count 1", "count 1"),
    Step::Line("wake 2 1", "no asleep"),
    Step::Do(1, "latch_down l", "count 0 post ch:latch:l 1", "count 0"),
    Step::Line("show", "2 1 message; 2 2 message"),
    Step::Line("push 2", "message ch:latch:l 1"),
    Step::Line("wake 2 1", "ready broadcast"),
    Step::Line("quit 2 1", "done quit"),
    Step::Line("show", "2 2 broadcast"),
    Step::Line("wake 2 2", "ready broadcast"),
];

// One release more, for whose message there is no room.
const ONE_RELEASE_MORE: [Step; 3] = [
    Step::Do(
        1,
        "sem_release s 1",
        "count 16385 post ch:sem:s 0 cut 2",
        "count 16385",
    ),
    Step::Line("show", "none"),
    Step::Line("push 2", "no cut"),
];

// Whether client 2, of which a thread waits for a permit, and which has read none of the messages of
// 16,384 releases, is cut off by one more.
fn is_cut_by_a_release(alloc: Global) -> Result<bool, AllocError> {
    let mut script = Script::new(alloc);
    script.steps(&[Step::Park(1, ONE_PERMIT)])?;
    for count in 1..16_385_u32 {
        let reply = format!(in alloc; "count {count}")?;
        let shown = format!(in alloc; "count {count} post ch:sem:s 1")?;
        script.request(1, "sem_release s 1", shown.as_str(), reply.as_str())?;
    }
    script.steps(&ONE_RELEASE_MORE)?;
    shows(alloc, &script)
}

#[test]
fn a_reader_and_a_writer_are_woken(rt: HostRuntime) -> Result<(), Fail> {
    assert!(rt; is_shown(rt.alloc(), &READER_AND_WRITER)?);
    Ok(())
}

#[test]
fn a_release_wakes_all_who_want_permits(rt: HostRuntime) -> Result<(), Fail> {
    assert!(rt; is_shown(rt.alloc(), &THREE_AND_ONE)?);
    Ok(())
}

#[test]
fn a_latch_at_0_is_waited_for(rt: HostRuntime) -> Result<(), Fail> {
    assert!(rt; is_shown(rt.alloc(), &LATCH_OF_THREE)?);
    Ok(())
}

#[test]
fn a_permit_that_runs_out_is_waited_for(rt: HostRuntime) -> Result<(), Fail> {
    assert!(rt; is_shown(rt.alloc(), &PERMIT_RUNS_OUT)?);
    Ok(())
}

#[test]
fn a_message_for_all_before_the_look_is_not_lost(rt: HostRuntime) -> Result<(), Fail> {
    assert!(rt; is_shown(rt.alloc(), &MESSAGE_BEFORE_CHECK)?);
    Ok(())
}

#[test]
fn who_gives_up_takes_no_wakeup_along(rt: HostRuntime) -> Result<(), Fail> {
    assert!(rt; is_shown(rt.alloc(), &GIVES_UP)?);
    Ok(())
}

#[test]
fn a_client_that_does_not_read_messages_for_all_is_cut_off(rt: HostRuntime) -> Result<(), Fail> {
    assert!(rt; is_cut_by_a_release(rt.alloc())?);
    Ok(())
}
