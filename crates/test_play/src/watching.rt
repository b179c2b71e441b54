use crate::stories::{Script, Step, is_shown, shows};
use std::alloc::{AllocError, Global};
use std::test::Fail;

// A hold is renewed, and lost where the next renewal comes too late. The late reply doesn't end the
// watch of a newer grant.
const RENEWED_AND_LOST: [Step; 14] = [
    Step::Do(1, "lock_try a watch", "granted", "granted"),
    Step::Line("rask 1 1 lock a", "no due"),
    Step::Line("tick 10000", "moment 10000"),
    Step::Line("rask 1 1 lock a", "renew-asked"),
    Step::Line("rexec 1 1 lock a", "renewed"),
    Step::Line("rtake 1 1 lock a", "due 20000"),
    Step::Line("tick 20000", "moment 20000"),
    Step::Line("rask 1 1 lock a", "renew-asked"),
    Step::Line("tick 50000", "moment 50000"),
    Step::Line("rexec 1 1 lock a", "lost"),
    Step::Do(1, "lock_try a watch", "granted", "granted"),
    Step::Line("rtake 1 1 lock a", "stale"),
    Step::Do(2, "lock_try a 5", "busy 30000", "busy 30000"),
    Step::Line("rask 1 1 lock a", "no due"),
];

// One watched lock, and four threads of two clients: one holds it, and the others fall asleep.
const THREE_WAIT: [Step; 29] = [
    Step::Do(1, "lock_try job watch", "granted", "granted"),
    Step::Line("begin 1 2 60000 lock_try job watch", "fresh"),
    Step::Line("ask 1 2", "asked"),
    Step::Line("exec 1 2", "busy 30000"),
    Step::Line("take 1 2", "joining"),
    Step::Line("sub 1", "subscribe ch:lock:job 1"),
    Step::Line("push 1", "ack ch:lock:job 1"),
    Step::Line("ask 1 2", "asked"),
    Step::Line("exec 1 2", "busy 30000"),
    Step::Line("take 1 2", "refused 30000"),
    Step::Line("check 1 2", "asleep 30000"),
    Step::Line("begin 2 1 60000 lock_try job watch", "fresh"),
    Step::Line("ask 2 1", "asked"),
    Step::Line("exec 2 1", "busy 30000"),
    Step::Line("take 2 1", "joining"),
    Step::Line("sub 2", "subscribe ch:lock:job 1"),
    Step::Line("push 2", "ack ch:lock:job 1"),
    Step::Line("ask 2 1", "asked"),
    Step::Line("exec 2 1", "busy 30000"),
    Step::Line("take 2 1", "refused 30000"),
    Step::Line("check 2 1", "asleep 30000"),
    Step::Line("begin 2 2 60000 lock_try job watch", "fresh"),
    Step::Line("ask 2 2", "asked"),
    Step::Line("exec 2 2", "busy 30000"),
    Step::Line("take 2 2", "ready"),
    Step::Line("ask 2 2", "asked"),
    Step::Line("exec 2 2", "busy 30000"),
    Step::Line("take 2 2", "refused 30000"),
    Step::Line("check 2 2", "asleep 30000"),
];

// The lock goes from one to the next, and nobody who sleeps is forgotten.
const HANDED_ON: [Step; 26] = [
    Step::Do(
        1,
        "lock_unlock job watch",
        "freed post ch:lock:job 2",
        "freed",
    ),
    Step::Line("push 1", "message ch:lock:job 1"),
    Step::Line("push 2", "message ch:lock:job 1"),
    Step::Line("wake 1 2", "ready permit"),
    Step::Line("ask 1 2", "asked"),
    Step::Line("exec 1 2", "granted"),
    Step::Line("take 1 2", "done granted"),
    Step::Line("sub 1", "unsubscribe ch:lock:job 0"),
    Step::Line("push 1", "unack ch:lock:job"),
    Step::Line("wake 2 1", "ready permit"),
    Step::Line("ask 2 1", "asked"),
    Step::Line("exec 2 1", "busy 30000"),
    Step::Line("take 2 1", "refused 30000"),
    Step::Line("check 2 1", "asleep 30000"),
    Step::Line("show", "2 1 timer 30000; 2 2 timer 30000"),
    Step::Line("begin 1 2 once lock_unlock job watch", "fresh"),
    Step::Line("ask 1 2", "asked"),
    Step::Line("exec 1 2", "freed post ch:lock:job 1"),
    Step::Line("take 1 2", "done freed"),
    Step::Line("show", "2 1 message; 2 2 message"),
    Step::Line("push 2", "message ch:lock:job 1"),
    Step::Line("wake 2 2", "ready permit"),
    Step::Line("ask 2 2", "asked"),
    Step::Line("exec 2 2", "granted"),
    Step::Line("take 2 2", "done granted"),
    Step::Line("wake 2 1", "ready permit"),
];

// What is asked of a renewal in vain: before there is a watch, before it falls due, twice, and after
// its client was cut off.
const IN_VAIN: [Step; 17] = [
    Step::Line("rask 1 1 lock a", "no watch"),
    Step::Line("rexec 1 1 lock a", "no renewal"),
    Step::Do(1, "lock_try a watch", "granted", "granted"),
    Step::Line("rask 1 1 fair a", "no watch"),
    Step::Line("rask 1 2 lock a", "no watch"),
    Step::Line("tick 10000", "moment 10000"),
    Step::Line("rask 1 1 lock a", "renew-asked"),
    Step::Line("rask 1 1 lock a", "no renewing"),
    Step::Line("rtake 1 1 lock a", "no renewal"),
    Step::Line("rexec 1 1 lock a", "renewed"),
    Step::Line("rexec 1 1 lock a", "no renewal"),
    Step::Line("rask 1 1 lock a", "no renewing"),
    Step::Line("cut 1", "cut"),
    Step::Line("rask 1 1 lock a", "no cut"),
    Step::Line("rexec 1 1 lock a", "no cut"),
    Step::Line("rtake 1 1 lock a", "no cut"),
    Step::Do(2, "lock_try a 5", "busy 30000", "busy 30000"),
];

// A hold that is watched has the watchdog's lease, whatever is asked for, until it is freed.
const KEEPS_THE_WATCH: [Step; 12] = [
    Step::Do(1, "lock_try a watch", "granted", "granted"),
    Step::Do(1, "lock_try a 5", "granted", "granted"),
    Step::Do(2, "lock_try a 5", "busy 30000", "busy 30000"),
    Step::Line("tick 4000", "moment 4000"),
    Step::Do(1, "lock_unlock a 5", "kept", "kept"),
    Step::Do(2, "lock_try a 5", "busy 30000", "busy 30000"),
    Step::Line("tick 10000", "moment 10000"),
    Step::Line("rask 1 1 lock a", "renew-asked"),
    Step::Line("rexec 1 1 lock a", "renewed"),
    Step::Do(1, "lock_unlock a 5", "freed post ch:lock:a 0", "freed"),
    Step::Line("rtake 1 1 lock a", "stale"),
    Step::Line("rask 1 1 lock a", "no watch"),
];

// A lock that is taken away from its holder can't be renewed.
const TAKEN_AWAY: [Step; 9] = [
    Step::Do(1, "lock_try a watch", "granted", "granted"),
    Step::Line("force a", "freed post ch:lock:a 0"),
    Step::Do(2, "lock_try a 30000", "granted", "granted"),
    Step::Line("tick 10000", "moment 10000"),
    Step::Line("rask 1 1 lock a", "renew-asked"),
    Step::Line("rexec 1 1 lock a", "lost"),
    Step::Line("rtake 1 1 lock a", "ended"),
    Step::Line("rask 1 1 lock a", "no watch"),
    Step::Do(1, "lock_try a watch", "busy 20000", "busy 20000"),
];

// Each other kind of hold: the next third counts from the asking, not from the reply.
const OTHER_KINDS: [Step; 20] = [
    Step::Do(1, "fair_try f watch", "granted", "granted"),
    Step::Do(2, "fenced_try g watch", "token 1", "token 1"),
    Step::Do(3, "rw_read r watch", "granted", "granted"),
    Step::Do(4, "rw_write w watch", "granted", "granted"),
    Step::Line("tick 10000", "moment 10000"),
    Step::Line("rask 1 1 fair f", "renew-asked"),
    Step::Line("rask 2 1 fenced g", "renew-asked"),
    Step::Line("rask 3 1 read r", "renew-asked"),
    Step::Line("rask 4 1 write w", "renew-asked"),
    Step::Line("tick 12345", "moment 12345"),
    Step::Line("rexec 1 1 fair f", "renewed"),
    Step::Line("rexec 2 1 fenced g", "renewed"),
    Step::Line("rexec 3 1 read r", "renewed"),
    Step::Line("rexec 4 1 write w", "renewed"),
    Step::Line("rtake 1 1 fair f", "due 20000"),
    Step::Line("rtake 2 1 fenced g", "due 20000"),
    Step::Line("rtake 3 1 read r", "due 20000"),
    Step::Line("rtake 4 1 write w", "due 20000"),
    Step::Do(5, "rw_write r 5", "busy 30000", "busy 30000"),
    Step::Do(5, "rw_read w 5", "busy 30000", "busy 30000"),
];

// Whether a schedule in which three threads wait for a watched lock, and then get it, shows what it
// should.
fn is_handed_on(alloc: Global) -> Result<bool, AllocError> {
    let mut script = Script::new(alloc);
    script.steps(&THREE_WAIT)?;
    script.steps(&HANDED_ON)?;
    shows(alloc, &script)
}

#[test]
fn a_late_reply_does_not_end_a_newer_watch(rt: HostRuntime) -> Result<(), Fail> {
    assert!(rt; is_shown(rt.alloc(), &RENEWED_AND_LOST)?);
    Ok(())
}

#[test]
fn a_watched_lock_goes_through_four_threads(rt: HostRuntime) -> Result<(), Fail> {
    assert!(rt; is_handed_on(rt.alloc())?);
    Ok(())
}

#[test]
fn renewals_are_asked_for_in_vain(rt: HostRuntime) -> Result<(), Fail> {
    assert!(rt; is_shown(rt.alloc(), &IN_VAIN)?);
    Ok(())
}

#[test]
fn a_watched_hold_keeps_its_lease(rt: HostRuntime) -> Result<(), Fail> {
    assert!(rt; is_shown(rt.alloc(), &KEEPS_THE_WATCH)?);
    Ok(())
}

#[test]
fn a_lock_that_was_taken_away_is_not_renewed(rt: HostRuntime) -> Result<(), Fail> {
    assert!(rt; is_shown(rt.alloc(), &TAKEN_AWAY)?);
    Ok(())
}

#[test]
fn each_kind_of_hold_is_renewed(rt: HostRuntime) -> Result<(), Fail> {
    assert!(rt; is_shown(rt.alloc(), &OTHER_KINDS)?);
    Ok(())
}
