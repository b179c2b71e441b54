ghost use Rattle.std.specs.Prelude.{◌≤◌};
ghost use Rattle.lr_limits.specs.Limits.{event_limit};

use lr_drill::{drill_top, race_top};
use lr_outside::{MemSink, Status};
use std::alloc::Global;
use std::test::Fail;

#[test]
fn two_threads_race(rt: HostRuntime) -> Result<(), Fail> {
    let mut sink = MemSink::new(rt.alloc(), &[]);
    let status = race_top(&rt, rt.alloc(), 2, 3, &mut sink);
    let summary = b"threads 2\nentries 6\ncaller 1 3\ncaller 2 3\n";
    assert!(rt; status == Status::Done && sink.bytes() == summary.as_slice());
    Ok(())
}

#[test]
fn a_thread_without_calls_races(rt: HostRuntime) -> Result<(), Fail> {
    let mut sink = MemSink::new(rt.alloc(), &[]);
    let status = race_top(&rt, rt.alloc(), 1, 0, &mut sink);
    let summary = b"threads 1\nentries 0\ncaller 1 0\n";
    assert!(rt; status == Status::Done && sink.bytes() == summary.as_slice());
    Ok(())
}

// Whether a drill writes this.
fn drills(alloc: Global, number: u64, events: u32, summary: &[u8]) -> bool
    requires { events ≤ event_limit }
{
    let mut sink = MemSink::new(alloc, &[]);
    let status = drill_top(alloc, number, events, &mut sink);
    status == Status::Done && sink.bytes() == summary
}

#[test]
fn no_events_are_drawn(rt: HostRuntime) -> Result<(), Fail> {
    let summary = b"events 0\nno 0\nentries 0\nmoment 0\nasleep 0\n";
    assert!(rt; drills(rt.alloc(), 7, 0, summary));
    Ok(())
}

#[test]
fn two_threads_sleep_after_a_drill(rt: HostRuntime) -> Result<(), Fail> {
    let summary = b"events 2920\nno 2355\nentries 152\nmoment 90629\nasleep 2\n";
    assert!(rt; drills(rt.alloc(), 7, 2_920, summary));
    Ok(())
}

#[test]
fn the_greatest_number_draws(rt: HostRuntime) -> Result<(), Fail> {
    let summary = b"events 1283\nno 1030\nentries 68\nmoment 38472\nasleep 1\n";
    assert!(rt; drills(rt.alloc(), u64::MAX, 1_283, summary));
    Ok(())
}

#[test]
fn long_drills_differ_by_their_numbers(rt: HostRuntime) -> Result<(), Fail> {
    let seven = b"events 100000\nno 80285\nentries 5175\nmoment 3191294\nasleep 0\n";
    let other = b"events 100000\nno 80385\nentries 5078\nmoment 3124463\nasleep 0\n";
    let first = drills(rt.alloc(), 7, 100_000, seven);
    assert!(rt; first && drills(rt.alloc(), 23, 100_000, other));
    Ok(())
}

#[test]
fn a_drill_has_a_million_events(rt: HostRuntime) -> Result<(), Fail> {
    let summary = b"events 1000000\nno 803162\nentries 51600\nmoment 31291648\nasleep 0\n";
    assert!(rt; drills(rt.alloc(), 7, 1_000_000, summary));
    Ok(())
}
