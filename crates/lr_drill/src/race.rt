// `lockd race`: threads that call one server at once, and the summary of what they did.
ghost use Rattle.std.specs.Prelude.{◌≡◌};
ghost use Rattle.lr_outside.specs.Turns.{CountsFaults};
ghost use Rattle.lr_drill.specs.Race.{IsRaceSize};
ghost use Rattle.lr_drill.specs.Ends.{EndsRace, is_failed};

use crate::passes::run_race;
use crate::summary::summary_of;
use lr_outside::{Sink, Status, write_whole};
use std::alloc::Global;
use std::sync::Wait;
use std::thread::Threads;

/// Runs a race of 1 to 64 threads, of which each makes so many calls, at most 10,000, and writes
/// its summary.
///
/// All threads call one server at once. Thread number i, from 1, makes its calls one after another,
/// and its call number j comes at the reading j, in milliseconds. Where a thread can't be had the
/// calling one does its work too.
///
/// `WriteFault` comes at the first write that fails. `NoMemory` comes where memory runs out, or the
/// server refuses a call, and then nothing is written.
pub fn race_top<R: Threads + Wait + Sync, K: Sink>(
    rt: &R,
    alloc: Global,
    threads: u32,
    calls: u32,
    sink: &mut K,
) -> Status
    requires { IsRaceSize threads calls }
    ensures ends { EndsRace threads calls (K.held sink.old) (K.held sink.new) result }
    ensures counts { CountsFaults (K.faults sink.old) (K.faults sink.new) (is_failed result) }
    ensures untouched { result ≡ Status.NoMemory → sink.new ≡ sink.old }
{
    let Some(server) = run_race(rt, alloc, threads, calls) else {
        return Status::NoMemory;
    };
    let Ok(text) = summary_of(alloc, threads, server.history()) else {
        return Status::NoMemory;
    };
    if write_whole(sink, text.as_slice()) {
        Status::Done
    } else {
        Status::WriteFault
    }
}
