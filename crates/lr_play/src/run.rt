//! The loop over the lines of a schedule.
ghost use Rattle.std.specs.Prelude.{◌≡◌, ◌<◌, ◌≤◌, ◌+◌, List, ℕ, IfSome, IfNone, Some, None, true, false};
ghost use Rattle.lr_limits.specs.Limits.{event_limit};
ghost use Rattle.lr_outside.specs.Turns.{CountsFaults};
ghost use Rattle.lr_machine.specs.declared.schedule_line.ScheduleLine.TheVariants as kinds;
ghost use Rattle.lr_machine.specs.Within.{IsWithin, MayBegin};
ghost use Rattle.lr_machine.specs.World.{first_world, next};
ghost use Rattle.lr_world.specs.World.{world_of};
ghost use Rattle.lr_play.specs.Ends.{WhereTold, EndsSo, IsEndOfRun, is_read_fault, is_write_fault};
ghost use Rattle.lr_play.specs.Progress.{IsAt, Ends, Told, ToldAnyhow};

use lr_machine::{Event, ScheduleLine};
use lr_outside::{LineReader, LineTurn, Sink, Source, Status, write_whole};
use lr_schedule::{read_line, write_bad, write_shown, write_too_many};
use lr_text::Text;
use lr_world::World;
use std::alloc::Global;

// Applies an event and writes what is shown of it. `None` where the run goes on.
#[tactic(auto, using(crate::proofs::Lines::nothing_told))]
fn show<K: Sink>(
    world: &mut World,
    out: &mut Text,
    number: u64,
    event: &Event,
    sink: &mut K,
) -> Option<Status>
    requires within { IsWithin event.now }
    requires begins { MayBegin event.now }
    requires room { world.old.applied < event_limit }
    ensures told { Told (world_of world.old) number (kinds.Event event.now)
        (K.held sink.old) (K.held sink.new) result }
    ensures next { IfNone result (world_of world.new ≡ next (world_of world.old) event.now) }
    ensures count { IfNone result (world.new.applied ≡ world.old.applied + 1) }
    ensures goes_on { IfNone result (CountsFaults (K.faults sink.old) (K.faults sink.new) false) }
    ensures counts { IfSome result (λ status.
        CountsFaults (K.faults sink.old) (K.faults sink.new) (is_write_fault status)) }
    ensures not_read { IfSome result (λ status. is_read_fault status ≡ false) }
    ensures no_other { IfSome result IsEndOfRun }
{
    let Ok(shown) = world.apply(event) else {
        return Some(Status::NoMemory);
    };
    out.clear();
    if write_shown(out, number, &shown).is_err() {
        return Some(Status::NoMemory);
    }
    if write_whole(sink, out.as_slice()) {
        None
    } else {
        Some(Status::WriteFault)
    }
}

// Writes that a line is bad, which ends the run.
#[tactic(auto, using(crate::proofs::Lines::nothing_told))]
fn refuse_bad<K: Sink>(out: &mut Text, number: u64, sink: &mut K) -> Status
    ensures told { ToldAnyhow number kinds.Bad (K.held sink.old) (K.held sink.new) result }
    ensures counts { CountsFaults (K.faults sink.old) (K.faults sink.new) (is_write_fault result) }
    ensures not_read { is_read_fault result ≡ false }
    ensures no_other { IsEndOfRun result }
{
    out.clear();
    if write_bad(out, number).is_err() {
        return Status::NoMemory;
    }
    if write_whole(sink, out.as_slice()) {
        Status::BadLine(number)
    } else {
        Status::WriteFault
    }
}

// Writes that a line is too many, which ends the run.
#[tactic(auto, using(crate::proofs::Lines::nothing_told))]
fn refuse_too_many<K: Sink>(out: &mut Text, number: u64, sink: &mut K) -> Status
    ensures told { ToldAnyhow number kinds.TooMany (K.held sink.old) (K.held sink.new) result }
    ensures counts { CountsFaults (K.faults sink.old) (K.faults sink.new) (is_write_fault result) }
    ensures not_read { is_read_fault result ≡ false }
    ensures no_other { IsEndOfRun result }
{
    out.clear();
    if write_too_many(out, number).is_err() {
        return Status::NoMemory;
    }
    if write_whole(sink, out.as_slice()) {
        Status::TooMany(number)
    } else {
        Status::WriteFault
    }
}

// Takes one line of a schedule. `None` where the run goes on.
fn take_line<S: Source, K: Sink>(
    world: &mut World,
    reader: &mut LineReader,
    out: &mut Text,
    number: u64,
    source: &mut S,
    sink: &mut K,
) -> Option<Status>
    requires free { reader.old.stuck ≡ false }
    requires place { number ≡ world.old.applied + 1 }
    ensures goes_on { IfNone result ((all before : List ℕ)
        → IsAt reader.old.kept (S.left source.old) (K.held sink.old) all before
        number (world_of world.old)
        → IsAt reader.new.kept (S.left source.new) (K.held sink.new) all before
        (number + 1) (world_of world.new)) }
    ensures ends { IfSome result (λ status. (all before : List ℕ)
        → IsAt reader.old.kept (S.left source.old) (K.held sink.old) all before
        number (world_of world.old)
        → Ends status (S.left source.new) (K.held sink.new) all before) }
    ensures read_on { IfNone result
        (CountsFaults (S.faults source.old) (S.faults source.new) false) }
    ensures read_counts { IfSome result (λ status.
        CountsFaults (S.faults source.old) (S.faults source.new) (is_read_fault status)) }
    ensures write_on { IfNone result (CountsFaults (K.faults sink.old) (K.faults sink.new) false) }
    ensures write_counts { IfSome result (λ status.
        CountsFaults (K.faults sink.old) (K.faults sink.new) (is_write_fault status)) }
    ensures free { IfNone result (reader.new.stuck ≡ false) }
    ensures place { IfNone result (world.new.applied ≡ world.old.applied + 1) }
    ensures limit { IfNone result (number ≤ event_limit) }
    ensures no_other { IfSome result IsEndOfRun }
{
    match reader.next(source) {
        LineTurn::Line(line) => match read_line(number, line.as_slice()) {
            ScheduleLine::Event(event) => show(world, out, number, &event, sink),
            ScheduleLine::Bad => Some(refuse_bad(out, number, sink)),
            ScheduleLine::TooMany => Some(refuse_too_many(out, number, sink)),
        },
        LineTurn::End => Some(Status::Done),
        LineTurn::TooLong => Some(refuse_bad(out, number, sink)),
        LineTurn::Fault => Some(Status::ReadFault),
    }
}

/// Runs a schedule on a world before its first event: reads it line by line, applies each event and
/// writes what is shown of it before it reads the next line. It always returns.
pub(crate) fn run<S: Source, K: Sink>(
    alloc: Global,
    world: &mut World,
    source: &mut S,
    sink: &mut K,
) -> Status
    requires first { world_of world.old ≡ first_world }
    requires unused { world.old.applied ≡ 0 }
    ensures ends { WhereTold (S.left source.old) (S.left source.new)
        (K.held sink.old) (K.held sink.new) (EndsSo result) }
    ensures read_counts { CountsFaults (S.faults source.old) (S.faults source.new)
        (is_read_fault result) }
    ensures write_counts { CountsFaults (K.faults sink.old) (K.faults sink.new)
        (is_write_fault result) }
    ensures no_other { IsEndOfRun result }
{
    let Ok(mut reader) = LineReader::new(alloc) else {
        return Status::NoMemory;
    };
    let mut out = Text::new(alloc);
    let mut number = 1;
    loop {
        if let Some(status) = take_line(world, &mut reader, &mut out, number, source, sink) {
            return status;
        }
        number += 1;
    }
}
