// What the program does for the words of its command line.
ghost use Rattle.std.specs.Prelude.{◌≡◌, ◌≢◌, ◌≤◌, ◌⊎◌, ◌↔◌, List, ℕ, Some, false};
ghost use Rattle.lr_limits.specs.Limits.{event_limit};
ghost use Rattle.lr_outside.specs.Lines.{lines_of};
ghost use Rattle.lr_outside.specs.Turns.{CountsFaults, Rose};
ghost use Rattle.lr_machine.specs.declared.event.Event.{Event};
ghost use Rattle.lr_machine.specs.Transcript.{AreLinesOf};
ghost use Rattle.lr_play.specs.Ends.{WhereTold, EndsSo, IsPlay, IsEndOfPlay, is_read_fault, is_write_fault};
ghost use Rattle.lr_drill.specs.Race.{IsRaceSize};
ghost use Rattle.lr_drill.specs.Ends.{EndsDrill, EndsRace};
ghost use Rattle.lr_program.specs.Commands.{IsHelp, IsVersion, IsRaceOf, IsDrillOf, AreNoCommand, IsShown};

use crate::command::{Command, command_of};
use crate::texts::{HELP, VERSION};
use lr_drill::{drill_top, race_top};
use lr_outside::{Sink, Source, Status, write_whole};
use lr_play::play_top;
use lr_text::Text;
use std::alloc::Global;
use std::sync::Wait;
use std::thread::Threads;

/// Does what these words ask for, reading from the source and writing to the sink. The threads of a
/// race are started by the runtime.
pub fn obey<R: Threads + Wait + Sync, S: Source, K: Sink>(
    rt: &R,
    alloc: Global,
    words: &[Text],
    source: &mut S,
    sink: &mut K,
) -> Status
    // The texts are written whole, or a front of them where a write fails.
    ensures help { IsHelp words.now → IsShown (K.held sink.old) (K.held sink.new) HELP.now result }
    ensures version { IsVersion words.now
        → IsShown (K.held sink.old) (K.held sink.new) VERSION.now result }
    ensures unread { ¬ (IsPlay words.now) → source.new ≡ source.old }

    // What is known at each end of `play`.
    ensures ends { IsPlay words.now → WhereTold (S.left source.old) (S.left source.new)
        (K.held sink.old) (K.held sink.new) (EndsSo result) }

    // What is known at each end of a race.
    ensures race { (threads calls : ℕ) → IsRaceOf words.now threads calls
        → EndsRace threads calls (K.held sink.old) (K.held sink.new) result }

    // What is known at each end of a drill.
    ensures drill { (number events : ℕ) → IsDrillOf words.now number events
        → EndsDrill number events (K.held sink.old) (K.held sink.new) result }

    // Other words are a usage fault: nothing is read or written.
    ensures usage { (result ≡ Status.Usage) ↔ AreNoCommand words.now }
    ensures untouched { result ≡ Status.Usage → (source.new ≡ source.old) × (sink.new ≡ sink.old) }
    ensures no_other { IsEndOfPlay result }

    // A fault comes exactly where a count of faults rose, and then by one.
    ensures read_counts { CountsFaults (S.faults source.old) (S.faults source.new)
        (is_read_fault result) }
    ensures write_counts { CountsFaults (K.faults sink.old) (K.faults sink.new)
        (is_write_fault result) }

    // A schedule whose lines are all events runs through, unless a count of faults rises or memory
    // runs out.
    ensures complete { (all before : List ℕ) (events : List Event) → IsPlay words.now
        → S.left source.old ≡ Some all → K.held sink.old ≡ Some before
        → AreLinesOf 1 (lines_of all) events
        → (Rose (S.faults source.old) (S.faults source.new) → ⊥)
        → (Rose (K.faults sink.old) (K.faults sink.new) → ⊥)
        → (result ≡ Status.Done) ⊎ (result ≡ Status.NoMemory) }
{
    match command_of(words) {
        Command::Help => show(sink, HELP),
        Command::Version => show(sink, VERSION),
        Command::Race { threads, calls } => race(rt, alloc, threads, calls, sink),
        Command::Drill { number, events } => drill(alloc, number, events, sink),
        Command::Run => play_top(alloc, words, source, sink),
    }
}

// Runs a race.
fn race<R: Threads + Wait + Sync, K: Sink>(
    rt: &R,
    alloc: Global,
    threads: u32,
    calls: u32,
    sink: &mut K,
) -> Status
    requires { IsRaceSize threads calls }
    ensures ends { EndsRace threads calls (K.held sink.old) (K.held sink.new) result }
    ensures counts { CountsFaults (K.faults sink.old) (K.faults sink.new) (is_write_fault result) }
    ensures not_read { is_read_fault result ≡ false }
    ensures not_usage { result ≢ Status.Usage }
    ensures no_other { IsEndOfPlay result }
{
    race_top(rt, alloc, threads, calls, sink)
}

// Runs a drill.
fn drill<K: Sink>(alloc: Global, number: u64, events: u32, sink: &mut K) -> Status
    requires { events ≤ event_limit }
    ensures ends { EndsDrill number events (K.held sink.old) (K.held sink.new) result }
    ensures counts { CountsFaults (K.faults sink.old) (K.faults sink.new) (is_write_fault result) }
    ensures not_read { is_read_fault result ≡ false }
    ensures not_usage { result ≢ Status.Usage }
    ensures no_other { IsEndOfPlay result }
{
    drill_top(alloc, number, events, sink)
}

// Writes a text, and tells whether that went well.
fn show<K: Sink>(sink: &mut K, text: &[u8]) -> Status
    ensures shown { IsShown (K.held sink.old) (K.held sink.new) text.now result }
    ensures counts { CountsFaults (K.faults sink.old) (K.faults sink.new) (is_write_fault result) }
{
    if write_whole(sink, text) {
        Status::Done
    } else {
        Status::WriteFault
    }
}
