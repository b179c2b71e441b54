ghost use Rattle.std.specs.Prelude.{◌≡◌, ◌⊎◌, ◌↔◌, List, ℕ, Some, IsTrue};
ghost use Rattle.std.specs.List.{AllByRecursion};
ghost use Rattle.lr_outside.specs.Lines.{lines_of};
ghost use Rattle.lr_outside.specs.Turns.{CountsFaults, Rose};
ghost use Rattle.lr_machine.specs.declared.event.Event.{Event};
ghost use Rattle.lr_machine.specs.Renewals.{RenewsInTime};
ghost use Rattle.lr_machine.specs.Sound.{GoesWell};
ghost use Rattle.lr_machine.specs.Transcript.{AreLinesOf};
ghost use Rattle.lr_machine.specs.Within.{IsWithin};
ghost use Rattle.lr_machine_wakeups.specs.Throughout.{NoWakeupIsLost, ThroughoutEverySchedule};
ghost use Rattle.lr_play.specs.Ends.{WhereTold, EndsSo, IsPlay, IsEndOfPlay, is_read_fault, is_write_fault};

use crate::run::run;
use lr_outside::{Sink, Source, Status};
use lr_text::Text;
use lr_world::World;
use std::alloc::Global;

/// `lockd play`: reads a schedule line by line, applies each event to a new world, and writes a line
/// for each event before it reads the next. It waits for nobody and always returns.
///
/// What is left in the source and held by the sink at each status is told for each source and sink
/// that tell their bytes (`EndsSo`): at Done all was read and all that its events show was written; at
/// BadLine and TooMany what the lines up to that line show; at ReadFault what the whole lines read so
/// far show; at WriteFault and NoMemory a front of such a text. Each names the events of the run:
/// their texts are the lines, and after each of them the history is legal, holds each caller's calls
/// once and in order, no two claims that conflict are held at once, and what is promised of the
/// replies of each kind of object is so. Want of memory may end a run at any line.
///
/// No wakeup is lost either: after each of the events one of these stands for each thread that sleeps.
/// On a lock whose channel wakes one, a message of the channel is in flight to its client, a permit of
/// the client's latch is unused, a thread that is registered there is awake, or the timer of one comes
/// no later than the peak of the lock, the latest deadline that a holder got since the last message.
/// Where the channel wakes all, the thread's own call would be refused now, a message is in flight or
/// has come since it asked, or its own timer comes no later than the peak of a read-write lock, or than
/// now where it waits for a permit. No fairness and no waiting time is claimed, nor that the event
/// comes that wakes the thread.
///
/// And where a client that isn't cut off watches a hold that is live, its renewal falls due two
/// thirds of the watchdog's lease before the hold ends, or earlier. That the renewal is asked for
/// then, and executed in time, is up to the schedule.
pub fn play_top<S: Source, K: Sink>(
    alloc: Global,
    words: &[Text],
    source: &mut S,
    sink: &mut K,
) -> Status
    // Other words are a usage fault: nothing is read or written.
    ensures usage { (result ≡ Status.Usage) ↔ (IsPlay words.now → ⊥) }
    ensures untouched { result ≡ Status.Usage → (source.new ≡ source.old) × (sink.new ≡ sink.old) }

    // What is known at each end, and that there is no other.
    ensures ends { IsPlay words.now → WhereTold (S.left source.old) (S.left source.new)
        (K.held sink.old) (K.held sink.new) (EndsSo result) }
    ensures no_other { IsEndOfPlay result }

    // A fault comes exactly where a count of faults rose, and then by one.
    ensures read_counts { CountsFaults (S.faults source.old) (S.faults source.new)
        (is_read_fault result) }
    ensures write_counts { CountsFaults (K.faults sink.old) (K.faults sink.new)
        (is_write_fault result) }

    // A schedule whose lines are all events runs through, unless a count of faults rises or memory
    // runs out.
    ensures complete { (all before : List ℕ) (events : List Event) → IsPlay words.now
        → S.left source.old ≡ Some all → K.held sink.old ≡ Some before
        → AreLinesOf 1 (lines_of all) events
        → (Rose (S.faults source.old) (S.faults source.new) → ⊥)
        → (Rose (K.faults sink.old) (K.faults sink.new) → ⊥)
        → (result ≡ Status.Done) ⊎ (result ≡ Status.NoMemory) }

    // After each event of each schedule the history is legal, holds each caller's calls once and in
    // order, no two claims that conflict are held at once, and what is promised of the replies of
    // each kind of object is so.
    ensures every_event { (events : List Event) → AllByRecursion IsWithin events → GoesWell events }

    // And no wakeup is lost: what stands for a thread that sleeps is never nothing, and no timer that
    // is later than the peak of its lock, or than now where it waits for a permit.
    ensures awake { ThroughoutEverySchedule (λ n world. NoWakeupIsLost world) }

    // And renewals are due in time.
    ensures renews { ThroughoutEverySchedule (λ n world. RenewsInTime world) }
{
    if !is_play(words) {
        return Status::Usage;
    }
    match World::new(alloc) {
        Ok(mut world) => run(alloc, &mut world, source, sink),
        Err(_) => Status::NoMemory,
    }
}

// Whether the words are the one word of the command.
fn is_play(words: &[Text]) -> bool
    ensures { IsTrue result ↔ IsPlay words.now }
{
    match words {
        [word] => is_word(word, b"play"),
        _ => false,
    }
}

// Whether a word is this one.
fn is_word(word: &Text, expected: &[u8]) -> bool
    ensures { IsTrue result ↔ (word.now ≡ expected.now) }
{
    word.as_slice() == expected
}
