// `lockd drill`: a world to which drawn events are applied, and the summary of what became of it.
ghost use Rattle.std.specs.Prelude.{◌≡◌, ◌≤◌, IfOk};
ghost use Rattle.lr_limits.specs.Limits.{event_limit};
ghost use Rattle.lr_outside.specs.Turns.{CountsFaults};
ghost use Rattle.lr_drill.specs.Drill.{drill_summary};
ghost use Rattle.lr_drill.specs.Ends.{EndsDrill, is_failed};

use crate::drilled::run_drill;
use crate::summary::summary_of_drill;
use lr_outside::{Sink, Status, write_whole};
use lr_text::Text;
use std::alloc::{AllocError, Global};

/// Draws so many events from a number, at most 1,000,000, applies them to a world one after the
/// other, and writes the summary of what became of it. The same number draws the same events.
///
/// `WriteFault` comes at the first write that fails. `NoMemory` comes where memory runs out, and
/// then nothing is written.
pub fn drill_top<K: Sink>(alloc: Global, number: u64, events: u32, sink: &mut K) -> Status
    requires { events ≤ event_limit }
    ensures ends { EndsDrill number events (K.held sink.old) (K.held sink.new) result }
    ensures counts { CountsFaults (K.faults sink.old) (K.faults sink.new) (is_failed result) }
    ensures untouched { result ≡ Status.NoMemory → sink.new ≡ sink.old }
{
    let Ok(text) = drill_summary(alloc, number, events) else {
        return Status::NoMemory;
    };
    if write_whole(sink, text.as_slice()) {
        Status::Done
    } else {
        Status::WriteFault
    }
}

// Runs a drill, and sums it up.
fn drill_summary(alloc: Global, number: u64, events: u32) -> Result<Text, AllocError>
    requires { events ≤ event_limit }
    ensures { IfOk result (λ text. text ≡ drill_summary number events) }
{
    let drill = run_drill(alloc, number, events)?;
    summary_of_drill(alloc, events, &drill)
}
