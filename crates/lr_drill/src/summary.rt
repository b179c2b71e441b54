// What is written of a race and of a drill.
ghost use Rattle.std.specs.Prelude.{◌≡◌, ◌++◌, ◌+◌, length, codes, IfOk, OnOk};
ghost use Rattle.lr_drill.specs.Drill.{summary_after};
ghost use Rattle.lr_drill.specs.Drilling.{drilled_of};
ghost use Rattle.lr_drill.specs.Summary.{number_line, caller_line, caller_lines, race_summary};

use crate::drilled::Drill;
use lr_service::History;
use lr_text::{Text, write_number};
use std::alloc::{AllocError, Global};

/// The summary of a race of so many threads, which is counted from its history.
pub fn summary_of(alloc: Global, threads: u32, history: &History) -> Result<Text, AllocError>
    ensures { IfOk result (λ text. text ≡ race_summary threads history.now.entries) }
{
    let mut text = Text::new(alloc);
    write_line(&mut text, b"threads ", u64::from(threads))?;
    write_line(&mut text, b"entries ", history.len())?;
    for place in 0..threads {
        write_caller(&mut text, history, place + 1)?;
    }
    Ok(text)
}

/// The summary of a drill of so many events.
#[tactic(auto, using(crate::proofs::Sleepers::asleep_is))]
pub fn summary_of_drill(alloc: Global, events: u32, drill: &Drill) -> Result<Text, AllocError>
    ensures { IfOk result (λ text. text ≡ summary_after events (drilled_of drill.now)) }
{
    let asleep = drill.world.stands()?.as_slice().len();
    let mut text = Text::new(alloc);
    write_line(&mut text, b"events ", u64::from(events))?;
    write_line(&mut text, b"no ", u64::from(drill.not_applied))?;
    write_line(&mut text, b"entries ", drill.world.history().len())?;
    write_line(&mut text, b"moment ", drill.world.moment())?;
    write_line(&mut text, b"asleep ", asleep as u64)?;
    Ok(text)
}

// Appends a line that ends in a number.
fn write_line(text: &mut Text, label: &[u8], number: u64) -> Result<(), AllocError>
    ensures { OnOk result (text.new ≡ text.old ++ number_line label.now number) }
{
    text.push_bytes(label)?;
    write_number(text, number)?;
    text.push(b'\n')
}

// Appends the line of a caller.
fn write_caller(text: &mut Text, history: &History, caller: u32) -> Result<(), AllocError>
    ensures { OnOk result (text.new ≡ text.old ++ caller_line history.now.entries caller) }
{
    let made = history.filter_caller(u64::from(caller))?.len();
    text.push_bytes(b"caller ")?;
    write_number(text, u64::from(caller))?;
    write_line(text, b" ", made as u64)
}
