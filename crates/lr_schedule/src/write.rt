ghost use Rattle.std.specs.Prelude.{◌≡◌, [], ◌++◌, false, OnOk, OnErr};
ghost use Rattle.lr_machine.specs.Transcript.{shown_line, bad_line, too_many_line};
ghost use Rattle.lr_schedule.specs.Tail.{tail_text, BeginsWith};

use crate::line::{Line, push_number};
use crate::shown::push_short;
use crate::tail::{append_cuts, append_standings};
use lr_machine::Shown;
use lr_text::Text;
use std::alloc::AllocError;

/// Appends the line of the event with this number: what is shown of it. An error leaves the text as
/// it was.
pub fn write_shown(out: &mut Text, number: u64, shown: &Shown) -> Result<(), AllocError>
    ensures ok { OnOk result (out.new ≡ out.old ++ shown_line number shown.now) }
    ensures err { OnErr result (out.new ≡ out.old) }
{
    let kept = out.len();
    let written = append_shown(out, number, shown);
    if written.is_err() {
        out.truncate(kept);
    }
    written
}

// Appends the line, at once where it is short. An error leaves a front of it.
fn append_shown(out: &mut Text, number: u64, shown: &Shown) -> Result<(), AllocError>
    ensures ok { OnOk result (out.new ≡ out.old ++ shown_line number shown.now) }
    ensures err { OnErr result (BeginsWith out.old out.new) }
{
    let mut line = Line::new();
    push_number(&mut line, number);
    line.push_bytes(b" ");
    push_short(&mut line, shown);
    if has_tail(shown) {
        out.push_bytes(line.as_slice())?;
        append_tail(out, shown)?;
        return out.push(b'\n');
    }
    line.push_bytes(b"\n");
    out.push_bytes(line.as_slice())
}

// Whether a list is shown that may be too long for a short line.
fn has_tail(shown: &Shown) -> bool
    ensures { result ≡ false → tail_text shown.now ≡ [] }
{
    match shown {
        Shown::Replied(replied) => !replied.cut.connections().is_empty(),
        Shown::Standings(_) => true,
        _ => false,
    }
}

// Appends the list. An error leaves a front of it.
fn append_tail(out: &mut Text, shown: &Shown) -> Result<(), AllocError>
    ensures ok { OnOk result (out.new ≡ out.old ++ tail_text shown.now) }
    ensures err { OnErr result (BeginsWith out.old out.new) }
{
    match shown {
        Shown::Replied(replied) => append_cuts(out, replied.cut.connections()),
        Shown::Standings(standings) => append_standings(out, standings.as_slice()),
        _ => Ok(()),
    }
}

/// Appends what ends a transcript at a bad line with this number. An error leaves the text as it
/// was.
pub fn write_bad(out: &mut Text, number: u64) -> Result<(), AllocError>
    ensures ok { OnOk result (out.new ≡ out.old ++ bad_line number) }
    ensures err { OnErr result (out.new ≡ out.old) }
{
    let mut line = Line::new();
    line.push_bytes(b"bad line ");
    push_number(&mut line, number);
    line.push_bytes(b"\n");
    out.push_bytes(line.as_slice())
}

/// Appends what ends a transcript at a line with this number that is outside the limits. An error
/// leaves the text as it was.
pub fn write_too_many(out: &mut Text, number: u64) -> Result<(), AllocError>
    ensures ok { OnOk result (out.new ≡ out.old ++ too_many_line number) }
    ensures err { OnErr result (out.new ≡ out.old) }
{
    let mut line = Line::new();
    line.push_bytes(b"too many ");
    push_number(&mut line, number);
    line.push_bytes(b"\n");
    out.push_bytes(line.as_slice())
}
