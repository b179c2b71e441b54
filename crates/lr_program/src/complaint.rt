// What standard error says of a run that didn't go well.
ghost use Rattle.std.specs.Prelude.{◌≡◌, ℕ, ◌-◌, List, slice_get, IfSome, Some};
ghost use Rattle.lr_schedule.specs.Explanation.{explanation};
ghost use Rattle.lr_program.specs.Recent.{pieces_of};
ghost use Rattle.lr_program.specs.Remembering.{recent_of, Remembers};

use crate::drill::read_drill;
use crate::numbers::{NumbersFault, Place};
use crate::race::{MOST_CALLS, MOST_THREADS, read_race};
use crate::remembering_source::RememberingSource;
use lr_limits::MOST_EVENTS;
use lr_outside::{Source, Status};
use lr_schedule::explain;
use lr_text::Text;
use std::alloc::Global;
use std::{fmt, str};

/// The commands that take no further word.
const COMMANDS: [&[u8]; 3] = [b"play", b"--help", b"--version"];

/// The commands that take two numbers.
const RACE: &[u8] = b"race";

const DRILL: &[u8] = b"drill";

/// How these are written.
const RACE_FORM: &str = "lockd race THREADS CALLS";

const DRILL_FORM: &str = "lockd drill NUMBER EVENTS";

/// The commands that aren't there yet.
const LATER: [&[u8]; 3] = [b"serve", b"shell", b"audit"];

/// What is wrong with the words of a command line.
#[derive(Clone, Copy)]
pub enum WordsFault<'a> {
    /// There is no word.
    Missing,
    /// The first word is no command.
    Unknown(&'a str),
    /// The first word is a command that isn't there yet.
    Later(&'a str),
    /// This word stands behind a command that takes no further word.
    TooMuch(&'a str),
    /// This number isn't there behind a command that takes it.
    NoNumber(Place),
    /// This word stands at the place of the number, and doesn't spell one within its limits.
    BadNumber(Place, &'a str),
    /// A word isn't UTF-8.
    NotText,
}

impl fmt::Display for WordsFault<'_> {
    fn fmt<W: fmt::Write>(&self, f: &mut fmt::Formatter<W>) -> fmt::Result {
        match self {
            WordsFault::Missing => f.write_str("lockd: there is no command")?,
            WordsFault::Unknown(word) => write!(f, "lockd: {word:?} is no command")?,
            WordsFault::Later(word) => write!(f, "lockd: {word} isn't there yet")?,
            WordsFault::TooMuch(word) => write!(f, "lockd: {word:?} is too much")?,
            WordsFault::NoNumber(number) => write!(f, "lockd: there is no {number}")?,
            WordsFault::BadNumber(number, word) => write!(f, "lockd: {word:?} is no {number}")?,
            WordsFault::NotText => f.write_str("lockd: a word of the command line isn't UTF-8")?,
        }
        f.write_str("; lockd --help tells more")
    }
}

// What the number is, the command that it stands behind, and its limits.
impl fmt::Display for Place {
    fn fmt<W: fmt::Write>(&self, f: &mut fmt::Formatter<W>) -> fmt::Result {
        let (what, command, name, least, most) = match self {
            Place::Threads => ("number of threads", RACE_FORM, "THREADS", 1, MOST_THREADS),
            Place::Calls => ("number of calls", RACE_FORM, "CALLS", 0, MOST_CALLS),
            Place::Number => ("number to draw from", DRILL_FORM, "NUMBER", 0, u64::MAX),
            Place::Events => ("number of events", DRILL_FORM, "EVENTS", 0, MOST_EVENTS),
        };
        write!(
            f,
            "{what}; the command is {command}, with {name} from {least} to {most} and no leading \
                zeros"
        )
    }
}

/// What is wrong with these words, which are no command.
pub fn words_fault(words: &[Text]) -> WordsFault<'_> {
    let Some((first, others)) = words.split_first() else {
        return WordsFault::Missing;
    };
    if is_one_of(first, &LATER) {
        return WordsFault::Later(as_str(first));
    }
    if let Some(fault) = numbers_fault(first, others) {
        return told_fault(fault);
    }
    match others.first() {
        Some(word) if is_one_of(first, &COMMANDS) => WordsFault::TooMuch(as_str(word)),
        _ => WordsFault::Unknown(as_str(first)),
    }
}

// What is wrong with the words of a race or a drill: `None` where they ask for neither.
fn numbers_fault<'a>(first: &Text, others: &'a [Text]) -> Option<NumbersFault<'a>> {
    if first.as_slice() == RACE {
        return read_race(others).err();
    }
    if first.as_slice() == DRILL {
        return read_drill(others).err();
    }
    None
}

fn told_fault(fault: NumbersFault<'_>) -> WordsFault<'_> {
    match fault {
        NumbersFault::Missing(place) => WordsFault::NoNumber(place),
        NumbersFault::Wrong(place, word) => WordsFault::BadNumber(place, as_str(word)),
        NumbersFault::TooMuch(word) => WordsFault::TooMuch(as_str(word)),
    }
}

fn is_one_of(word: &Text, list: &[&[u8]]) -> bool {
    list.iter().any(|listed| word.as_slice() == *listed)
}

// A word as std gave it, which is UTF-8.
fn as_str(word: &Text) -> &str {
    str::from_utf8(word.as_slice()).unwrap_or("")
}

/// What is said of a fault that no line and no word has caused: `None` where there was none.
pub fn fault_text(status: Status) -> Option<&'static str> {
    match status {
        Status::ReadFault => Some("lockd: standard input can't be read"),
        Status::WriteFault => Some("lockd: standard output can't be written"),
        Status::NoMemory => Some("lockd: memory ran out"),
        _ => None,
    }
}

/// Why the line of this number was refused: `None` where the line isn't remembered, or where memory
/// runs out.
pub fn explained<S: Source>(
    alloc: Global,
    number: u64,
    source: &RememberingSource<S>,
) -> Option<Text>
    // It shows that line of what was read.
    ensures { (text : List ℕ) → Remembers text (recent_of source.now)
        → IfSome result (λ said. (line reason : List ℕ)
        × (slice_get (pieces_of text) (number - 1) ≡ Some line)
        × (said ≡ explanation number reason line)) }
{
    let line = source.line(number)?;
    explain(alloc, number, line).ok()
}
