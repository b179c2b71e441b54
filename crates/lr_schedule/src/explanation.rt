ghost use Rattle.std.specs.Prelude.{◌≡◌, ℕ, List, IfOk};
ghost use Rattle.lr_schedule.specs.Explanation.{explanation};

use crate::fault::{Expected, Fault, Outside};
use crate::kind::{WATCH_KINDS, watch_word};
use crate::quotation::push_quotation;
use crate::read::read_spelled;
use crate::spelled::Spelled;
use crate::verb::Verb;
use lr_limits::{
    LAST_MOMENT, LINE_BYTES, LONGEST_LEASE, MOST_AMOUNT, MOST_CLIENTS, MOST_EVENTS, MOST_THREADS,
    NAME_BYTES,
};
use lr_objects::Function;
use lr_text::{Text, Words, write_number};
use std::alloc::{AllocError, Global};

/// Says of a line of a schedule, with its number, why it is no event within the limits: what was
/// expected, and at which word. Of a line that is one it says so.
///
/// The text is one line without its LF. It names the number and shows at most 80 bytes of the line.
pub fn explain(alloc: Global, number: u64, line: &[u8]) -> Result<Text, AllocError>
    ensures { IfOk result (λ text.
        (reason : List ℕ) × (text ≡ explanation number reason line.now)) }
{
    let reason = reason(alloc, number, line)?;
    explanation(alloc, number, reason.as_slice(), line)
}

fn explanation(alloc: Global, number: u64, reason: &[u8], line: &[u8]) -> Result<Text, AllocError>
    ensures { IfOk result (λ text. text ≡ explanation number reason.now line.now) }
{
    let mut text = Text::new(alloc);
    text.push_bytes(b"line ")?;
    write_number(&mut text, number)?;
    text.push_bytes(b": ")?;
    text.push_bytes(reason)?;
    push_quotation(&mut text, line)?;
    text.push_bytes(b")")?;
    Ok(text)
}

// What stands before the line in its explanation.
fn reason(alloc: Global, number: u64, line: &[u8]) -> Result<Text, AllocError> {
    let mut text = Text::new(alloc);
    if line.len() > LINE_BYTES {
        text.push_bytes(b"lines have at most ")?;
        write_number(&mut text, LINE_BYTES as u64)?;
        text.push_bytes(b" bytes (")?;
        return Ok(text);
    }
    match read_spelled(line) {
        Ok(spelled) => push_limit(&mut text, number, &spelled)?,
        Err(fault) => push_fault(&mut text, line, &fault)?,
    }
    Ok(text)
}

// Which limit a line with this number is outside of, where it spells this event.
fn push_limit(text: &mut Text, number: u64, spelled: &Spelled) -> Result<(), AllocError> {
    match spelled.event() {
        Err(outside) => push_outside(text, &outside),
        Ok(_) if number > MOST_EVENTS => {
            text.push_bytes(b"schedules have at most ")?;
            write_number(text, MOST_EVENTS)?;
            text.push_bytes(b" events (")
        }
        Ok(_) => text.push_bytes(b"the line is an event ("),
    }
}

// In each event that names them the client is the second word, and the thread the third.
fn push_outside(text: &mut Text, outside: &Outside) -> Result<(), AllocError> {
    match outside {
        Outside::Client(client) => {
            text.push_bytes(b"client ")?;
            write_number(text, *client)?;
            text.push_bytes(b": clients are ")?;
            push_range(text, 1, u64::from(MOST_CLIENTS))?;
            push_place(text, 2)
        }
        Outside::Thread(thread) => {
            text.push_bytes(b"thread ")?;
            write_number(text, *thread)?;
            text.push_bytes(b": threads are ")?;
            push_range(text, 1, u64::from(MOST_THREADS))?;
            push_place(text, 3)
        }
    }
}

// At which word a line is no event, and what should stand there.
fn push_fault(text: &mut Text, line: &[u8], fault: &Fault) -> Result<(), AllocError> {
    let word = word_at(line, fault.place).unwrap_or(b"");
    push_finding(text, word, fault.expected)?;
    text.push_bytes(b"; ")?;
    push_rule(text, fault.expected)?;
    push_place(text, fault.place)
}

// The word of a line at this place, counted from 1.
fn word_at(line: &[u8], place: u64) -> Option<&[u8]> {
    let mut words = Words::new(line);
    for _ in 1..place {
        words.next()?;
    }
    words.next()
}

// What a word isn't. A word that is missing is told of as an empty one is.
fn push_finding(text: &mut Text, word: &[u8], expected: Expected) -> Result<(), AllocError> {
    let Some(noun) = noun(expected) else {
        push_quotation(text, word)?;
        return text.push_bytes(b" is too much");
    };
    if word.is_empty() {
        text.push_bytes(b"there")?;
    } else {
        push_quotation(text, word)?;
    }
    text.push_bytes(b" is no ")?;
    text.push_bytes(noun)
}

// What should stand at the place: `None` where the line should be over.
fn noun(expected: Expected) -> Option<&'static [u8]> {
    match expected {
        Expected::Verb => Some(b"event"),
        Expected::Client => Some(b"client"),
        Expected::Thread => Some(b"thread"),
        Expected::Mode | Expected::Once(_) => Some(b"mode"),
        Expected::Function => Some(b"function"),
        Expected::Name => Some(b"name"),
        Expected::Lease | Expected::PermitLease => Some(b"lease"),
        Expected::Amount => Some(b"number"),
        Expected::Id => Some(b"id"),
        Expected::Moment => Some(b"moment"),
        Expected::Kind => Some(b"kind"),
        Expected::End => None,
    }
}

// What can stand at the place.
fn push_rule(text: &mut Text, expected: Expected) -> Result<(), AllocError> {
    match expected {
        Expected::Verb => push_verbs(text),
        Expected::Client => push_numbers(text, b"clients are ", 1, u64::from(MOST_CLIENTS)),
        Expected::Thread => push_numbers(text, b"threads are ", 1, u64::from(MOST_THREADS)),
        Expected::Mode => push_modes(text),
        Expected::Once(function) => push_once(text, function),
        Expected::Function => push_functions(text),
        Expected::Name => push_names(text),
        Expected::Lease => push_numbers(text, b"leases are watch, or milliseconds, ", 0, u64::MAX),
        Expected::PermitLease => push_numbers(
            text,
            b"leases of permits are milliseconds, ",
            0,
            u64::MAX,
        ),
        Expected::Amount => push_numbers(text, b"numbers are ", 1, MOST_AMOUNT),
        Expected::Id => text.push_bytes(b"ids are UUIDs in hyphenated lower-case form"),
        Expected::Moment => push_numbers(text, b"moments are milliseconds, ", 0, LAST_MOMENT),
        Expected::Kind => push_kinds(text),
        Expected::End => text.push_bytes(b"the line should be over"),
    }
}

fn push_verbs(text: &mut Text) -> Result<(), AllocError> {
    let mut front: &[u8] = b"events begin with ";
    for verb in Verb::ALL.iter() {
        text.push_bytes(front)?;
        text.push_bytes(verb.word())?;
        front = b", ";
    }
    Ok(())
}

fn push_modes(text: &mut Text) -> Result<(), AllocError> {
    push_numbers(
        text,
        b"the mode is once, long, or milliseconds, ",
        1,
        LONGEST_LEASE,
    )
}

// The mode of a function with which one doesn't wait.
fn push_once(text: &mut Text, function: Function) -> Result<(), AllocError> {
    text.push_bytes(b"with ")?;
    text.push_bytes(function.word())?;
    text.push_bytes(b" the mode is once")
}

fn push_functions(text: &mut Text) -> Result<(), AllocError> {
    let mut front: &[u8] = b"functions are ";
    for function in Function::ALL.iter() {
        if function.begins() {
            text.push_bytes(front)?;
            text.push_bytes(function.word())?;
            front = b", ";
        }
    }
    Ok(())
}

fn push_kinds(text: &mut Text) -> Result<(), AllocError> {
    let mut front: &[u8] = b"kinds are ";
    for kind in WATCH_KINDS.iter() {
        text.push_bytes(front)?;
        text.push_bytes(watch_word(*kind))?;
        front = b", ";
    }
    Ok(())
}

fn push_names(text: &mut Text) -> Result<(), AllocError> {
    text.push_bytes(b"names are ")?;
    push_range(text, 1, NAME_BYTES as u64)?;
    text.push_bytes(b" letters, digits, _, . or -")
}

fn push_numbers(text: &mut Text, front: &[u8], least: u64, most: u64) -> Result<(), AllocError> {
    text.push_bytes(front)?;
    push_range(text, least, most)?;
    text.push_bytes(b", with no leading zeros")
}

fn push_range(text: &mut Text, least: u64, most: u64) -> Result<(), AllocError> {
    write_number(text, least)?;
    text.push_bytes(b" to ")?;
    write_number(text, most)
}

fn push_place(text: &mut Text, place: u64) -> Result<(), AllocError> {
    text.push_bytes(b" (word ")?;
    write_number(text, place)?;
    text.push_bytes(b" of ")
}
