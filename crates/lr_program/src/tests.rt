use crate::command::{Command, command_of};
use crate::complaint::words_fault;
use crate::dispatch::obey;
use crate::remembering_source::RememberingSource;
use crate::texts::{HELP, VERSION};
use lr_limits::LINE_BYTES;
use lr_outside::{MemSink, MemSource, Status};
use lr_text::{Items, Text};
use std::alloc::{AllocError, Global};
use std::sync::Wait;
use std::test::Fail;
use std::thread::Threads;

const TICK: &str = "tick 5\n";

const TOO_LONG: [u8; LINE_BYTES + 1] = [b'x'; LINE_BYTES + 1];

const TWO_WORDS: [&str; 2] = ["play", "x"];

fn texts_of(alloc: Global, words: &[&str]) -> Result<Items, AllocError> {
    let mut texts = Items::new(alloc);
    for word in words {
        texts.push(Text::of(alloc, word.as_bytes())?)?;
    }
    Ok(texts)
}

// Whether these words end so and write this, where the writes of these numbers fail.
fn ends<R: AllocGlobal + Threads + Wait + Sync>(
    rt: &R,
    words: &[&str],
    input: &str,
    failing: &[u64],
    status: Status,
    written: &[u8],
) -> Result<bool, AllocError> {
    let alloc = rt.alloc();
    let words = texts_of(alloc, words)?;
    let pieces = [input.as_bytes()];
    let mut source = MemSource::new(&pieces, &[]);
    let mut sink = MemSink::new(alloc, failing);
    let end = obey(rt, alloc, words.as_slice(), &mut source, &mut sink);
    Ok(end == status && sink.bytes() == written)
}

fn plays<R: AllocGlobal + Threads + Wait + Sync>(
    rt: &R,
    input: &str,
    status: Status,
    written: &str,
) -> Result<bool, AllocError> {
    ends(rt, &["play"], input, &[], status, written.as_bytes())
}

fn plays_end<R: AllocGlobal + Threads + Wait + Sync>(rt: &R) -> Result<bool, AllocError> {
    let done = plays(rt, TICK, Status::Done, "1 moment 5\n")?;
    let bad = plays(
        rt,
        "tick 5\ntick 05",
        Status::BadLine(2),
        "1 moment 5\nbad line 2\n",
    )?;
    let too_many = plays(rt, "ask 65 1", Status::TooMany(1), "too many 1\n")?;
    Ok(done && bad && too_many)
}

fn texts_are_shown<R: AllocGlobal + Threads + Wait + Sync>(rt: &R) -> Result<bool, AllocError> {
    let version = ends(rt, &["--version"], TICK, &[], Status::Done, VERSION)?;
    let help = ends(rt, &["--help"], TICK, &[], Status::Done, HELP)?;
    Ok(version && help)
}

fn failed_writes_end<R: AllocGlobal + Threads + Wait + Sync>(rt: &R) -> Result<bool, AllocError> {
    let play = ends(rt, &["play"], TICK, &[1], Status::WriteFault, b"")?;
    let help = ends(rt, &["--help"], TICK, &[1], Status::WriteFault, b"")?;
    Ok(play && help)
}

fn other_words_end<R: AllocGlobal + Threads + Wait + Sync>(rt: &R) -> Result<bool, AllocError> {
    let two = ends(rt, &TWO_WORDS, TICK, &[], Status::Usage, b"")?;
    let none = ends(rt, &[], TICK, &[], Status::Usage, b"")?;
    Ok(two && none)
}

#[test]
fn command_lines_have_their_ends(rt: HostRuntime) -> Result<(), Fail> {
    let play = plays_end(&rt)? && failed_writes_end(&rt)?;
    assert!(rt; play && texts_are_shown(&rt)? && other_words_end(&rt)?);
    Ok(())
}

// Whether these words run a race that writes this.
fn races<R: AllocGlobal + Threads + Wait + Sync>(
    rt: &R,
    words: &[&str],
    written: &str,
) -> Result<bool, AllocError> {
    ends(rt, words, TICK, &[], Status::Done, written.as_bytes())
}

fn races_end<R: AllocGlobal + Threads + Wait + Sync>(rt: &R) -> Result<bool, AllocError> {
    let two = races(
        rt,
        &["race", "2", "3"],
        "threads 2\nentries 6\ncaller 1 3\ncaller 2 3\n",
    )?;
    let idle = races(
        rt,
        &["race", "1", "0"],
        "threads 1\nentries 0\ncaller 1 0\n",
    )?;
    let failed = ends(rt, &["race", "1", "0"], TICK, &[1], Status::WriteFault, b"")?;
    Ok(two && idle && failed)
}

#[test]
fn races_have_their_ends(rt: HostRuntime) -> Result<(), Fail> {
    assert!(rt; races_end(&rt)?);
    Ok(())
}

// Whether these words are no command, and this is said of them.
fn is_refused(alloc: Global, words: &[&str], said: &str) -> Result<bool, AllocError> {
    let texts = texts_of(alloc, words)?;
    let is_run = command_of(texts.as_slice()) == Command::Run;
    Ok(is_run && is_said(alloc, words, said)?)
}

// Whether it is said that this is no number of threads, and what is.
fn is_no_threads(alloc: Global, words: &[&str], fault: &str) -> Result<bool, AllocError> {
    let form = "lockd race THREADS CALLS, with THREADS from 1 to 64 and no leading zeros";
    let said = format!(in alloc;
        "lockd: {fault} number of threads; the command is {form}; lockd --help tells more"
    )?;
    is_refused(alloc, words, said.as_str())
}

// Whether it is said that this is no number of calls, and what is.
fn is_no_calls(alloc: Global, words: &[&str], fault: &str) -> Result<bool, AllocError> {
    let form = "lockd race THREADS CALLS, with CALLS from 0 to 10000 and no leading zeros";
    let said = format!(in alloc;
        "lockd: {fault} number of calls; the command is {form}; lockd --help tells more"
    )?;
    is_refused(alloc, words, said.as_str())
}

fn is_race(alloc: Global, words: &[&str], threads: u32, calls: u32) -> Result<bool, AllocError> {
    let texts = texts_of(alloc, words)?;
    Ok(command_of(texts.as_slice()) == Command::Race { threads, calls })
}

fn races_are_read(alloc: Global) -> Result<bool, AllocError> {
    let small = is_race(alloc, &["race", "1", "0"], 1, 0)?;
    let two = is_race(alloc, &["race", "2", "3"], 2, 3)?;
    let large = is_race(alloc, &["race", "64", "10000"], 64, 10_000)?;
    Ok(small && two && large)
}

fn other_threads_are_refused(alloc: Global) -> Result<bool, AllocError> {
    let missing = is_no_threads(alloc, &["race"], "there is no")?;
    let none = is_no_threads(alloc, &["race", "0", "1"], "\"0\" is no")?;
    let many = is_no_threads(alloc, &["race", "65", "1"], "\"65\" is no")?;
    let spelled = is_no_threads(alloc, &["race", "02", "3"], "\"02\" is no")?;
    Ok(missing && none && many && spelled)
}

fn other_calls_are_refused(alloc: Global) -> Result<bool, AllocError> {
    let missing = is_no_calls(alloc, &["race", "2"], "there is no")?;
    let word = is_no_calls(alloc, &["race", "2", "x"], "\"x\" is no")?;
    let many = is_no_calls(alloc, &["race", "1", "10001"], "\"10001\" is no")?;
    let text = "lockd: \"text\" is too much; lockd --help tells more";
    let more = is_refused(alloc, &["race", "2", "3", "text"], text)?;
    Ok(missing && word && many && more)
}

#[test]
fn words_of_races_are_read(rt: HostRuntime) -> Result<(), Fail> {
    let alloc = rt.alloc();
    let refused = other_threads_are_refused(alloc)? && other_calls_are_refused(alloc)?;
    assert!(rt; refused && races_are_read(alloc)?);
    Ok(())
}

// Whether these words run a drill that writes this.
fn drills<R: AllocGlobal + Threads + Wait + Sync>(
    rt: &R,
    words: &[&str],
    written: &str,
) -> Result<bool, AllocError> {
    ends(rt, words, TICK, &[], Status::Done, written.as_bytes())
}

fn drills_end<R: AllocGlobal + Threads + Wait + Sync>(rt: &R) -> Result<bool, AllocError> {
    let none = "events 0\nno 0\nentries 0\nmoment 0\nasleep 0\n";
    let idle = drills(rt, &["drill", "18446744073709551615", "0"], none)?;
    let failed = ends(
        rt,
        &["drill", "7", "0"],
        TICK,
        &[1],
        Status::WriteFault,
        b"",
    )?;
    Ok(idle && failed)
}

#[test]
fn drills_have_their_ends(rt: HostRuntime) -> Result<(), Fail> {
    assert!(rt; drills_end(&rt)?);
    Ok(())
}

// Whether it is said that this is no number to draw from, and what is.
fn is_no_number(alloc: Global, words: &[&str], fault: &str) -> Result<bool, AllocError> {
    let form = "lockd drill NUMBER EVENTS, with NUMBER from 0 to 18446744073709551615";
    let said = format!(in alloc;
        "lockd: {fault} number to draw from; the command is {form} and no leading zeros; \
            lockd --help tells more"
    )?;
    is_refused(alloc, words, said.as_str())
}

// Whether it is said that this is no number of events, and what is.
fn is_no_events(alloc: Global, words: &[&str], fault: &str) -> Result<bool, AllocError> {
    let form = "lockd drill NUMBER EVENTS, with EVENTS from 0 to 1000000 and no leading zeros";
    let said = format!(in alloc;
        "lockd: {fault} number of events; the command is {form}; lockd --help tells more"
    )?;
    is_refused(alloc, words, said.as_str())
}

fn is_drill(alloc: Global, words: &[&str], number: u64, events: u32) -> Result<bool, AllocError> {
    let texts = texts_of(alloc, words)?;
    Ok(command_of(texts.as_slice()) == Command::Drill { number, events })
}

fn drills_are_read(alloc: Global) -> Result<bool, AllocError> {
    let small = is_drill(alloc, &["drill", "0", "0"], 0, 0)?;
    let greatest = ["drill", "18446744073709551615", "1000000"];
    let large = is_drill(alloc, &greatest, u64::MAX, 1_000_000)?;
    Ok(small && large)
}

fn other_numbers_are_refused(alloc: Global) -> Result<bool, AllocError> {
    let missing = is_no_number(alloc, &["drill"], "there is no")?;
    let word = is_no_number(alloc, &["drill", "x", "1"], "\"x\" is no")?;
    let spelled = is_no_number(alloc, &["drill", "07", "1"], "\"07\" is no")?;
    let large = ["drill", "18446744073709551616", "1"];
    let more = is_no_number(alloc, &large, "\"18446744073709551616\" is no")?;
    Ok(missing && word && spelled && more)
}

fn other_events_are_refused(alloc: Global) -> Result<bool, AllocError> {
    let missing = is_no_events(alloc, &["drill", "7"], "there is no")?;
    let sign = is_no_events(alloc, &["drill", "7", "-1"], "\"-1\" is no")?;
    let many = is_no_events(alloc, &["drill", "7", "1000001"], "\"1000001\" is no")?;
    let text = "lockd: \"text\" is too much; lockd --help tells more";
    let more = is_refused(alloc, &["drill", "7", "1", "text"], text)?;
    Ok(missing && sign && many && more)
}

#[test]
fn words_of_drills_are_read(rt: HostRuntime) -> Result<(), Fail> {
    let alloc = rt.alloc();
    let refused = other_numbers_are_refused(alloc)? && other_events_are_refused(alloc)?;
    assert!(rt; refused && drills_are_read(alloc)?);
    Ok(())
}

// Whether this line is the one that is remembered at its number, behind so many good ones.
fn is_remembered<R: AllocGlobal + Threads + Wait + Sync>(
    rt: &R,
    good: u64,
    line: &[u8],
) -> Result<bool, AllocError> {
    let alloc = rt.alloc();
    let mut input = Vec::new(alloc);
    for _ in 0..good {
        input.extend_from_slice(TICK.as_bytes())?;
    }
    input.extend_from_slice(line)?;
    input.extend_from_slice(b"\ntick 6\n")?;
    let pieces = [input.as_slice()];
    let mut source = RememberingSource::new(alloc, MemSource::new(&pieces, &[]));
    let mut sink = MemSink::new(alloc, &[]);
    let words = texts_of(alloc, &["play"])?;
    let status = obey(rt, alloc, words.as_slice(), &mut source, &mut sink);
    let number = good.saturating_add(1);
    Ok(status == Status::BadLine(number) && source.line(number) == Some(line))
}

// A line is remembered wherever it stands, whole where it isn't too long.
fn lines_are_remembered<R: AllocGlobal + Threads + Wait + Sync>(
    rt: &R,
) -> Result<bool, AllocError> {
    let first = is_remembered(rt, 0, b"tick 05")?;
    let empty = is_remembered(rt, 7, b"")?;
    let late = is_remembered(rt, 20_000, b"begin 1 1 once lock_tyr a 5")?;
    let too_long = is_remembered(rt, 1_169, &TOO_LONG)?;
    Ok(first && empty && late && too_long)
}

#[test]
fn refused_lines_are_remembered(rt: HostRuntime) -> Result<(), Fail> {
    assert!(rt; lines_are_remembered(&rt)?);
    Ok(())
}

// Whether this is said of these words.
fn is_said(alloc: Global, words: &[&str], said: &str) -> Result<bool, AllocError> {
    let words = texts_of(alloc, words)?;
    let text = format!(in alloc; "{}", words_fault(words.as_slice()))?;
    Ok(text.as_str() == said)
}

#[test]
fn words_are_complained_of(rt: HostRuntime) -> Result<(), Fail> {
    let alloc = rt.alloc();
    let missing = "lockd: there is no command; lockd --help tells more";
    let unknown = "lockd: \"plya\" is no command; lockd --help tells more";
    let later = "lockd: serve isn't there yet; lockd --help tells more";
    let too_much = "lockd: \"x\" is too much; lockd --help tells more";
    let first = is_said(alloc, &[], missing)? && is_said(alloc, &["plya", "x"], unknown)?;
    let second = is_said(alloc, &["serve"], later)? && is_said(alloc, &TWO_WORDS, too_much)?;
    assert!(rt; first && second);
    Ok(())
}
