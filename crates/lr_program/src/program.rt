// The program on standard input, standard output and standard error.
ghost use Rattle.std.specs.Prelude.{◌≡◌, ◌↔◌};
ghost use Rattle.std.specs.Process.{exit_status};
ghost use Rattle.lr_outside.specs.Status.{number_of};
ghost use Rattle.lr_outside.specs.declared.status.Status.{Status};
ghost use Rattle.lr_play.specs.Ends.{IsEndOfPlay};
ghost use Rattle.lr_program.specs.Commands.{AreNoCommand};

use crate::complaint::{WordsFault, explained, fault_text, words_fault};
use crate::dispatch::obey;
use crate::progress::announce;
use crate::remembering_source::RememberingSource;
use crate::texts::USAGE;
use crate::words::read_words;
use lr_outside::{InputSource, OutputSink, Source, Status};
use lr_text::Text;
use std::io::IsTerminal;
use std::process::ExitCode;
use std::rt::Env;
use std::sync::Wait;
use std::thread::Threads;
use std::{io, str};

/// Does what the command line asks for, on standard input and output, and says on standard error
/// what went wrong. The exit status tells each fault, even where that can't be said. `errors` tells
/// whether standard error is a terminal.
pub fn run<R, E>(rt: &R, errors: &E) -> ExitCode
where
    R: Env + Input + Print + Eprint + AllocGlobal + Threads + Wait + Sync,
    E: IsTerminal,
    ensures { (status : Status) × IsEndOfPlay status × (exit_status result ≡ number_of status) }
{
    let status = run_line(rt, errors);
    if let Some(text) = fault_text(status) {
        let _ = rt.eprintln(text);
    }
    exit_code(status)
}

fn exit_code(status: Status) -> ExitCode
    ensures { exit_status result ≡ number_of status }
{
    ExitCode::from(status.number())
}

fn run_line<R, E>(rt: &R, errors: &E) -> Status
where
    R: Env + Input + Print + Eprint + AllocGlobal + Threads + Wait + Sync,
    E: IsTerminal,
    ensures { IsEndOfPlay result }
{
    match read_words(rt) {
        Ok(words) => run_words(rt, errors, words.as_slice()),
        Err(Status::Usage) => {
            complain_of_words(rt, &WordsFault::NotText);
            Status::Usage
        }
        Err(status) => status,
    }
}

// Does what these words ask for.
fn run_words<R, E>(rt: &R, errors: &E, words: &[Text]) -> Status
where
    R: Input + Print + Eprint + AllocGlobal + Threads + Wait + Sync,
    E: IsTerminal,
    ensures usage { (result ≡ Status.Usage) ↔ AreNoCommand words.now }
    ensures no_other { IsEndOfPlay result }
{
    let mut source = RememberingSource::new(rt.alloc(), InputSource::new(rt.reader()));
    let mut sink = OutputSink::new(io::writer(rt));
    announce(rt, errors, words);
    let status = obey(rt, rt.alloc(), words, &mut source, &mut sink);
    match status {
        Status::Usage => complain_of_words(rt, &words_fault(words)),
        Status::BadLine(number) | Status::TooMany(number) => {
            complain_of_line(rt, number, &source);
        }
        _ => {}
    }
    status
}

fn complain_of_words<R: Eprint>(rt: &R, fault: &WordsFault<'_>) {
    let _ = rt.eprintln(USAGE);
    let _ = rt.eprintln(*fault);
}

fn complain_of_line<R: Eprint + AllocGlobal, S: Source>(
    rt: &R,
    number: u64,
    source: &RememberingSource<S>,
) {
    let Some(text) = explained(rt.alloc(), number, source) else {
        return;
    };
    if let Ok(text) = str::from_utf8(text.as_slice()) {
        let _ = rt.eprintln(text);
    }
}
