// What is said of a race or a drill that takes long, before it begins.
use crate::command::{Command, command_of};
use lr_text::Text;
use std::io::IsTerminal;

/// A race of so many calls, those of all threads together, or a drill of so many events, or more,
/// takes long.
const LONG: u64 = 100_000;

/// Says on standard error what the race or the drill of these words is about to do, where it takes
/// long and standard error is a terminal. Neither can say how far it is.
pub fn announce<R: Eprint, E: IsTerminal>(rt: &R, errors: &E, words: &[Text]) {
    let command = command_of(words);
    if !takes_long(command) || !errors.is_terminal() {
        return;
    }
    match command {
        Command::Race { threads, calls } => {
            let _ = eprintln!(rt; "lockd: {threads} threads make {calls} calls each ..");
        }
        Command::Drill { number, events } => {
            let _ = eprintln!(rt; "lockd: {events} events are drawn from {number} ..");
        }
        _ => {}
    }
}

fn takes_long(command: Command) -> bool {
    match command {
        Command::Race { threads, calls } => {
            u64::from(threads).saturating_mul(u64::from(calls)) >= LONG
        }
        Command::Drill { events, .. } => u64::from(events) >= LONG,
        _ => false,
    }
}
