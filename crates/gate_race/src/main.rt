//! Threads that take turns with one value, behind a gate or under the kit's mutex. It writes how
//! many turns were taken. `bench/gate.py` times it.
#![tactic(auto)]

mod by_gate;
mod by_mutex;
mod tally;

use std::alloc::AllocError;
use std::{env, io};

// The number that a word spells, 1 if it spells none.
fn number(word: Option<String>) -> u32 {
    match word {
        Some(word) => word.parse::<u32>().unwrap_or(1),
        None => 1,
    }
}

// Whether the word is `mutex`.
fn is_mutex(word: Option<String>) -> bool {
    match word {
        Some(word) => word.as_str() == "mutex",
        None => false,
    }
}

fn main(rt: HostRuntime) -> io::Result<()> {
    let mut words = env::args(&rt)?.skip(1);
    let under_mutex = is_mutex(words.next());
    let threads = number(words.next());
    let turns = number(words.next());
    let taken = if under_mutex {
        by_mutex::count_turns(&rt, rt.alloc(), threads, turns)
    } else {
        by_gate::count_turns(&rt, rt.alloc(), threads, turns)
    };
    match taken {
        Ok(taken) => println!(rt; "{taken}"),
        Err(AllocError) => println!(rt; "no memory"),
    }
}
