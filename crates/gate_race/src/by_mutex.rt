use crate::tally::{Tally, first_tally, scrambled};
use std::alloc::{AllocError, Global};
use std::sync::{Mutex, Wait};
use std::thread;
use std::thread::Threads;

/// So many threads take so many turns each under a mutex. Answers how many turns were taken.
pub fn count_turns<R: Threads + Wait + Sync>(
    rt: &R,
    alloc: Global,
    threads: u32,
    turns: u32,
) -> Result<u64, AllocError> {
    let lock = Mutex::new(first_tally());
    let shared = &lock;
    thread::map_indices(
        rt,
        alloc,
        threads as usize,
        &|_| { take_turns(rt, shared, turns) },
    )?;
    Ok(lock.into_inner().turns)
}

fn take_turns<R: Wait>(rt: &R, lock: &Mutex<Tally>, turns: u32) {
    for _ in 0..turns {
        let mut tally = lock.lock(rt);
        let noise = scrambled(tally.noise);
        let turns = tally.turns.wrapping_add(1);
        *tally = Tally { turns, noise };
    }
}
