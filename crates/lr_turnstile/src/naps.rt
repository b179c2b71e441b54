ghost use Rattle.std.specs.Prelude.{◌≤◌};

use std::sync::Wait;
use std::sync::atomic::AtomicU64;
use std::time::Duration;
use std::{hint, thread};

/// So many times a thread that finds the gate taken only spins, each time twice as long.
const SPINS: u32 = 6;

/// From so many tries on it naps; before, it lets another thread run.
const TRIES_AWAKE: u32 = 10;

/// The shortest nap, in microseconds.
const SHORT_NAP: u64 = 50;

/// So many times a nap is twice as long as the one before.
const LONGER_NAPS: u32 = 5;

/// Where threads spend the time until their turn.
#[derive(Drop)]
pub struct Naps {
    // It is 0 for ever, so that nobody wakes who sleeps on it before the time is up.
    pillow: AtomicU64,
}

impl Naps {
    /// A place where nobody sleeps.
    pub fn new() -> Self {
        Naps {
            pillow: AtomicU64::new(0),
        }
    }

    /// Lets whoever has the turn get on, after so many tries that were in vain.
    pub fn pause<R: Wait>(&self, rt: &R, tries: u32) {
        if tries < SPINS {
            spin(1 << tries);
        } else if tries < TRIES_AWAKE {
            thread::yield_now();
        } else {
            self.nap(rt, (tries - TRIES_AWAKE).min(LONGER_NAPS));
        }
    }

    // Sleeps for the shortest nap, doubled so many times.
    fn nap<R: Wait>(&self, rt: &R, doublings: u32)
        requires { doublings ≤ LONGER_NAPS }
    {
        let nap = Duration::from_micros(SHORT_NAP << doublings);
        self.pillow.park_timeout(rt, 0, nap);
    }
}

// Spins so many times.
fn spin(times: u32) {
    for _ in 0..times {
        hint::spin_loop();
    }
}
