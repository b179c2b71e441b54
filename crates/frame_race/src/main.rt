//! Reads a stream of equal frames that comes in pieces. It writes how many frames came, and on
//! standard error what reading them took, in nanoseconds of the processor. `bench/frames.py` runs
//! it.
//!
//!     frame_race calls|large BYTES FRAMES
//!
//! BYTES is how many bytes a piece has, 0 for the whole stream at once, and FRAMES how many frames
//! the stream has.
#![tactic(auto)]

ghost use Rattle.std.specs.Prelude.{◌≡◌, ◌<◌, ◌-◌, ◌^◌, ◌==◌, if◌then◌else◌, true, false, IfOk, replicate};
ghost use Rattle.std.specs.List.{concat};
ghost use Rattle.frame_race.specs.Repeated.{IsRepeated};

mod frames;
mod reading;

use bytes::BytesMut;
use frames::{CALL, copies, large_frame};
use reading::count_frames;
use std::alloc::{AllocError, Global};
use std::time::CpuClock;
use std::{env, io};

// The number that a word spells, 0 if it spells none.
fn number(word: Option<String>) -> u32 {
    match word {
        Some(word) => word.parse::<u32>().unwrap_or(0),
        None => 0,
    }
}

// Whether the word is `large`.
fn is_large(word: Option<String>) -> bool {
    match word {
        Some(word) => word.as_str() == "large",
        None => false,
    }
}

// How many bytes a piece has, where 0 means all.
fn piece_size(bytes: u32) -> usize
    ensures size { result ≡ (if bytes == 0 then 2 ^ 64 - 1 else bytes) }
    ensures some { 0 < result }
{
    if 0 < bytes {
        bytes as usize
    } else {
        usize::MAX
    }
}

// The stream of so many frames of a kind.
fn stream_of(alloc: Global, is_large: bool, frames: u32) -> Result<BytesMut, AllocError>
    ensures call { is_large ≡ false
        → IfOk result (λ bytes. bytes.items ≡ concat (replicate frames CALL.now)) }
    ensures large { is_large ≡ true → IfOk result (λ bytes. IsRepeated frames 983000 bytes.items) }
{
    if is_large {
        copies(alloc, large_frame(alloc)?.as_slice(), frames)
    } else {
        copies(alloc, CALL, frames)
    }
}

fn main(rt: HostRuntime) -> io::Result<()> {
    let mut words = env::args(&rt)?.skip(1);
    let large = is_large(words.next());
    let size = piece_size(number(words.next()));
    let frames = number(words.next());
    let Ok(stream) = stream_of(rt.alloc(), large, frames) else {
        return println!(rt; "no memory");
    };
    let start = rt.thread_cpu_time()?;
    let counted = count_frames(rt.alloc(), stream.as_slice(), size);
    let took = rt.thread_cpu_time()?.saturating_sub(start).as_nanos();
    match counted {
        Ok(count) => {
            eprintln!(rt; "{took}")?;
            println!(rt; "{count}")
        }
        Err(AllocError) => println!(rt; "no memory"),
    }
}
