ghost use Rattle.std.specs.Prelude.{◌≡◌, ◌<◌, ◌^◌, IfOk, OnOk, length};
ghost use Rattle.lr_resp.specs.Turns.{IsOver};
ghost use Rattle.frame_race.specs.Counted.{BeginsWith, HasFrames, came};

use lr_resp::{Decoded, Decoder};
use std::alloc::{AllocError, Global};
use std::cmp;

/// How many frames a stream gives that comes in pieces of this size. A fault ends them.
pub fn count_frames(alloc: Global, stream: &[u8], size: usize) -> Result<usize, AllocError>
    requires { 0 < size }
    ensures { IfOk result (λ count. HasFrames stream.now count) }
{
    let mut decoder = Decoder::new(alloc);
    let mut count = 0;
    let mut rest = stream;
    while !rest.is_empty() {
        let (piece, behind) = rest.split_at(cmp::min(size, rest.len()));
        decoder.feed(piece)?;
        count += take_frames(&mut decoder)?;
        rest = behind;
    }
    Ok(count)
}

// Takes the frames that stand next, until none does: how many there were.
fn take_frames(decoder: &mut Decoder) -> Result<usize, AllocError>
    requires { length decoder.old.unread < 2 ^ 64 }
    ensures frames { IfOk result (λ count. BeginsWith count decoder.old.unread decoder.new.unread) }
    ensures over { OnOk result (IsOver decoder.new) }
{
    let mut count = 0;
    while is_frame(decoder.next()?) {
        count += 1;
    }
    Ok(count)
}

// Whether a frame came.
fn is_frame(decoded: Decoded) -> bool
    ensures { result ≡ came decoded }
{
    matches!(decoded, Decoded::Frame(_))
}
