ghost use Rattle.std.specs.Prelude.{◌<◌};

use bytes::BytesMut;
use lr_resp::{Cause, Decoded, Decoder, encode};
use std::alloc::{AllocError, Global};

/// What became of a stream: how many frames it gave, their bytes as they are written again, and
/// the fault that it met.
#[derive(Drop)]
pub struct Outcome {
    pub frames: u64,
    pub written: BytesMut,
    pub fault: Option<(u64, Cause)>,
}

// The next answer of a decoder, put to the outcome: whether it is worth to ask again.
fn take_next(decoder: &mut Decoder, outcome: &mut Outcome) -> Result<bool, AllocError> {
    match decoder.next()? {
        Decoded::Frame(frame) => {
            outcome.frames = outcome.frames.wrapping_add(1);
            encode(&frame, &mut outcome.written)?;
            Ok(true)
        }
        Decoded::More => Ok(false),
        Decoded::Broken { place, cause } => {
            outcome.fault = Some((place, cause));
            Ok(false)
        }
    }
}

// Feeds a piece, and takes what stands next until that is no frame.
fn feed_piece(
    decoder: &mut Decoder,
    piece: &[u8],
    outcome: &mut Outcome,
) -> Result<(), AllocError> {
    decoder.feed(piece)?;
    for _ in 0..1_000u32 {
        if !take_next(decoder, outcome)? {
            break;
        }
    }
    Ok(())
}

/// What becomes of these pieces, one behind the other.
pub fn outcome_of(alloc: Global, pieces: &[&[u8]]) -> Result<Outcome, AllocError> {
    let mut decoder = Decoder::new(alloc);
    let mut outcome = Outcome {
        frames: 0,
        written: BytesMut::new(alloc),
        fault: None,
    };
    for piece in pieces {
        feed_piece(&mut decoder, piece, &mut outcome)?;
    }
    Ok(outcome)
}

/// The same of bytes in pieces of this size.
pub fn outcome_in_pieces(alloc: Global, bytes: &[u8], size: usize) -> Result<Outcome, AllocError>
    requires { 0 < size }
{
    let mut pieces: Vec<&[u8]> = Vec::new(alloc);
    for piece in bytes.chunks(size) {
        pieces.push(piece)?;
    }
    outcome_of(alloc, pieces.as_slice())
}
