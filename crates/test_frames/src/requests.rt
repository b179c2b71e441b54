use crate::lines::{bytes_of, frame_of};
use lr_frames::{Words, call_frame, read_op};
use lr_names::{Name, Owner};
use lr_objects::{Call, LockCall, Op};
use lr_resp::{Decoded, Decoder, Frame, Frames};
use lr_text::Text;
use std::alloc::{AllocError, Global};
use std::test::Fail;
use uuid::Uuid;

// A call of the reentrant lock, as a client sends it: 99 bytes.
const FCALL: &[u8] = b"*6\r\n$5\r\nFCALL\r\n$8\r\nlock_try\r\n$1\r\n1\r\n$1\r\na\r\n\
    $38\r\n00000000-0000-0000-0000-000000000001:1\r\n$5\r\n30000\r\n";

fn lock_try() -> Option<Op> {
    let Ok(name) = Name::parse(b"a") else {
        return None;
    };
    Some(Op {
        name,
        call: Call::Lock(LockCall::Try {
            owner: Owner::new(Uuid::from_u128(1), 1),
            lease: 30_000,
        }),
    })
}

// Whether that call is written as those bytes.
fn call_is_written(alloc: Global) -> Result<bool, AllocError> {
    let Some(op) = lock_try() else {
        return Ok(false);
    };
    let frame = call_frame(alloc, &op)?;
    Ok(bytes_of(alloc, &frame)?.as_slice() == FCALL)
}

// Whether a decoder wants more behind these bytes.
fn is_part(alloc: Global, bytes: &[u8]) -> Result<bool, AllocError> {
    let mut decoder = Decoder::new(alloc);
    decoder.feed(bytes)?;
    Ok(matches!(decoder.next()?, Decoded::More))
}

fn fronts_are_parts(alloc: Global) -> Result<bool, AllocError> {
    for place in 0..FCALL.len() {
        if !is_part(alloc, &FCALL[..place])? {
            return Ok(false);
        }
    }
    Ok(true)
}

// Whether the words of a frame behind `FCALL lock_try 1` are that call.
fn is_lock_try(frame: &Frame) -> bool {
    match Words::of(frame) {
        Some(words) => read_op(words.word(1), &words.behind(3)).ok() == lock_try(),
        None => false,
    }
}

// Whether that call is read from those bytes.
fn call_is_read(alloc: Global) -> Result<bool, AllocError> {
    let mut decoder = Decoder::new(alloc);
    decoder.feed(FCALL)?;
    match decoder.next()? {
        Decoded::Frame(frame) => Ok(is_lock_try(&frame)),
        _ => Ok(false),
    }
}

#[test]
fn a_call_has_its_bytes(rt: HostRuntime) -> Result<(), Fail> {
    assert!(rt; FCALL.len() == 99 && call_is_written(rt.alloc())?);
    Ok(())
}

#[test]
fn a_call_comes_in_pieces(rt: HostRuntime) -> Result<(), Fail> {
    assert!(rt; fronts_are_parts(rt.alloc())? && call_is_read(rt.alloc())?);
    Ok(())
}

// An array of a bulk string and this frame.
fn pair(alloc: Global, frame: Frame) -> Result<Frame, AllocError> {
    let mut items = Vec::with_capacity(alloc, 2)?;
    items.push(Frame::Bulk(Text::of(alloc, b"PING")?))?;
    items.push(frame)?;
    Ok(Frame::Array(Frames::of(items)))
}

fn is_request(frame: &Frame) -> bool {
    Words::of(frame).is_some()
}

fn plain_frames_are_none(alloc: Global) -> Result<bool, AllocError> {
    let simple = is_request(&Frame::Simple(Text::of(alloc, b"PING")?));
    let bulk = is_request(&Frame::Bulk(Text::of(alloc, b"PING")?));
    let empty = is_request(&Frame::Array(Frames::new(alloc)));
    Ok(!simple && !bulk && !empty && !is_request(&Frame::NullArray))
}

fn mixed_frames_are_none(alloc: Global) -> Result<bool, AllocError> {
    let number = is_request(&pair(alloc, Frame::Number(1))?);
    let null = is_request(&pair(alloc, Frame::Null)?);
    let array = is_request(&pair(alloc, Frame::Array(Frames::new(alloc)))?);
    Ok(!number && !null && !array)
}

#[test]
fn other_frames_are_no_requests(rt: HostRuntime) -> Result<(), Fail> {
    assert!(rt; plain_frames_are_none(rt.alloc())? && mixed_frames_are_none(rt.alloc())?);
    Ok(())
}

// Whether there is this word at a place.
fn has_word(words: &Words<'_>, place: usize, wanted: &[u8]) -> bool {
    match words.get(place) {
        Some(word) => word == wanted && words.word(place) == wanted,
        None => false,
    }
}

// Words behind others, with an empty one among them.
fn words_are_seen(alloc: Global) -> Result<bool, AllocError> {
    let frame = frame_of(alloc, b"one  three")?;
    let Some(words) = Words::of(&frame) else {
        return Ok(false);
    };
    let rest = words.behind(1);
    let all = words.len() == 3 && has_word(&words, 0, b"one") && has_word(&words, 1, b"");
    let last = rest.len() == 2 && has_word(&rest, 1, b"three") && rest.get(2).is_none();
    Ok(all && last && words.behind(4).is_empty() && words.word(3).is_empty())
}

#[test]
fn words_are_counted(rt: HostRuntime) -> Result<(), Fail> {
    assert!(rt; words_are_seen(rt.alloc())?);
    Ok(())
}
