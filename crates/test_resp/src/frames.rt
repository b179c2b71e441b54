use crate::streams::{Outcome, outcome_in_pieces, outcome_of};
use bytes::BytesMut;
use lr_resp::{Decoded, Decoder, Frame, Frames, encode, limits_are_as_defined};
use lr_text::Text;
use std::alloc::{AllocError, Global};
use std::test::Fail;

// A call of the reentrant lock, as a client would send it: 99 bytes.
const FCALL: &[u8] = b"*6\r\n$5\r\nFCALL\r\n$8\r\nlock_try\r\n$1\r\n1\r\n$1\r\na\r\n\
    $38\r\n00000000-0000-0000-0000-000000000001:1\r\n$5\r\n30000\r\n";

// Frames of every type, after the page of the protocol.
const WHOLE: [&[u8]; 22] = [
    b"+OK\r\n",
    b"+\r\n",
    b"-ERR unknown command\r\n",
    b"-\r\n",
    b":0\r\n",
    b":1000\r\n",
    b":-1\r\n",
    b":9223372036854775807\r\n",
    b":-9223372036854775808\r\n",
    b"$0\r\n\r\n",
    b"$5\r\nhello\r\n",
    b"$4\r\n\r\n\r\n\r\n",
    b"$-1\r\n",
    b"*-1\r\n",
    b"*0\r\n",
    b"*2\r\n$5\r\nhello\r\n$5\r\nworld\r\n",
    b"*3\r\n:1\r\n:2\r\n:3\r\n",
    b"*5\r\n:1\r\n:2\r\n:3\r\n:4\r\n$5\r\nhello\r\n",
    b"*2\r\n*3\r\n:1\r\n:2\r\n:3\r\n*2\r\n+Hello\r\n-World\r\n",
    b"*3\r\n$5\r\nhello\r\n$-1\r\n*-1\r\n",
    b"*1\r\n*1\r\n*1\r\n*2\r\n+a\r\n$-1\r\n",
    FCALL,
];

// Whether a stream gave one frame, which is written so.
fn is_one(outcome: &Outcome, bytes: &[u8]) -> bool {
    outcome.frames == 1 && outcome.fault.is_none() && outcome.written.as_slice() == bytes
}

fn is_none(outcome: &Outcome) -> bool {
    outcome.frames == 0 && outcome.fault.is_none() && outcome.written.is_empty()
}

// Whether these bytes are a frame in pieces of 1 to 7 bytes, and at once.
fn is_read_in_pieces(alloc: Global, bytes: &[u8]) -> Result<bool, AllocError> {
    for size in 1..8usize {
        if !is_one(&outcome_in_pieces(alloc, bytes, size)?, bytes) {
            return Ok(false);
        }
    }
    Ok(is_one(&outcome_of(alloc, &[bytes])?, bytes))
}

// Whether they are one when they are cut at each place, and whether what stands before the cut is
// a part.
fn is_read_when_cut(alloc: Global, bytes: &[u8]) -> Result<bool, AllocError> {
    for place in 0..bytes.len() {
        let (front, rest) = bytes.split_at(place);
        let whole = is_one(&outcome_of(alloc, &[front, rest])?, bytes);
        if !whole || !is_none(&outcome_of(alloc, &[front])?) {
            return Ok(false);
        }
    }
    Ok(true)
}

fn are_read_in_pieces(alloc: Global) -> Result<bool, AllocError> {
    for bytes in WHOLE {
        if !is_read_in_pieces(alloc, bytes)? {
            return Ok(false);
        }
    }
    Ok(true)
}

fn are_read_when_cut(alloc: Global) -> Result<bool, AllocError> {
    for bytes in WHOLE {
        if !is_read_when_cut(alloc, bytes)? {
            return Ok(false);
        }
    }
    Ok(true)
}

#[test]
fn frames_are_read_in_pieces(rt: HostRuntime) -> Result<(), Fail> {
    assert!(rt; are_read_in_pieces(rt.alloc())?);
    Ok(())
}

#[test]
fn frames_are_read_when_cut(rt: HostRuntime) -> Result<(), Fail> {
    assert!(rt; FCALL.len() == 99 && are_read_when_cut(rt.alloc())?);
    Ok(())
}

fn text(alloc: Global, bytes: &[u8]) -> Result<Text, AllocError> {
    Text::of(alloc, bytes)
}

fn array(alloc: Global, frame: Frame, other: Frame) -> Result<Frame, AllocError> {
    let mut items = Vec::with_capacity(alloc, 2)?;
    items.push(frame)?;
    items.push(other)?;
    Ok(Frame::Array(Frames::of(items)))
}

// Whether a frame is written so, behind what is there.
fn is_written(alloc: Global, frame: &Frame, bytes: &[u8]) -> Result<bool, AllocError> {
    let mut out = BytesMut::new(alloc);
    out.extend_from_slice(b"$")?;
    encode(frame, &mut out)?;
    let marked = out.as_slice().first() == Some(&b'$');
    Ok(marked && &out.as_slice()[1..] == bytes)
}

fn plain_frames(alloc: Global) -> Result<bool, AllocError> {
    let simple = is_written(alloc, &Frame::Simple(text(alloc, b"OK")?), b"+OK\r\n")?;
    let fault = is_written(
        alloc,
        &Frame::Fault(text(alloc, b"ERR no")?),
        b"-ERR no\r\n",
    )?;
    let bulk = is_written(
        alloc,
        &Frame::Bulk(text(alloc, b"\r\n")?),
        b"$2\r\n\r\n\r\n",
    )?;
    let least = is_written(
        alloc,
        &Frame::Number(i64::MIN),
        b":-9223372036854775808\r\n",
    )?;
    let null = is_written(alloc, &Frame::Null, b"$-1\r\n")?;
    Ok(simple && fault && bulk && least && null)
}

fn arrays(alloc: Global) -> Result<bool, AllocError> {
    let inner = array(alloc, Frame::Number(-7), Frame::Null)?;
    let outer = array(alloc, inner, Frame::Bulk(text(alloc, b"x")?))?;
    let nested = is_written(alloc, &outer, b"*2\r\n*2\r\n:-7\r\n$-1\r\n$1\r\nx\r\n")?;
    let empty = is_written(alloc, &Frame::Array(Frames::new(alloc)), b"*0\r\n")?;
    Ok(nested && empty && is_written(alloc, &Frame::NullArray, b"*-1\r\n")?)
}

#[test]
fn frames_are_written(rt: HostRuntime) -> Result<(), Fail> {
    limits_are_as_defined();
    assert!(rt; plain_frames(rt.alloc())? && arrays(rt.alloc())?);
    Ok(())
}

// Whether these are a null and a number.
fn is_null_and(items: &Frames, number: i64) -> bool {
    match items.as_slice() {
        [Frame::Null, Frame::Number(n)] => *n == number && items.len() == 2 && !items.is_empty(),
        _ => false,
    }
}

// What is read is of the type that its mark says.
fn is_read_as(alloc: Global, bytes: &[u8]) -> Result<bool, AllocError> {
    let mut decoder = Decoder::new(alloc);
    decoder.feed(bytes)?;
    match decoder.next()? {
        Decoded::Frame(Frame::Array(items)) => Ok(is_null_and(&items, -20)),
        _ => Ok(false),
    }
}

#[test]
fn frames_have_their_types(rt: HostRuntime) -> Result<(), Fail> {
    assert!(rt; is_read_as(rt.alloc(), b"*2\r\n$-1\r\n:-20\r\n")?);
    Ok(())
}
