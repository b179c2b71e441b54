use bytes::BytesMut;
use lr_objects::Function;
use lr_replies::{
    ReplyFault, read_reply, replies_are_readable, replies_are_told_apart, reply_frame,
};
use lr_resp::{Decoded, Decoder, Frame, encode};
use std::alloc::{AllocError, Global};
use std::test::Fail;

// A function, the bytes of a frame, and the word and the number of the reply that it is.
type Row = (&'static [u8], &'static [u8], &'static [u8], Option<u64>);

// What tries answer.
const TRIES: [Row; 20] = [
    (b"lock_try", b"$-1\r\n", b"granted", None),
    (b"fair_try", b"$-1\r\n", b"granted", None),
    (b"rw_read", b"$-1\r\n", b"granted", None),
    (b"rw_write", b"$-1\r\n", b"granted", None),
    (b"permit_try", b"$-1\r\n", b"granted", None),
    (b"sem_try", b":1\r\n", b"granted", None),
    (b"fenced_try", b"*2\r\n$-1\r\n:0\r\n", b"token", Some(0)),
    (
        b"fenced_try",
        b"*2\r\n$-1\r\n:9007199254740991\r\n",
        b"token",
        Some(9_007_199_254_740_991),
    ),
    (
        b"fenced_try",
        b"*2\r\n$-1\r\n:9223372036854775807\r\n",
        b"token",
        Some(9_223_372_036_854_775_807),
    ),
    (b"lock_try", b":1\r\n", b"busy", Some(1)),
    (b"fair_try", b":1\r\n", b"busy", Some(1)),
    (b"rw_read", b":1\r\n", b"busy", Some(1)),
    (b"rw_write", b":1\r\n", b"busy", Some(1)),
    (b"fenced_try", b":1\r\n", b"busy", Some(1)),
    (b"permit_try", b":1\r\n", b"busy", Some(1)),
    (
        b"lock_try",
        b":9223372036854775807\r\n",
        b"busy",
        Some(9_223_372_036_854_775_807),
    ),
    (
        b"fenced_try",
        b":9223372036854775807\r\n",
        b"busy",
        Some(9_223_372_036_854_775_807),
    ),
    (
        b"permit_try",
        b":9223372036854775807\r\n",
        b"busy",
        Some(9_223_372_036_854_775_807),
    ),
    (b"sem_try", b":0\r\n", b"short", None),
    (b"permit_try", b":0\r\n", b"short", None),
];

// What else functions of locks answer.
const LOCKS: [Row; 27] = [
    (b"lock_unlock", b":0\r\n", b"kept", None),
    (b"fair_unlock", b":0\r\n", b"kept", None),
    (b"rw_unlock_read", b":0\r\n", b"kept", None),
    (b"rw_unlock_write", b":0\r\n", b"kept", None),
    (b"fenced_unlock", b":0\r\n", b"kept", None),
    (b"lock_unlock", b":1\r\n", b"freed", None),
    (b"fair_unlock", b":1\r\n", b"freed", None),
    (b"rw_unlock_read", b":1\r\n", b"freed", None),
    (b"rw_unlock_write", b":1\r\n", b"freed", None),
    (b"fenced_unlock", b":1\r\n", b"freed", None),
    (b"lock_force", b":1\r\n", b"freed", None),
    (b"lock_unlock", b"$-1\r\n", b"not-held", None),
    (b"fair_unlock", b"$-1\r\n", b"not-held", None),
    (b"rw_unlock_read", b"$-1\r\n", b"not-held", None),
    (b"rw_unlock_write", b"$-1\r\n", b"not-held", None),
    (b"fenced_unlock", b"$-1\r\n", b"not-held", None),
    (b"lock_force", b":0\r\n", b"not-held", None),
    (b"lock_renew", b":1\r\n", b"renewed", None),
    (b"fair_renew", b":1\r\n", b"renewed", None),
    (b"rw_renew", b":1\r\n", b"renewed", None),
    (b"fenced_renew", b":1\r\n", b"renewed", None),
    (b"lock_renew", b":0\r\n", b"lost", None),
    (b"fair_renew", b":0\r\n", b"lost", None),
    (b"rw_renew", b":0\r\n", b"lost", None),
    (b"fenced_renew", b":0\r\n", b"lost", None),
    (b"fair_leave", b":1\r\n", b"left", None),
    (b"fair_leave", b":0\r\n", b"unknown", None),
];

// What other functions of numbers and permits answer.
const NUMBERS: [Row; 21] = [
    (b"permit_release", b":1\r\n", b"freed", None),
    (b"sem_set", b":1\r\n", b"set", None),
    (b"permit_set", b":1\r\n", b"set", None),
    (b"latch_set", b":1\r\n", b"set", None),
    (b"sem_set", b":0\r\n", b"already-set", None),
    (b"permit_set", b":0\r\n", b"already-set", None),
    (b"latch_set", b":0\r\n", b"already-set", None),
    (b"sem_count", b":0\r\n", b"count", Some(0)),
    (b"permit_count", b":0\r\n", b"count", Some(0)),
    (b"latch_count", b":0\r\n", b"count", Some(0)),
    (b"latch_down", b":0\r\n", b"count", Some(0)),
    (b"fenced_token", b":0\r\n", b"count", Some(0)),
    (b"sem_release", b":0\r\n", b"count", Some(0)),
    (
        b"sem_count",
        b":1000000000\r\n",
        b"count",
        Some(1_000_000_000),
    ),
    (
        b"permit_count",
        b":1000000000\r\n",
        b"count",
        Some(1_000_000_000),
    ),
    (
        b"latch_count",
        b":1000000000\r\n",
        b"count",
        Some(1_000_000_000),
    ),
    (
        b"latch_down",
        b":1000000000\r\n",
        b"count",
        Some(1_000_000_000),
    ),
    (
        b"fenced_token",
        b":1000000000\r\n",
        b"count",
        Some(1_000_000_000),
    ),
    (
        b"sem_release",
        b":1000000000\r\n",
        b"count",
        Some(1_000_000_000),
    ),
    (
        b"fenced_token",
        b":9223372036854775807\r\n",
        b"count",
        Some(9_223_372_036_854_775_807),
    ),
    (b"permit_release", b":0\r\n", b"unknown", None),
];

// The errors.
const REFUSALS: [Row; 26] = [
    (
        b"permit_try",
        b"-LOCK permit id in use\r\n",
        b"already-set",
        None,
    ),
    (b"lock_try", b"-LOCK too deep\r\n", b"too-deep", None),
    (b"fair_try", b"-LOCK too deep\r\n", b"too-deep", None),
    (b"rw_read", b"-LOCK too deep\r\n", b"too-deep", None),
    (b"rw_write", b"-LOCK too deep\r\n", b"too-deep", None),
    (b"fenced_try", b"-LOCK too deep\r\n", b"too-deep", None),
    (b"fair_try", b"-LOCK too many\r\n", b"too-many", None),
    (b"rw_read", b"-LOCK too many\r\n", b"too-many", None),
    (b"sem_release", b"-LOCK too many\r\n", b"too-many", None),
    (b"permit_try", b"-LOCK too many\r\n", b"too-many", None),
    (
        b"fenced_try",
        b"-LOCK tokens spent\r\n",
        b"tokens-spent",
        None,
    ),
    (b"lock_try", b"-LOCK bad lease\r\n", b"bad-lease", None),
    (b"fair_try", b"-LOCK bad lease\r\n", b"bad-lease", None),
    (b"rw_read", b"-LOCK bad lease\r\n", b"bad-lease", None),
    (b"rw_write", b"-LOCK bad lease\r\n", b"bad-lease", None),
    (b"fenced_try", b"-LOCK bad lease\r\n", b"bad-lease", None),
    (b"permit_try", b"-LOCK bad lease\r\n", b"bad-lease", None),
    (b"lock_unlock", b"-LOCK bad lease\r\n", b"bad-lease", None),
    (b"fair_unlock", b"-LOCK bad lease\r\n", b"bad-lease", None),
    (
        b"rw_unlock_read",
        b"-LOCK bad lease\r\n",
        b"bad-lease",
        None,
    ),
    (
        b"rw_unlock_write",
        b"-LOCK bad lease\r\n",
        b"bad-lease",
        None,
    ),
    (b"fenced_unlock", b"-LOCK bad lease\r\n", b"bad-lease", None),
    (b"lock_renew", b"-LOCK bad lease\r\n", b"bad-lease", None),
    (b"fair_renew", b"-LOCK bad lease\r\n", b"bad-lease", None),
    (b"rw_renew", b"-LOCK bad lease\r\n", b"bad-lease", None),
    (b"fenced_renew", b"-LOCK bad lease\r\n", b"bad-lease", None),
];

// A function, and the bytes of a frame that none of its replies has.
const NONE: [(&[u8], &[u8]); 59] = [
    (b"lock_try", b":0\r\n"),
    (b"fair_try", b":0\r\n"),
    (b"rw_read", b":0\r\n"),
    (b"rw_write", b":0\r\n"),
    (b"fenced_try", b":0\r\n"),
    (b"lock_try", b":-1\r\n"),
    (b"permit_try", b":-1\r\n"),
    (b"sem_try", b":-1\r\n"),
    (b"lock_unlock", b":-1\r\n"),
    (b"sem_count", b":-1\r\n"),
    (b"lock_try", b"*-1\r\n"),
    (b"lock_try", b"*2\r\n$-1\r\n:7\r\n"),
    (b"lock_try", b"-LOCK too many\r\n"),
    (b"lock_try", b"-LOCK tokens spent\r\n"),
    (b"lock_try", b"-LOCK permit id in use\r\n"),
    (b"lock_try", b"-LOCK too deeper\r\n"),
    (b"lock_try", b"-lock too deep\r\n"),
    (b"lock_try", b"+LOCK too deep\r\n"),
    (b"lock_try", b"-LOCK\r\n"),
    (b"lock_try", b"+OK\r\n"),
    (b"lock_try", b"$1\r\n1\r\n"),
    (b"lock_try", b"*0\r\n"),
    (b"rw_write", b"-LOCK too many\r\n"),
    (b"fair_try", b"-LOCK tokens spent\r\n"),
    (b"rw_read", b"-LOCK tokens spent\r\n"),
    (b"fenced_try", b"$-1\r\n"),
    (b"fenced_try", b"*2\r\n:7\r\n$-1\r\n"),
    (b"fenced_try", b"*2\r\n$-1\r\n:-1\r\n"),
    (b"fenced_try", b"*1\r\n$-1\r\n"),
    (b"fenced_try", b"*3\r\n$-1\r\n:7\r\n:7\r\n"),
    (b"fenced_try", b"*2\r\n*-1\r\n:7\r\n"),
    (b"fenced_try", b"*2\r\n$-1\r\n$1\r\n7\r\n"),
    (b"fenced_try", b"*2\r\n$0\r\n\r\n:7\r\n"),
    (b"fenced_try", b"-LOCK too many\r\n"),
    (b"sem_try", b"$-1\r\n"),
    (b"sem_try", b":2\r\n"),
    (b"sem_try", b"-LOCK bad lease\r\n"),
    (b"permit_try", b"-LOCK too deep\r\n"),
    (b"permit_try", b"*2\r\n$-1\r\n:7\r\n"),
    (b"lock_unlock", b":2\r\n"),
    (b"lock_renew", b":2\r\n"),
    (b"lock_force", b":2\r\n"),
    (b"fair_leave", b":2\r\n"),
    (b"sem_set", b":2\r\n"),
    (b"permit_release", b":2\r\n"),
    (b"lock_renew", b"$-1\r\n"),
    (b"lock_force", b"$-1\r\n"),
    (b"fair_leave", b"$-1\r\n"),
    (b"sem_set", b"$-1\r\n"),
    (b"permit_release", b"$-1\r\n"),
    (b"sem_count", b"$-1\r\n"),
    (b"lock_force", b"-LOCK bad lease\r\n"),
    (b"fair_leave", b"-LOCK bad lease\r\n"),
    (b"permit_release", b"-LOCK bad lease\r\n"),
    (b"sem_count", b"-LOCK bad lease\r\n"),
    (b"sem_set", b"-LOCK bad lease\r\n"),
    (b"sem_count", b"-LOCK too many\r\n"),
    (b"latch_down", b"-LOCK too many\r\n"),
    (b"sem_release", b"-LOCK bad lease\r\n"),
];

// The frame with these bytes.
fn frame_of(alloc: Global, bytes: &[u8]) -> Result<Frame, AllocError> {
    let mut decoder = Decoder::new(alloc);
    decoder.feed(bytes)?;
    match decoder.next()? {
        Decoded::Frame(frame) => Ok(frame),
        Decoded::More | Decoded::Broken { .. } => Ok(Frame::NullArray),
    }
}

// Whether a frame is read as the reply of this word and number, and the reply is written so.
fn is_reply(
    alloc: Global,
    function: Function,
    bytes: &[u8],
    word: &[u8],
    number: Option<u64>,
) -> Result<bool, AllocError> {
    let Ok(reply) = read_reply(function, &frame_of(alloc, bytes)?) else {
        return Ok(false);
    };
    let mut out = BytesMut::new(alloc);
    encode(&reply_frame(alloc, function, &reply)?, &mut out)?;
    Ok(reply.word() == word && reply.number() == number && out.as_slice() == bytes)
}

fn is_row(alloc: Global, row: &Row) -> Result<bool, AllocError> {
    let (function, bytes, word, number) = *row;
    match Function::of_word(function) {
        Some(function) => is_reply(alloc, function, bytes, word, number),
        None => Ok(false),
    }
}

fn are_rows(alloc: Global, rows: &[Row]) -> Result<bool, AllocError> {
    for row in rows {
        if !is_row(alloc, row)? {
            return Ok(false);
        }
    }
    Ok(true)
}

#[test]
fn tries_have_their_frames(rt: HostRuntime) -> Result<(), Fail> {
    assert!(rt; are_rows(rt.alloc(), &TRIES)?);
    Ok(())
}

#[test]
fn locks_have_their_frames(rt: HostRuntime) -> Result<(), Fail> {
    assert!(rt; are_rows(rt.alloc(), &LOCKS)?);
    Ok(())
}

#[test]
fn numbers_have_their_frames(rt: HostRuntime) -> Result<(), Fail> {
    assert!(rt; are_rows(rt.alloc(), &NUMBERS)?);
    Ok(())
}

#[test]
fn refusals_have_their_frames(rt: HostRuntime) -> Result<(), Fail> {
    replies_are_readable();
    replies_are_told_apart();
    assert!(rt; are_rows(rt.alloc(), &REFUSALS)?);
    Ok(())
}

// Whether a frame with these bytes is no reply of the function.
fn is_none(alloc: Global, function: Function, bytes: &[u8]) -> Result<bool, AllocError> {
    let frame = frame_of(alloc, bytes)?;
    let mut out = BytesMut::new(alloc);
    encode(&frame, &mut out)?;
    let is_frame = out.as_slice() == bytes;
    Ok(is_frame && read_reply(function, &frame) == Err(ReplyFault::NotAReply))
}

fn are_none(alloc: Global) -> Result<bool, AllocError> {
    for (function, bytes) in NONE {
        let Some(function) = Function::of_word(function) else {
            return Ok(false);
        };
        if !is_none(alloc, function, bytes)? {
            return Ok(false);
        }
    }
    Ok(true)
}

#[test]
fn other_frames_are_no_replies(rt: HostRuntime) -> Result<(), Fail> {
    assert!(rt; are_none(rt.alloc())?);
    Ok(())
}
