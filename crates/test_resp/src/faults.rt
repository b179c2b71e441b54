ghost use Rattle.std.specs.Prelude.{◌<◌};

use crate::streams::{outcome_in_pieces, outcome_of};
use lr_resp::Cause;
use std::alloc::{AllocError, Global};
use std::test::Fail;

// Bytes, how many frames stand before their fault, its place and its cause.
const FAULTS: [(&[u8], u64, u64, Cause); 24] = [
    (b"$03", 0, 2, Cause::BadNumber),
    (b"$-2", 0, 2, Cause::BadNumber),
    (b"$1\n", 0, 2, Cause::BadNumber),
    (b"$-12", 0, 3, Cause::BadNumber),
    (b"*-0", 0, 2, Cause::BadNumber),
    (b":+5", 0, 1, Cause::BadNumber),
    (b":-0", 0, 2, Cause::BadNumber),
    (b":00", 0, 2, Cause::BadNumber),
    (b":\r\n", 0, 1, Cause::BadNumber),
    (b"*65", 0, 2, Cause::TooLong),
    (b"*100", 0, 3, Cause::TooLong),
    (b"$65537", 0, 5, Cause::TooLong),
    (b":9223372036854775808", 0, 19, Cause::TooLong),
    (b":-9223372036854775809", 0, 20, Cause::TooLong),
    (b":10000000000000000000", 0, 20, Cause::TooLong),
    (b"%1", 0, 0, Cause::BadType),
    (b"+OK\r\n?", 1, 5, Cause::BadType),
    (b"*2\r\n:1\r\nx", 0, 8, Cause::BadType),
    (b"$1\r\nab", 0, 5, Cause::BadEnd),
    (b"$0\r\n\r\r", 0, 5, Cause::BadEnd),
    (b"+a\nb", 0, 2, Cause::BadEnd),
    (b"-a\rb", 0, 3, Cause::BadEnd),
    (b":1\r\n:2\rx", 1, 7, Cause::BadEnd),
    (b"*1\r\n*1\r\n*1\r\n*1\r\n*", 0, 16, Cause::TooDeep),
];

// Whether these bytes are broken there in pieces of this size, and stay so when more come.
fn is_broken(
    alloc: Global,
    bytes: &[u8],
    size: usize,
    frames: u64,
    fault: (u64, Cause),
) -> Result<bool, AllocError>
    requires { 0 < size }
{
    let once = outcome_in_pieces(alloc, bytes, size)?;
    let again = outcome_of(alloc, &[bytes, b"\r\n+OK\r\n"])?;
    let same = again.frames == frames && again.fault == Some(fault);
    Ok(once.frames == frames && once.fault == Some(fault) && same)
}

fn is_broken_in_pieces(
    alloc: Global,
    bytes: &[u8],
    frames: u64,
    fault: (u64, Cause),
) -> Result<bool, AllocError> {
    for size in 1..8usize {
        if !is_broken(alloc, bytes, size, frames, fault)? {
            return Ok(false);
        }
    }
    Ok(true)
}

fn are_broken(alloc: Global) -> Result<bool, AllocError> {
    for (bytes, frames, place, cause) in FAULTS {
        if !is_broken_in_pieces(alloc, bytes, frames, (place, cause))? {
            return Ok(false);
        }
    }
    Ok(true)
}

#[test]
fn faults_have_their_places(rt: HostRuntime) -> Result<(), Fail> {
    assert!(rt; are_broken(rt.alloc())?);
    Ok(())
}

// An array of so many bulk strings of 65,536 bytes.
fn bulks(alloc: Global, header: &[u8], count: u32) -> Result<Vec<u8>, AllocError> {
    let mut bytes = Vec::from_slice(alloc, header)?;
    let body = [b'x'; 4_096];
    for _ in 0..count {
        bytes.extend_from_slice(b"$65536\r\n")?;
        for _ in 0..16u32 {
            bytes.extend_from_slice(&body)?;
        }
        bytes.extend_from_slice(b"\r\n")?;
    }
    Ok(bytes)
}

// A line of 512 bytes is a frame, and each longer one is broken at its byte 513.
fn long_lines(alloc: Global) -> Result<bool, AllocError> {
    let line = [b'y'; 513];
    let whole = outcome_of(alloc, &[b"+", &line[..512], b"\r\n"])?;
    let long = outcome_of(alloc, &[b"-", &line])?;
    let ended = outcome_of(alloc, &[b"-", &line[..512], b"\n"])?;
    let fault = Some((513, Cause::TooLong));
    Ok(whole.frames == 1 && long.fault == fault && ended.fault == fault)
}

// 15 bulk strings of 65,536 bytes are a frame, and 17 are broken at the first byte that is too
// many.
fn large_frames(alloc: Global) -> Result<bool, AllocError> {
    let fits = bulks(alloc, b"*15\r\n", 15)?;
    let whole = outcome_in_pieces(alloc, fits.as_slice(), 16_384)?;
    let large = bulks(alloc, b"*17\r\n", 17)?;
    let broken = outcome_in_pieces(alloc, large.as_slice(), 16_384)?;
    let at_once = outcome_of(alloc, &[large.as_slice()])?;
    let fault = Some((1_048_576, Cause::TooLong));
    let written = whole.frames == 1 && whole.written.as_slice() == fits.as_slice();
    Ok(written && broken.fault == fault && at_once.fault == fault)
}

#[test]
fn limits_are_kept(rt: HostRuntime) -> Result<(), Fail> {
    assert!(rt; long_lines(rt.alloc())? && large_frames(rt.alloc())?);
    Ok(())
}
