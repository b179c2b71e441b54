use bytes::BytesMut;
use lr_frames::{OpFault, Words, call_frame, read_call};
use lr_objects::Op;
use lr_resp::{Frame, Frames, encode};
use lr_text::Text;
use std::alloc::{AllocError, Global};

/// The request of these words, with single spaces between.
pub fn frame_of(alloc: Global, line: &[u8]) -> Result<Frame, AllocError> {
    let mut items = Vec::new(alloc);
    for word in line.split(|byte| *byte == b' ') {
        items.push(Frame::Bulk(Text::of(alloc, word)?))?;
    }
    Ok(Frame::Array(Frames::of(items)))
}

/// The bytes of a frame.
pub fn bytes_of(alloc: Global, frame: &Frame) -> Result<BytesMut, AllocError> {
    let mut bytes = BytesMut::new(alloc);
    encode(frame, &mut bytes)?;
    Ok(bytes)
}

/// Whether a call is written as this frame.
pub fn is_written(alloc: Global, op: &Op, frame: &Frame) -> Result<bool, AllocError> {
    let written = call_frame(alloc, op)?;
    let bytes = bytes_of(alloc, &written)?;
    let wanted = bytes_of(alloc, frame)?;
    Ok(bytes.as_slice() == wanted.as_slice())
}

/// Whether the words of a line are a call, and that call is written so.
pub fn comes_back(alloc: Global, line: &[u8]) -> Result<bool, AllocError> {
    let frame = frame_of(alloc, line)?;
    let Some(words) = Words::of(&frame) else {
        return Ok(false);
    };
    match read_call(&words.behind(1)) {
        Ok(op) => is_written(alloc, &op, &frame),
        Err(_) => Ok(false),
    }
}

/// Whether the words of a line are read as this call.
pub fn is_read(alloc: Global, line: &[u8], wanted: &Op) -> Result<bool, AllocError> {
    let frame = frame_of(alloc, line)?;
    let Some(words) = Words::of(&frame) else {
        return Ok(false);
    };
    match read_call(&words.behind(1)) {
        Ok(op) => Ok(op == *wanted),
        Err(_) => Ok(false),
    }
}

/// Why the words of a line are no call.
pub fn fault_of(alloc: Global, line: &[u8]) -> Result<Option<OpFault>, AllocError> {
    let frame = frame_of(alloc, line)?;
    let Some(words) = Words::of(&frame) else {
        return Ok(None);
    };
    match read_call(&words.behind(1)) {
        Ok(_) => Ok(None),
        Err(fault) => Ok(Some(fault)),
    }
}
