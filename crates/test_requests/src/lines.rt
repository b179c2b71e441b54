use crate::shown::show;
use lr_requests::{CommandFault, parse};
use lr_resp::{Frame, Frames};
use lr_text::Text;
use std::alloc::{AllocError, Global};

/// The request of these words, with single spaces between.
pub fn frame_of(alloc: Global, line: &[u8]) -> Result<Frame, AllocError> {
    let mut items = Vec::new(alloc);
    for word in line.split(|byte| *byte == b' ') {
        items.push(Frame::Bulk(Text::of(alloc, word)?))?;
    }
    Ok(Frame::Array(Frames::of(items)))
}

/// Whether a frame is refused for this fault.
pub fn is_refused(alloc: Global, frame: &Frame, fault: CommandFault) -> bool {
    match parse(alloc, frame) {
        Ok(_) => false,
        Err(found) => found == fault,
    }
}

/// Whether each of these lines is refused for its fault.
pub fn are_refused(alloc: Global, lines: &[(&[u8], CommandFault)]) -> Result<bool, AllocError> {
    for (line, fault) in lines {
        let frame = frame_of(alloc, line)?;
        if !is_refused(alloc, &frame, *fault) {
            return Ok(false);
        }
    }
    Ok(true)
}

/// Whether a line asks for what is shown so.
pub fn is_asked(alloc: Global, line: &[u8], wanted: &[u8]) -> Result<bool, AllocError> {
    let frame = frame_of(alloc, line)?;
    match parse(alloc, &frame) {
        Ok(request) => {
            let text = show(alloc, &request)?;
            Ok(text.as_slice() == wanted)
        }
        Err(_) => Ok(false),
    }
}

/// Whether each of these lines asks for what is shown beside it.
pub fn are_asked(alloc: Global, lines: &[(&[u8], &[u8])]) -> Result<bool, AllocError> {
    for (line, wanted) in lines {
        if !is_asked(alloc, line, wanted)? {
            return Ok(false);
        }
    }
    Ok(true)
}
