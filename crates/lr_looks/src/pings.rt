//! The answer of a ping.
ghost use Rattle.std.specs.Prelude.{◌≡◌, IfOk};
ghost use Rattle.lr_looks.specs.Ping.{message_pong, plain_pong, pong_frame};

use crate::values::push_bulk;
use lr_resp::{Frame, Frames};
use lr_text::Text;
use std::alloc::{AllocError, Global};

/// The answer of a ping: `+PONG`, or its text where it has one. On a connection that has a channel
/// it is an array like a message: `pong`, and the text or an empty one.
pub fn pong(alloc: Global, subscribed: bool, text: &Option<Text>) -> Result<Frame, AllocError>
    ensures { IfOk result (λ frame. frame ≡ pong_frame subscribed text.now) }
{
    if subscribed {
        message_pong(alloc, text)
    } else {
        plain_pong(alloc, text)
    }
}

// The answer where the connection has a channel.
fn message_pong(alloc: Global, text: &Option<Text>) -> Result<Frame, AllocError>
    ensures { IfOk result (λ frame. frame ≡ message_pong text.now) }
{
    let mut frames = Vec::with_capacity(alloc, 2)?;
    push_bulk(alloc, &mut frames, b"pong")?;
    match text {
        Some(text) => push_bulk(alloc, &mut frames, text.as_slice())?,
        None => push_bulk(alloc, &mut frames, b"")?,
    }
    Ok(Frame::Array(Frames::of(frames)))
}

// The answer where it has none.
fn plain_pong(alloc: Global, text: &Option<Text>) -> Result<Frame, AllocError>
    ensures { IfOk result (λ frame. frame ≡ plain_pong text.now) }
{
    match text {
        Some(text) => Ok(Frame::Bulk(Text::of(alloc, text.as_slice())?)),
        None => Ok(Frame::Simple(Text::of(alloc, b"PONG")?)),
    }
}
