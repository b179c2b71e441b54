ghost use Rattle.std.specs.Prelude.{◌≡◌, IfOk};
ghost use Rattle.lr_pushes.specs.Pushes.{push_frame, channel_frame, left_frame, wakes_word, three};

use lr_names::{Channel, Push, Wakes};
use lr_resp::{Frame, Frames};
use lr_text::Text;
use std::alloc::{AllocError, Global};

/// The frame of what a subscribed connection is sent: an array of its word, the channel, and the
/// number of channels or the payload.
pub fn push_frame(alloc: Global, push: &Push) -> Result<Frame, AllocError>
    ensures { IfOk result (λ frame. frame ≡ push_frame push.now) }
{
    match push {
        Push::Subscribed(channel, count) => {
            let channel = channel_frame(alloc, channel)?;
            three(alloc, b"subscribe", channel, Frame::Number(*count as i64))
        }
        Push::Unsubscribed(channel, count) => {
            let channel = left_frame(alloc, channel)?;
            three(alloc, b"unsubscribe", channel, Frame::Number(*count as i64))
        }
        Push::Message(channel, wakes) => {
            let channel = channel_frame(alloc, channel)?;
            let payload = Text::of(alloc, wakes_word(*wakes))?;
            three(alloc, b"message", channel, Frame::Bulk(payload))
        }
    }
}

fn three(alloc: Global, word: &[u8], channel: Frame, last: Frame) -> Result<Frame, AllocError>
    ensures { IfOk result (λ frame. frame ≡ three word.now channel last) }
{
    let mut items = Vec::with_capacity(alloc, 3)?;
    items.push(Frame::Bulk(Text::of(alloc, word)?))?;
    items.push(channel)?;
    items.push(last)?;
    Ok(Frame::Array(Frames::of(items)))
}

fn channel_frame(alloc: Global, channel: &Channel) -> Result<Frame, AllocError>
    ensures { IfOk result (λ frame. frame ≡ channel_frame channel.now) }
{
    Ok(Frame::Bulk(channel.text(alloc)?))
}

fn left_frame(alloc: Global, channel: &Option<Channel>) -> Result<Frame, AllocError>
    ensures { IfOk result (λ frame. frame ≡ left_frame channel.now) }
{
    match channel {
        Some(channel) => channel_frame(alloc, channel),
        None => Ok(Frame::Null),
    }
}

fn wakes_word(wakes: Wakes) -> &'static [u8]
    ensures { result.now ≡ wakes_word wakes }
{
    match wakes {
        Wakes::One => b"one",
        Wakes::All => b"all",
    }
}
