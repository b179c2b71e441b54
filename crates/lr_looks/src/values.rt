//! Numbers, texts and lists of texts as frames.
ghost use Rattle.std.specs.Prelude.{◌≡◌, [], ◌∷◌, ◌++◌, IfOk, OnOk};
ghost use Rattle.std.specs.Fmt.{signed_decimal};
ghost use Rattle.lr_resp.specs.declared.frame.Frame.TheVariants.{Bulk};
ghost use Rattle.lr_looks.specs.Bulks.{bulks_frame, count_frame, decimal_frame, flag_frame, signed_frame};
ghost use Rattle.lr_looks.specs.Looks.{member_names, pair_texts};

use itoa::Buffer;
use lr_keys::{Fields, Members};
use lr_resp::{Frame, Frames};
use lr_text::{Brief, Items, Text};
use std::alloc::{AllocError, Global};

/// These texts as an array of bulk strings. It takes memory for the frame.
pub fn bulks(alloc: Global, texts: &Items) -> Result<Frame, AllocError>
    ensures { IfOk result (λ frame. frame ≡ bulks_frame texts.now) }
{
    let mut frames = Vec::with_capacity(alloc, texts.len())?;
    for text in texts.as_slice() {
        push_bulk(alloc, &mut frames, text.as_slice())?;
    }
    Ok(Frame::Array(Frames::of(frames)))
}

/// Appends these bytes as a bulk string.
pub(crate) fn push_bulk(
    alloc: Global,
    frames: &mut Vec<Frame>,
    text: &[u8],
) -> Result<(), AllocError>
    ensures { OnOk result (frames.new.items ≡ frames.old.items ++ Bulk text.now ∷ []) }
{
    frames.push(Frame::Bulk(Text::of(alloc, text)?))?;
    Ok(())
}

// Appends a field and its number in decimal, each as a bulk string.
fn push_pair(alloc: Global, frames: &mut Vec<Frame>, pair: &(Brief, i64)) -> Result<(), AllocError>
    ensures { OnOk result (frames.new.items
        ≡ frames.old.items ++ Bulk pair.now.0 ∷ Bulk (signed_decimal pair.now.1) ∷ []) }
{
    let (field, number) = *pair;
    let mut digits = Buffer::new();
    push_bulk(alloc, frames, field.as_slice())?;
    push_bulk(alloc, frames, digits.format(number).as_bytes())
}

/// The fields of a hash, each followed by its number in decimal, as an array of bulk strings.
pub(crate) fn fields(alloc: Global, pairs: &Fields) -> Result<Frame, AllocError>
    ensures { IfOk result (λ frame. frame ≡ bulks_frame (pair_texts pairs.now.items)) }
{
    let mut frames = Vec::new(alloc);
    for pair in pairs {
        push_pair(alloc, &mut frames, pair)?;
    }
    Ok(Frame::Array(Frames::of(frames)))
}

/// The members of a sorted set, without their scores, as an array of bulk strings.
pub(crate) fn members(alloc: Global, members: &Members) -> Result<Frame, AllocError>
    ensures { IfOk result (λ frame. frame ≡ bulks_frame (member_names members.now.items)) }
{
    let mut frames = Vec::with_capacity(alloc, members.len())?;
    for (member, _) in members {
        push_bulk(alloc, &mut frames, member.as_slice())?;
    }
    Ok(Frame::Array(Frames::of(frames)))
}

/// A signed number in decimal as a bulk string, and null for none.
pub(crate) fn signed(alloc: Global, number: Option<i64>) -> Result<Frame, AllocError>
    ensures { IfOk result (λ frame. frame ≡ signed_frame number) }
{
    let Some(number) = number else {
        return Ok(Frame::Null);
    };
    let mut digits = Buffer::new();
    Ok(Frame::Bulk(Text::of(alloc, digits.format(number).as_bytes())?))
}

/// A number in decimal as a bulk string, and null for none.
pub(crate) fn decimal(alloc: Global, number: Option<u64>) -> Result<Frame, AllocError>
    ensures { IfOk result (λ frame. frame ≡ decimal_frame number) }
{
    let Some(number) = number else {
        return Ok(Frame::Null);
    };
    let mut digits = Buffer::new();
    Ok(Frame::Bulk(Text::of(alloc, digits.format(number).as_bytes())?))
}

/// 1 for yes and 0 for no.
pub(crate) fn flag(flag: bool) -> Frame
    ensures { result ≡ flag_frame flag }
{
    Frame::Number(if flag { 1 } else { 0 })
}
