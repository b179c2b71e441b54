//! What looks at the keys are answered.
ghost use Rattle.std.specs.Prelude.{◌≡◌, ◌≤◌, ℕ, None, IfOk};
ghost use Rattle.lr_keys.specs.KeySpace.{AreLive, entry_at};
ghost use Rattle.lr_looks.specs.Looks.{entry_frame, key_of, look_frame};

use crate::answers::{
    count_answer, fields_answer, flag_answer, items_answer, kind_answer, members_answer,
    number_answer, score_answer,
};
use crate::seen::{find, number_of, score_in, time_left};
use crate::values::flag;
use lr_commands::Look;
use lr_keys::KeySpace;
use lr_resp::{Frame, Frames};
use lr_text::{Brief, Text};
use std::alloc::{AllocError, Global};

/// What a look at the keys is answered, at the later one of their moment and this, in milliseconds.
/// A key whose expiry is at most that is absent, and the keys stay as they are.
///
/// A key, a field or a member that is too long to be one, which is above `BRIEF_BYTES` of
/// `lr_limits`, is absent too. Where the key holds another kind of value than the look is for, the
/// answer is the error `WRONGTYPE`. It takes memory for the frame, and as much again for one of
/// several texts.
pub fn look(alloc: Global, keys: &KeySpace, moment: u64, look: &Look) -> Result<Frame, AllocError>
    ensures { IfOk result (λ frame. frame ≡ look_frame keys.now moment look.now) }
{
    let moment = keys.moment().max(moment);
    match find(keys, moment, key_of(look)) {
        Some(key) => answer(alloc, keys, moment, &key, look),
        None => absent_answer(alloc, look),
    }
}

// The key that is looked at.
fn key_of(look: &Look) -> &Text
    ensures { result.now ≡ key_of look.now }
{
    match look {
        Look::Exists { key } => key,
        Look::Type { key } => key,
        Look::TimeLeft { key } => key,
        Look::Get { key } => key,
        Look::HashGet { key, .. } => key,
        Look::HashExists { key, .. } => key,
        Look::HashGetAll { key } => key,
        Look::ListLength { key } => key,
        Look::SortedCount { key } => key,
        Look::ListRange { key, .. } => key,
        Look::SortedRange { key, .. } => key,
        Look::SortedScore { key, .. } => key,
    }
}

// The answer where the key is absent.
fn absent_answer(alloc: Global, look: &Look) -> Result<Frame, AllocError>
    ensures { IfOk result (λ frame. (moment : ℕ) → frame ≡ entry_frame moment look.now None) }
{
    Ok(match look {
        Look::Exists { .. }
        | Look::HashExists { .. }
        | Look::ListLength { .. }
        | Look::SortedCount { .. } => Frame::Number(0),
        Look::Type { .. } => Frame::Simple(Text::of(alloc, b"none")?),
        Look::TimeLeft { .. } => Frame::Number(-2),
        Look::Get { .. } | Look::HashGet { .. } | Look::SortedScore { .. } => Frame::Null,
        Look::HashGetAll { .. } | Look::ListRange { .. } | Look::SortedRange { .. } => {
            Frame::Array(Frames::new(alloc))
        }
    })
}

// The answer where the key isn't gone at a moment, which isn't before that of the keys.
fn answer(
    alloc: Global,
    keys: &KeySpace,
    moment: u64,
    key: &Brief,
    look: &Look,
) -> Result<Frame, AllocError>
    requires live { AreLive keys.now }
    requires later { keys.now.moment ≤ moment }
    ensures { IfOk result
        (λ frame. frame ≡ entry_frame moment look.now (entry_at keys.now key.now)) }
{
    match look {
        Look::Exists { .. } => Ok(flag(keys.exists(key))),
        Look::Type { .. } => kind_answer(alloc, keys.kind_of(key)),
        Look::TimeLeft { .. } => Ok(Frame::Number(time_left(keys, moment, key))),
        Look::Get { .. } => number_answer(alloc, keys.get(key)),
        Look::HashGet { field, .. } => number_answer(alloc, number_of(keys, key, field)),
        Look::HashExists { field, .. } => flag_answer(alloc, number_of(keys, key, field)),
        Look::HashGetAll { .. } => fields_answer(alloc, keys, key),
        Look::ListLength { .. } => count_answer(alloc, keys.llen(key)),
        Look::SortedCount { .. } => count_answer(alloc, keys.zcard(key)),
        Look::ListRange { start, stop, .. } => items_answer(alloc, keys, key, *start, *stop),
        Look::SortedRange { start, stop, .. } => members_answer(alloc, keys, key, *start, *stop),
        Look::SortedScore { member, .. } => score_answer(alloc, score_in(keys, key, member)),
    }
}
