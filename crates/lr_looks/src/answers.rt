//! What the looks tell of a value, and that it is of another kind.
ghost use Rattle.std.specs.Prelude.{◌≡◌, ◌<◌, ◌^◌, IfOk, is_some};
ghost use Rattle.lr_keys.specs.KeySpace.{entry_at, hash_at, list_at, zset_at, seen};
ghost use Rattle.lr_lists.specs.Places.{range_of};
ghost use Rattle.lr_looks.specs.Bulks.{bulks_frame, count_frame, decimal_frame, flag_frame, signed_frame};
ghost use Rattle.lr_looks.specs.Looks.{kind_name, member_names, pair_texts, shown, wrong_kind};
ghost use Rattle.lr_resp.specs.declared.frame.Frame.TheVariants.{Simple};

use crate::values::{bulks, decimal, fields, flag, members, signed};
use lr_keys::{KeyFault, KeySpace, ValueKind};
use lr_resp::Frame;
use lr_text::{Brief, Text};
use std::alloc::{AllocError, Global};

// The answer where the key holds another kind of value.
fn wrong_kind(alloc: Global) -> Result<Frame, AllocError>
    ensures { IfOk result (λ frame. frame ≡ wrong_kind) }
{
    let text = b"WRONGTYPE Operation against a key holding the wrong kind of value";
    Ok(Frame::Fault(Text::of(alloc, text)?))
}

/// The name of a kind of value.
pub(crate) fn kind_answer(alloc: Global, kind: Option<ValueKind>) -> Result<Frame, AllocError>
    ensures { IfOk result (λ frame. frame ≡ Simple (kind_name kind)) }
{
    let name: &[u8] = match kind {
        None => b"none",
        Some(ValueKind::Counter) => b"string",
        Some(ValueKind::Hash) => b"hash",
        Some(ValueKind::List) => b"list",
        Some(ValueKind::Zset) => b"zset",
    };
    Ok(Frame::Simple(Text::of(alloc, name)?))
}

/// A signed number in decimal, or null.
pub(crate) fn number_answer(
    alloc: Global,
    number: Result<Option<i64>, KeyFault>,
) -> Result<Frame, AllocError>
    ensures { IfOk result (λ frame. frame ≡ shown signed_frame number) }
{
    match number {
        Ok(number) => signed(alloc, number),
        Err(_) => wrong_kind(alloc),
    }
}

/// Whether there is a number.
pub(crate) fn flag_answer(
    alloc: Global,
    number: Result<Option<i64>, KeyFault>,
) -> Result<Frame, AllocError>
    ensures { IfOk result (λ frame. frame ≡ shown (λ n. flag_frame (is_some n)) number) }
{
    match number {
        Ok(number) => Ok(flag(number.is_some())),
        Err(_) => wrong_kind(alloc),
    }
}

/// A number in decimal, or null.
pub(crate) fn score_answer(
    alloc: Global,
    score: Result<Option<u64>, KeyFault>,
) -> Result<Frame, AllocError>
    ensures { IfOk result (λ frame. frame ≡ shown decimal_frame score) }
{
    match score {
        Ok(score) => decimal(alloc, score),
        Err(_) => wrong_kind(alloc),
    }
}

/// How many there are, which is no more than a key may have.
pub(crate) fn count_answer(alloc: Global, count: Result<u64, KeyFault>) -> Result<Frame, AllocError>
    requires { IfOk count (λ n. n < 2 ^ 63) }
    ensures { IfOk result (λ frame. frame ≡ shown count_frame count) }
{
    match count {
        Ok(count) => Ok(Frame::Number(count as i64)),
        Err(_) => wrong_kind(alloc),
    }
}

/// All fields of a hash, each followed by its number.
pub(crate) fn fields_answer(
    alloc: Global,
    keys: &KeySpace,
    key: &Brief,
) -> Result<Frame, AllocError>
    ensures { IfOk result (λ frame. frame
        ≡ shown (λ pairs. bulks_frame (pair_texts pairs)) (hash_at (entry_at keys.now key.now))) }
{
    match keys.hgetall(alloc, key) {
        Ok(pairs) => fields(alloc, &pairs),
        Err(KeyFault::NoMemory) => Err(AllocError),
        Err(_) => wrong_kind(alloc),
    }
}

/// The items of a list from one place to another, both in.
pub(crate) fn items_answer(
    alloc: Global,
    keys: &KeySpace,
    key: &Brief,
    start: i64,
    stop: i64,
) -> Result<Frame, AllocError>
    ensures { IfOk result (λ frame. frame
        ≡ shown bulks_frame (seen (range_of start stop) (list_at (entry_at keys.now key.now)))) }
{
    match keys.lrange(alloc, key, start, stop) {
        Ok(items) => bulks(alloc, &items),
        Err(KeyFault::NoMemory) => Err(AllocError),
        Err(_) => wrong_kind(alloc),
    }
}

/// The members of a sorted set from one place to another, both in.
pub(crate) fn members_answer(
    alloc: Global,
    keys: &KeySpace,
    key: &Brief,
    start: i64,
    stop: i64,
) -> Result<Frame, AllocError>
    ensures { IfOk result (λ frame. frame ≡ shown (λ members. bulks_frame (member_names members))
        (seen (range_of start stop) (zset_at (entry_at keys.now key.now)))) }
{
    match keys.zrange(alloc, key, start, stop) {
        Ok(found) => members(alloc, &found),
        Err(KeyFault::NoMemory) => Err(AllocError),
        Err(_) => wrong_kind(alloc),
    }
}
