use bytes::BytesMut;
use lr_commands::Look;
use lr_keys::{KeyFault, KeySpace};
use lr_looks::look;
use lr_resp::{Frame, encode};
use lr_text::{Brief, Text};
use std::alloc::{AllocError, Global};

/// A look of a key alone.
#[derive(Clone, Copy)]
pub(crate) enum KeyLook {
    Exists,
    Type,
    TimeLeft,
    Get,
    HashGetAll,
    ListLength,
    SortedCount,
}

/// A look of a key and a member.
#[derive(Clone, Copy)]
pub(crate) enum MemberLook {
    HashGet,
    HashExists,
    SortedScore,
}

/// A look of a key and two places.
#[derive(Clone, Copy)]
pub(crate) enum RangeLook {
    List,
    Sorted,
}

pub(crate) fn key_look(alloc: Global, asked: KeyLook, key: &[u8]) -> Result<Look, AllocError> {
    let key = Text::of(alloc, key)?;
    Ok(match asked {
        KeyLook::Exists => Look::Exists { key },
        KeyLook::Type => Look::Type { key },
        KeyLook::TimeLeft => Look::TimeLeft { key },
        KeyLook::Get => Look::Get { key },
        KeyLook::HashGetAll => Look::HashGetAll { key },
        KeyLook::ListLength => Look::ListLength { key },
        KeyLook::SortedCount => Look::SortedCount { key },
    })
}

pub(crate) fn member_look(
    alloc: Global,
    asked: MemberLook,
    key: &[u8],
    member: &[u8],
) -> Result<Look, AllocError> {
    let key = Text::of(alloc, key)?;
    let member = Text::of(alloc, member)?;
    Ok(match asked {
        MemberLook::HashGet => Look::HashGet { key, field: member },
        MemberLook::HashExists => Look::HashExists { key, field: member },
        MemberLook::SortedScore => Look::SortedScore { key, member },
    })
}

pub(crate) fn range_look(
    alloc: Global,
    asked: RangeLook,
    key: &[u8],
    start: i64,
    stop: i64,
) -> Result<Look, AllocError> {
    let key = Text::of(alloc, key)?;
    Ok(match asked {
        RangeLook::List => Look::ListRange { key, start, stop },
        RangeLook::Sorted => Look::SortedRange { key, start, stop },
    })
}

/// Whether a frame is written so.
pub(crate) fn is_written(alloc: Global, frame: &Frame, written: &[u8]) -> Result<bool, AllocError> {
    let mut out = BytesMut::new(alloc);
    encode(frame, &mut out)?;
    Ok(out.as_slice() == written)
}

/// Whether the answer of a look is written so.
pub(crate) fn is_answered(
    alloc: Global,
    keys: &KeySpace,
    moment: u64,
    asked: &Look,
    written: &[u8],
) -> Result<bool, AllocError> {
    is_written(alloc, &look(alloc, keys, moment, asked)?, written)
}

pub(crate) fn brief(text: &[u8]) -> Brief {
    Brief::of(text).unwrap_or(Brief::new())
}

fn put_hash(alloc: Global, keys: &mut KeySpace, key: &[u8]) -> Result<(), KeyFault> {
    keys.hincrby(alloc, &brief(key), &brief(b"two"), 2)?;
    keys.hincrby(alloc, &brief(key), &brief(b"one"), -1)?;
    Ok(())
}

fn put_list(alloc: Global, keys: &mut KeySpace, key: &[u8]) -> Result<(), KeyFault> {
    keys.rpush(alloc, &brief(key), &brief(b"a"))?;
    keys.rpush(alloc, &brief(key), &brief(b"b"))?;
    keys.rpush(alloc, &brief(key), &brief(b"a"))?;
    keys.rpush(alloc, &brief(key), &brief(b"c"))?;
    Ok(())
}

fn put_zset(alloc: Global, keys: &mut KeySpace, key: &[u8]) -> Result<(), KeyFault> {
    keys.zadd(
        alloc,
        &brief(key),
        &brief(b"late"),
        18_446_744_073_709_551_615,
    )?;
    keys.zadd(alloc, &brief(key), &brief(b"soon"), 7)?;
    keys.zadd(alloc, &brief(key), &brief(b"next"), 7)?;
    Ok(())
}

// A key of each kind, of which the hash has an expiry of 1,000 milliseconds.
fn put_all(alloc: Global, keys: &mut KeySpace) -> Result<(), KeyFault> {
    keys.incrby(&brief(b"counter"), -42)?;
    put_hash(alloc, keys, b"hash")?;
    put_list(alloc, keys, b"list")?;
    put_zset(alloc, keys, b"zset")?;
    keys.pexpire(&brief(b"hash"), 1_000);
    Ok(())
}

/// Keys at moment 500: a counter, a hash with the expiry 1,500, a list and a sorted set.
pub(crate) fn all_kinds(alloc: Global) -> Result<KeySpace, AllocError> {
    let mut keys = KeySpace::new(alloc)?;
    keys.advance(500);
    match put_all(alloc, &mut keys) {
        Ok(()) => Ok(keys),
        Err(_) => Err(AllocError),
    }
}
