use crate::asked::{KeyLook, MemberLook, brief, is_answered, key_look, member_look};
use lr_keys::{KeyFault, KeySpace};
use lr_text::{Brief, Text};
use std::alloc::{AllocError, Global};
use std::test::Fail;

const WRONG_KIND: &[u8] = b"-WRONGTYPE Operation against a key holding the wrong kind of value\r\n";

// So many letters: 128 may be a key, a field or a member, and 129 may not.
fn letters(alloc: Global, count: usize) -> Result<Text, AllocError> {
    let mut text = Text::new(alloc);
    for _ in 0..count {
        text.push(b'k')?;
    }
    Ok(text)
}

fn put(alloc: Global, keys: &mut KeySpace, longest: &Brief) -> Result<(), KeyFault> {
    keys.incrby(longest, 1)?;
    keys.hincrby(alloc, &brief(b"hash"), longest, 2)?;
    keys.zadd(alloc, &brief(b"zset"), longest, 3)?;
    Ok(())
}

// What a text that is left out would find.
fn put_empty(alloc: Global, keys: &mut KeySpace) -> Result<(), KeyFault> {
    keys.incrby(&Brief::new(), 4)?;
    keys.hincrby(alloc, &brief(b"hash"), &Brief::new(), 5)?;
    keys.zadd(alloc, &brief(b"zset"), &Brief::new(), 6)?;
    Ok(())
}

fn long_keys(alloc: Global) -> Result<KeySpace, AllocError> {
    let mut keys = KeySpace::new(alloc)?;
    let longest = letters(alloc, 128)?;
    if put(alloc, &mut keys, &brief(longest.as_slice())).is_err() {
        return Err(AllocError);
    }
    match put_empty(alloc, &mut keys) {
        Ok(()) => Ok(keys),
        Err(_) => Err(AllocError),
    }
}

// Whether a look at the key of so many letters is answered so.
fn answers(
    alloc: Global,
    keys: &KeySpace,
    asked: KeyLook,
    count: usize,
    written: &[u8],
) -> Result<bool, AllocError> {
    let key = letters(alloc, count)?;
    let look = key_look(alloc, asked, key.as_slice())?;
    is_answered(alloc, keys, 0, &look, written)
}

// Whether a look at the member of so many letters is answered so.
fn answers_member(
    alloc: Global,
    keys: &KeySpace,
    asked: MemberLook,
    key: &[u8],
    count: usize,
    written: &[u8],
) -> Result<bool, AllocError> {
    let member = letters(alloc, count)?;
    let look = member_look(alloc, asked, key, member.as_slice())?;
    is_answered(alloc, keys, 0, &look, written)
}

fn keys_have_a_size(alloc: Global, keys: &KeySpace) -> Result<bool, AllocError> {
    Ok(
        answers(alloc, keys, KeyLook::Get, 128, b"$1\r\n1\r\n")?
            && answers(alloc, keys, KeyLook::Get, 129, b"$-1\r\n")?
            && answers(alloc, keys, KeyLook::TimeLeft, 129, b":-2\r\n")?,
    )
}

fn fields_have_a_size(alloc: Global, keys: &KeySpace) -> Result<bool, AllocError> {
    let (get, exists) = (MemberLook::HashGet, MemberLook::HashExists);
    Ok(
        answers_member(alloc, keys, get, b"hash", 128, b"$1\r\n2\r\n")?
            && answers_member(alloc, keys, get, b"hash", 129, b"$-1\r\n")?
            && answers_member(alloc, keys, exists, b"hash", 129, b":0\r\n")?,
    )
}

fn members_have_a_size(alloc: Global, keys: &KeySpace) -> Result<bool, AllocError> {
    let score = MemberLook::SortedScore;
    Ok(
        answers_member(alloc, keys, score, b"zset", 128, b"$1\r\n3\r\n")?
            && answers_member(alloc, keys, score, b"zset", 129, b"$-1\r\n")?,
    )
}

fn kinds_come_first(alloc: Global, keys: &KeySpace) -> Result<bool, AllocError> {
    let (get, score) = (MemberLook::HashGet, MemberLook::SortedScore);
    Ok(
        answers_member(alloc, keys, get, b"zset", 129, WRONG_KIND)?
            && answers_member(alloc, keys, score, b"hash", 129, WRONG_KIND)?,
    )
}

#[test]
fn keys_of_128_bytes(rt: HostRuntime) -> Result<(), Fail> {
    let keys = long_keys(rt.alloc())?;
    assert!(rt; keys_have_a_size(rt.alloc(), &keys)?);
    Ok(())
}

#[test]
fn members_of_128_bytes(rt: HostRuntime) -> Result<(), Fail> {
    let keys = long_keys(rt.alloc())?;
    assert!(rt; fields_have_a_size(rt.alloc(), &keys)? && members_have_a_size(rt.alloc(), &keys)?);
    Ok(())
}

#[test]
fn long_members_of_another_kind(rt: HostRuntime) -> Result<(), Fail> {
    let keys = long_keys(rt.alloc())?;
    assert!(rt; kinds_come_first(rt.alloc(), &keys)?);
    Ok(())
}
