use crate::asked::{KeyLook, all_kinds, is_answered, key_look};
use lr_keys::KeySpace;
use std::alloc::{AllocError, Global};
use std::test::Fail;

// Whether a look at the hash, which expires at 1,500, is answered so at a moment.
fn answers(
    alloc: Global,
    keys: &KeySpace,
    asked: KeyLook,
    moment: u64,
    written: &[u8],
) -> Result<bool, AllocError> {
    let look = key_look(alloc, asked, b"hash")?;
    is_answered(alloc, keys, moment, &look, written)
}

// The keys are at moment 500, and an earlier one doesn't count.
fn lasts(alloc: Global, keys: &KeySpace) -> Result<bool, AllocError> {
    Ok(
        answers(alloc, keys, KeyLook::TimeLeft, 499, b":1000\r\n")?
            && answers(alloc, keys, KeyLook::TimeLeft, 501, b":999\r\n")?
            && answers(alloc, keys, KeyLook::TimeLeft, 1_499, b":1\r\n")?,
    )
}

fn is_there_before(alloc: Global, keys: &KeySpace) -> Result<bool, AllocError> {
    let fields = b"*4\r\n$3\r\ntwo\r\n$1\r\n2\r\n$3\r\none\r\n$2\r\n-1\r\n";
    Ok(
        answers(alloc, keys, KeyLook::Exists, 1_499, b":1\r\n")?
            && answers(alloc, keys, KeyLook::Get, 1_499, WRONG)?
            && answers(alloc, keys, KeyLook::HashGetAll, 1_499, fields)?,
    )
}

const WRONG: &[u8] = b"-WRONGTYPE Operation against a key holding the wrong kind of value\r\n";

fn is_gone(alloc: Global, keys: &KeySpace) -> Result<bool, AllocError> {
    Ok(
        answers(alloc, keys, KeyLook::TimeLeft, 1_500, b":-2\r\n")?
            && answers(alloc, keys, KeyLook::TimeLeft, u64::MAX, b":-2\r\n")?
            && answers(alloc, keys, KeyLook::Exists, 1_500, b":0\r\n")?,
    )
}

fn is_absent(alloc: Global, keys: &KeySpace) -> Result<bool, AllocError> {
    Ok(
        answers(alloc, keys, KeyLook::Type, 1_500, b"+none\r\n")?
            && answers(alloc, keys, KeyLook::Get, 1_500, b"$-1\r\n")?
            && answers(alloc, keys, KeyLook::HashGetAll, 1_500, b"*0\r\n")?,
    )
}

// Whether a list without an expiry is there at the last moment of all.
fn stays(alloc: Global, keys: &KeySpace) -> Result<bool, AllocError> {
    let look = key_look(alloc, KeyLook::TimeLeft, b"list")?;
    is_answered(alloc, keys, u64::MAX, &look, b":-1\r\n")
}

// A look at a later moment leaves the keys where they are.
#[test]
fn looks_before_an_expiry(rt: HostRuntime) -> Result<(), Fail> {
    let keys = all_kinds(rt.alloc())?;
    let gone = is_gone(rt.alloc(), &keys)?;
    assert!(rt; gone && lasts(rt.alloc(), &keys)? && is_there_before(rt.alloc(), &keys)?);
    Ok(())
}

#[test]
fn looks_behind_an_expiry(rt: HostRuntime) -> Result<(), Fail> {
    let keys = all_kinds(rt.alloc())?;
    assert!(rt; is_absent(rt.alloc(), &keys)? && stays(rt.alloc(), &keys)?);
    Ok(())
}
