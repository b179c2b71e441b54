use crate::asked::{
    KeyLook, MemberLook, RangeLook, all_kinds, is_answered, key_look, member_look, range_look,
};
use lr_commands::Look;
use lr_keys::KeySpace;
use std::alloc::{AllocError, Global};
use std::test::Fail;

// A key of each kind, and one that is absent.
const KEYS: [&[u8]; 5] = [b"counter", b"hash", b"list", b"zset", b"none"];

const WRONG: &[u8] = b"-WRONGTYPE Operation against a key holding the wrong kind of value\r\n";

/// A look of any of the keys.
#[derive(Clone, Copy)]
enum Asked<'a> {
    Key(KeyLook),
    Member(MemberLook, &'a [u8]),
    All(RangeLook),
}

fn look_of(alloc: Global, asked: Asked<'_>, key: &[u8]) -> Result<Look, AllocError> {
    match asked {
        Asked::Key(asked) => key_look(alloc, asked, key),
        Asked::Member(asked, member) => member_look(alloc, asked, key, member),
        Asked::All(asked) => range_look(alloc, asked, key, 0, -1),
    }
}

// Whether the look is answered so for each of the keys, in order.
fn answers(
    alloc: Global,
    keys: &KeySpace,
    asked: Asked<'_>,
    written: [&[u8]; 5],
) -> Result<bool, AllocError> {
    for place in 0..5usize {
        let look = look_of(alloc, asked, KEYS[place])?;
        if !is_answered(alloc, keys, 0, &look, written[place])? {
            return Ok(false);
        }
    }
    Ok(true)
}

fn exists(alloc: Global, keys: &KeySpace) -> Result<bool, AllocError> {
    let written: [&[u8]; 5] = [b":1\r\n", b":1\r\n", b":1\r\n", b":1\r\n", b":0\r\n"];
    answers(alloc, keys, Asked::Key(KeyLook::Exists), written)
}

fn kind(alloc: Global, keys: &KeySpace) -> Result<bool, AllocError> {
    let written: [&[u8]; 5] = [
        b"+string\r\n",
        b"+hash\r\n",
        b"+list\r\n",
        b"+zset\r\n",
        b"+none\r\n",
    ];
    answers(alloc, keys, Asked::Key(KeyLook::Type), written)
}

fn time_left(alloc: Global, keys: &KeySpace) -> Result<bool, AllocError> {
    let written: [&[u8]; 5] = [b":-1\r\n", b":1000\r\n", b":-1\r\n", b":-1\r\n", b":-2\r\n"];
    answers(alloc, keys, Asked::Key(KeyLook::TimeLeft), written)
}

fn number(alloc: Global, keys: &KeySpace) -> Result<bool, AllocError> {
    let written: [&[u8]; 5] = [b"$3\r\n-42\r\n", WRONG, WRONG, WRONG, b"$-1\r\n"];
    answers(alloc, keys, Asked::Key(KeyLook::Get), written)
}

fn fields(alloc: Global, keys: &KeySpace) -> Result<bool, AllocError> {
    let all = b"*4\r\n$3\r\ntwo\r\n$1\r\n2\r\n$3\r\none\r\n$2\r\n-1\r\n";
    let written: [&[u8]; 5] = [WRONG, all, WRONG, WRONG, b"*0\r\n"];
    answers(alloc, keys, Asked::Key(KeyLook::HashGetAll), written)
}

fn list_length(alloc: Global, keys: &KeySpace) -> Result<bool, AllocError> {
    let written: [&[u8]; 5] = [WRONG, WRONG, b":4\r\n", WRONG, b":0\r\n"];
    answers(alloc, keys, Asked::Key(KeyLook::ListLength), written)
}

fn sorted_count(alloc: Global, keys: &KeySpace) -> Result<bool, AllocError> {
    let written: [&[u8]; 5] = [WRONG, WRONG, WRONG, b":3\r\n", b":0\r\n"];
    answers(alloc, keys, Asked::Key(KeyLook::SortedCount), written)
}

fn field(alloc: Global, keys: &KeySpace) -> Result<bool, AllocError> {
    let written: [&[u8]; 5] = [WRONG, b"$2\r\n-1\r\n", WRONG, WRONG, b"$-1\r\n"];
    let asked = Asked::Member(MemberLook::HashGet, b"one");
    answers(alloc, keys, asked, written)
}

fn absent_field(alloc: Global, keys: &KeySpace) -> Result<bool, AllocError> {
    let written: [&[u8]; 5] = [WRONG, b"$-1\r\n", WRONG, WRONG, b"$-1\r\n"];
    let asked = Asked::Member(MemberLook::HashGet, b"three");
    answers(alloc, keys, asked, written)
}

fn has_field(alloc: Global, keys: &KeySpace) -> Result<bool, AllocError> {
    let written: [&[u8]; 5] = [WRONG, b":1\r\n", WRONG, WRONG, b":0\r\n"];
    let asked = Asked::Member(MemberLook::HashExists, b"one");
    answers(alloc, keys, asked, written)
}

fn lacks_field(alloc: Global, keys: &KeySpace) -> Result<bool, AllocError> {
    let written: [&[u8]; 5] = [WRONG, b":0\r\n", WRONG, WRONG, b":0\r\n"];
    let asked = Asked::Member(MemberLook::HashExists, b"three");
    answers(alloc, keys, asked, written)
}

fn score(alloc: Global, keys: &KeySpace) -> Result<bool, AllocError> {
    let greatest = b"$20\r\n18446744073709551615\r\n";
    let written: [&[u8]; 5] = [WRONG, WRONG, WRONG, greatest, b"$-1\r\n"];
    let asked = Asked::Member(MemberLook::SortedScore, b"late");
    answers(alloc, keys, asked, written)
}

fn absent_score(alloc: Global, keys: &KeySpace) -> Result<bool, AllocError> {
    let written: [&[u8]; 5] = [WRONG, WRONG, WRONG, b"$-1\r\n", b"$-1\r\n"];
    let asked = Asked::Member(MemberLook::SortedScore, b"two");
    answers(alloc, keys, asked, written)
}

fn items(alloc: Global, keys: &KeySpace) -> Result<bool, AllocError> {
    let all = b"*4\r\n$1\r\na\r\n$1\r\nb\r\n$1\r\na\r\n$1\r\nc\r\n";
    let written: [&[u8]; 5] = [WRONG, WRONG, all, WRONG, b"*0\r\n"];
    answers(alloc, keys, Asked::All(RangeLook::List), written)
}

fn members(alloc: Global, keys: &KeySpace) -> Result<bool, AllocError> {
    let all = b"*3\r\n$4\r\nnext\r\n$4\r\nsoon\r\n$4\r\nlate\r\n";
    let written: [&[u8]; 5] = [WRONG, WRONG, WRONG, all, b"*0\r\n"];
    answers(alloc, keys, Asked::All(RangeLook::Sorted), written)
}

#[test]
fn looks_of_any_kind(rt: HostRuntime) -> Result<(), Fail> {
    let keys = all_kinds(rt.alloc())?;
    let there = exists(rt.alloc(), &keys)? && kind(rt.alloc(), &keys)?;
    assert!(rt; there && time_left(rt.alloc(), &keys)?);
    Ok(())
}

#[test]
fn looks_at_counters(rt: HostRuntime) -> Result<(), Fail> {
    let keys = all_kinds(rt.alloc())?;
    assert!(rt; number(rt.alloc(), &keys)?);
    Ok(())
}

fn hashes(alloc: Global, keys: &KeySpace) -> Result<bool, AllocError> {
    let numbers = field(alloc, keys)? && absent_field(alloc, keys)? && fields(alloc, keys)?;
    Ok(numbers && has_field(alloc, keys)? && lacks_field(alloc, keys)?)
}

#[test]
fn looks_at_hashes(rt: HostRuntime) -> Result<(), Fail> {
    let keys = all_kinds(rt.alloc())?;
    assert!(rt; hashes(rt.alloc(), &keys)?);
    Ok(())
}

#[test]
fn looks_at_lists(rt: HostRuntime) -> Result<(), Fail> {
    let keys = all_kinds(rt.alloc())?;
    assert!(rt; list_length(rt.alloc(), &keys)? && items(rt.alloc(), &keys)?);
    Ok(())
}

fn sorted_sets(alloc: Global, keys: &KeySpace) -> Result<bool, AllocError> {
    let scores = score(alloc, keys)? && absent_score(alloc, keys)?;
    Ok(scores && sorted_count(alloc, keys)? && members(alloc, keys)?)
}

#[test]
fn looks_at_sorted_sets(rt: HostRuntime) -> Result<(), Fail> {
    let keys = all_kinds(rt.alloc())?;
    assert!(rt; sorted_sets(rt.alloc(), &keys)?);
    Ok(())
}
