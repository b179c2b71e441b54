use lr_limits::BRIEF_BYTES;
use lr_text::*;
use std::alloc::{AllocError, Global};
use std::test::Fail;

fn numbers() -> bool {
    read_number(b"0") == Some(0)
        && read_number(b"7") == Some(7)
        && read_number(b"18446744073709551615") == Some(u64::MAX)
}

fn is_no_number(text: &[u8]) -> bool {
    read_number(text).is_none()
}

fn no_numbers() -> bool {
    is_no_number(b"18446744073709551616")
        && is_no_number(b"00")
        && is_no_number(b"+1")
        && is_no_number(b"-1")
        && is_no_number(b"1 ")
        && is_no_number(b"")
}

// Two spaces in a row have an empty word between them, and one stands behind the last space.
fn words() -> bool {
    let mut words = Words::new(b"fair  lock ");
    let first = words.next() == Some(b"fair".as_slice());
    let second = words.next() == Some(b"".as_slice());
    let third = words.next() == Some(b"lock".as_slice());
    let fourth = words.next() == Some(b"".as_slice());
    first && second && third && fourth && words.next().is_none()
}

fn short_texts() -> bool {
    let mut brief = Brief::new();
    let empty = brief.is_empty();
    brief.push_bytes(b"latch");
    let same = Brief::of(b"latch") == Some(brief) && brief.len() == 5;
    empty && same && Brief::of(&[0; BRIEF_BYTES + 1]).is_none()
}

#[test]
fn spellings(rt: HostRuntime) -> Result<(), Fail> {
    let split = split_once(b"a:b:c", b':').is_some();
    assert!(rt; numbers() && no_numbers() && words() && short_texts() && split);
    Ok(())
}

fn texts(alloc: Global) -> Result<bool, AllocError> {
    let mut text = Text::new(alloc);
    let empty = text.is_empty();
    text.push(b'a')?;
    text.push_bytes(b"bcd")?;
    text.truncate(2);
    write_number(&mut text, u64::MAX)?;
    let whole = text == Text::of(alloc, b"ab18446744073709551615")? && text.len() == 22;
    text.clear();
    Ok(empty && whole && text.is_empty())
}

fn items(alloc: Global) -> Result<bool, AllocError> {
    let text = Text::of(alloc, b"item")?;
    let mut items = Items::new(alloc);
    items.push(text.clone()?)?;
    let one = items.len() == 1 && items.as_slice().len() == 1 && !items.is_empty();
    Ok(one && items.get(0) == Some(&text) && items.get(1).is_none())
}

#[test]
fn lists(rt: HostRuntime) -> Result<(), Fail> {
    assert!(rt; texts(rt.alloc())? && items(rt.alloc())?);
    Ok(())
}
