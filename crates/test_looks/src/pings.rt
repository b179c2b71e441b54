use crate::asked::is_written;
use lr_looks::{bulks, pong};
use lr_text::{Items, Text};
use std::alloc::{AllocError, Global};
use std::test::Fail;

fn is_ponged(
    alloc: Global,
    subscribed: bool,
    text: &Option<Text>,
    written: &[u8],
) -> Result<bool, AllocError> {
    is_written(alloc, &pong(alloc, subscribed, text)?, written)
}

fn plain_pings(alloc: Global) -> Result<bool, AllocError> {
    let text = Some(Text::of(alloc, b"a\r\nb")?);
    let empty = Some(Text::new(alloc));
    Ok(
        is_ponged(alloc, false, &None, b"+PONG\r\n")?
            && is_ponged(alloc, false, &text, b"$4\r\na\r\nb\r\n")?
            && is_ponged(alloc, false, &empty, b"$0\r\n\r\n")?,
    )
}

fn pings_with_a_channel(alloc: Global) -> Result<bool, AllocError> {
    let text = Some(Text::of(alloc, b"hi")?);
    let none: &[u8] = b"*2\r\n$4\r\npong\r\n$0\r\n\r\n";
    Ok(
        is_ponged(alloc, true, &None, none)?
            && is_ponged(alloc, true, &text, b"*2\r\n$4\r\npong\r\n$2\r\nhi\r\n")?,
    )
}

fn texts_are_bulks(alloc: Global) -> Result<bool, AllocError> {
    let mut texts = Items::new(alloc);
    let empty = is_written(alloc, &bulks(alloc, &texts)?, b"*0\r\n")?;
    texts.push(Text::of(alloc, b"one")?)?;
    texts.push(Text::new(alloc))?;
    let both = bulks(alloc, &texts)?;
    Ok(empty && is_written(alloc, &both, b"*2\r\n$3\r\none\r\n$0\r\n\r\n")?)
}

#[test]
fn pings(rt: HostRuntime) -> Result<(), Fail> {
    assert!(rt; plain_pings(rt.alloc())? && pings_with_a_channel(rt.alloc())?);
    Ok(())
}

#[test]
fn lists_of_texts(rt: HostRuntime) -> Result<(), Fail> {
    assert!(rt; texts_are_bulks(rt.alloc())?);
    Ok(())
}
