use itoa::Buffer;
use lr_commands::{Channels, Look, Request};
use lr_frames::{Words, call_frame};
use lr_objects::Op;
use lr_text::Text;
use std::alloc::{AllocError, Global};

/// A request as a line: what it is, and its parts.
pub fn show(alloc: Global, request: &Request) -> Result<Text, AllocError> {
    let mut out = Text::new(alloc);
    match request {
        Request::Call(op) => show_call(alloc, &mut out, op)?,
        Request::Look(look) => show_look(&mut out, look)?,
        Request::Subscribe(channels) => show_channels(&mut out, b"subscribe", channels)?,
        Request::Unsubscribe(channels) => show_channels(&mut out, b"unsubscribe", channels)?,
        Request::UnsubscribeAll => out.push_bytes(b"unsubscribe all")?,
        Request::Ping(None) => out.push_bytes(b"ping")?,
        Request::Ping(Some(text)) => show_words(&mut out, &[b"ping", text.as_slice()])?,
        Request::Quit => out.push_bytes(b"quit")?,
    }
    Ok(out)
}

fn show_words(out: &mut Text, words: &[&[u8]]) -> Result<(), AllocError> {
    for word in words {
        if !out.is_empty() {
            out.push(b' ')?;
        }
        out.push_bytes(word)?;
    }
    Ok(())
}

// The words of the request that the call is written as.
fn show_call(alloc: Global, out: &mut Text, op: &Op) -> Result<(), AllocError> {
    let frame = call_frame(alloc, op)?;
    let Some(words) = Words::of(&frame) else {
        return Ok(());
    };
    for place in 1..words.len() {
        show_words(out, &[words.word(place)])?;
    }
    Ok(())
}

fn show_channels(out: &mut Text, word: &[u8], channels: &Channels) -> Result<(), AllocError> {
    show_words(out, &[word])?;
    for channel in channels.as_slice() {
        show_words(out, &[channel.brief().as_slice()])?;
    }
    Ok(())
}

fn show_look(out: &mut Text, look: &Look) -> Result<(), AllocError> {
    match look {
        Look::Exists { key } => show_words(out, &[b"exists", key.as_slice()]),
        Look::Type { key } => show_words(out, &[b"type", key.as_slice()]),
        Look::TimeLeft { key } => show_words(out, &[b"time-left", key.as_slice()]),
        Look::Get { key } => show_words(out, &[b"get", key.as_slice()]),
        Look::HashGet { key, field } => show_item(out, b"hash-get", key, field),
        Look::HashExists { key, field } => show_item(out, b"hash-exists", key, field),
        Look::HashGetAll { key } => show_words(out, &[b"hash-get-all", key.as_slice()]),
        Look::ListLength { key } => show_words(out, &[b"list-length", key.as_slice()]),
        Look::SortedCount { key } => show_words(out, &[b"sorted-count", key.as_slice()]),
        Look::ListRange { key, start, stop } => show_range(out, b"list", key, *start, *stop),
        Look::SortedRange { key, start, stop } => show_range(out, b"sorted", key, *start, *stop),
        Look::SortedScore { key, member } => show_item(out, b"sorted-score", key, member),
    }
}

fn show_item(out: &mut Text, word: &[u8], key: &Text, item: &Text) -> Result<(), AllocError> {
    show_words(out, &[word, key.as_slice(), item.as_slice()])
}

fn show_range(
    out: &mut Text,
    word: &[u8],
    key: &Text,
    start: i64,
    stop: i64,
) -> Result<(), AllocError> {
    show_words(out, &[word, key.as_slice()])?;
    show_place(out, start)?;
    show_place(out, stop)
}

fn show_place(out: &mut Text, place: i64) -> Result<(), AllocError> {
    let mut digits = Buffer::new();
    show_words(out, &[digits.format(place).as_bytes()])
}
