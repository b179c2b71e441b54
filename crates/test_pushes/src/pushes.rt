use bytes::BytesMut;
use lr_names::{Channel, Push, Wakes};
use lr_pushes::push_frame;
use lr_resp::encode;
use std::alloc::{AllocError, Global};
use std::test::Fail;

const LOCK: &[u8] = b"ch:lock:a";

const FAIR: &[u8] = b"ch:fair:f:00000000-0000-0000-0000-000000000001:7";

// Whether the frame of an item is written so.
fn is_written(alloc: Global, push: &Push, bytes: &[u8]) -> Result<bool, AllocError> {
    let mut out = BytesMut::new(alloc);
    encode(&push_frame(alloc, push)?, &mut out)?;
    Ok(out.as_slice() == bytes)
}

fn subscriptions_are_counted(alloc: Global) -> Result<bool, AllocError> {
    let Ok(channel) = Channel::parse(LOCK) else {
        return Ok(false);
    };
    let bytes = b"*3\r\n$9\r\nsubscribe\r\n$9\r\nch:lock:a\r\n:1\r\n";
    is_written(alloc, &Push::Subscribed(channel, 1), bytes)
}

fn the_channel_of_a_place_in_a_queue_is_left(alloc: Global) -> Result<bool, AllocError> {
    let Ok(channel) = Channel::parse(FAIR) else {
        return Ok(false);
    };
    let bytes = b"*3\r\n$11\r\nunsubscribe\r\n\
        $48\r\nch:fair:f:00000000-0000-0000-0000-000000000001:7\r\n:255\r\n";
    is_written(alloc, &Push::Unsubscribed(Some(channel), 255), bytes)
}

fn no_channel_is_left(alloc: Global) -> Result<bool, AllocError> {
    let bytes = b"*3\r\n$11\r\nunsubscribe\r\n$-1\r\n:0\r\n";
    is_written(alloc, &Push::Unsubscribed(None, 0), bytes)
}

fn a_message_wakes(alloc: Global, wakes: Wakes, bytes: &[u8]) -> Result<bool, AllocError> {
    let Ok(channel) = Channel::parse(LOCK) else {
        return Ok(false);
    };
    is_written(alloc, &Push::Message(channel, wakes), bytes)
}

#[test]
fn a_subscription_is_told(rt: HostRuntime) -> Result<(), Fail> {
    assert!(rt; subscriptions_are_counted(rt.alloc())?);
    Ok(())
}

#[test]
fn the_end_of_a_subscription_is_told(rt: HostRuntime) -> Result<(), Fail> {
    assert!(rt; the_channel_of_a_place_in_a_queue_is_left(rt.alloc())?);
    Ok(())
}

#[test]
fn where_there_is_none_to_leave_null_is_told(rt: HostRuntime) -> Result<(), Fail> {
    assert!(rt; no_channel_is_left(rt.alloc())?);
    Ok(())
}

#[test]
fn a_message_wakes_one(rt: HostRuntime) -> Result<(), Fail> {
    let bytes = b"*3\r\n$7\r\nmessage\r\n$9\r\nch:lock:a\r\n$3\r\none\r\n";
    assert!(rt; a_message_wakes(rt.alloc(), Wakes::One, bytes)?);
    Ok(())
}

#[test]
fn a_message_wakes_all(rt: HostRuntime) -> Result<(), Fail> {
    let bytes = b"*3\r\n$7\r\nmessage\r\n$9\r\nch:lock:a\r\n$3\r\nall\r\n";
    assert!(rt; a_message_wakes(rt.alloc(), Wakes::All, bytes)?);
    Ok(())
}
