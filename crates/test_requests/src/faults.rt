use crate::lines::{are_refused, is_refused};
use lr_requests::CommandFault;
use lr_resp::{Frame, Frames};
use lr_text::Text;
use std::alloc::{AllocError, Global};
use std::test::Fail;

// Each command that writes, some in small letters, and with any arguments.
const WRITES: [(&[u8], CommandFault); 18] = [
    (b"SET a b", CommandFault::NotWritable),
    (b"set", CommandFault::NotWritable),
    (b"DEL a", CommandFault::NotWritable),
    (b"HSet a b c", CommandFault::NotWritable),
    (b"HDEL a b", CommandFault::NotWritable),
    (b"HINCRBY a b 1", CommandFault::NotWritable),
    (b"LPUSH a b", CommandFault::NotWritable),
    (b"rpush a b", CommandFault::NotWritable),
    (b"LREM a 0 b", CommandFault::NotWritable),
    (b"ZADD a 1 b", CommandFault::NotWritable),
    (b"ZREM a b", CommandFault::NotWritable),
    (b"INCR a", CommandFault::NotWritable),
    (b"INCRBY a x", CommandFault::NotWritable),
    (b"DECR a", CommandFault::NotWritable),
    (b"EXPIRE a 1", CommandFault::NotWritable),
    (b"PEXPIRE a 1", CommandFault::NotWritable),
    (b"PERSIST a", CommandFault::NotWritable),
    (b"PUBLISH ch:lock:a one", CommandFault::NotWritable),
];

const UNKNOWN: [(&[u8], CommandFault); 6] = [
    (b"HELLO 3", CommandFault::UnknownCommand),
    (b"", CommandFault::UnknownCommand),
    (b" GET a", CommandFault::UnknownCommand),
    (b"GETS a", CommandFault::UnknownCommand),
    (b"CLIENT SETINFO LIB-NAME x", CommandFault::UnknownCommand),
    (b"FCALL_RO lock_try 1 a", CommandFault::UnknownCommand),
];

// Too few arguments of each command, and too many.
const FEW: [(&[u8], CommandFault); 14] = [
    (b"EXISTS", CommandFault::WrongArguments),
    (b"TYPE", CommandFault::WrongArguments),
    (b"PTTL", CommandFault::WrongArguments),
    (b"GET", CommandFault::WrongArguments),
    (b"HGET a", CommandFault::WrongArguments),
    (b"HEXISTS a", CommandFault::WrongArguments),
    (b"HGETALL", CommandFault::WrongArguments),
    (b"LLEN", CommandFault::WrongArguments),
    (b"ZCARD", CommandFault::WrongArguments),
    (b"LRANGE a x", CommandFault::WrongArguments),
    (b"ZRANGE a 0", CommandFault::WrongArguments),
    (b"ZSCORE a", CommandFault::WrongArguments),
    (b"SUBSCRIBE", CommandFault::WrongArguments),
    (b"FCALL nope", CommandFault::WrongArguments),
];

const MANY: [(&[u8], CommandFault); 16] = [
    (b"EXISTS a b", CommandFault::WrongArguments),
    (b"TYPE a b", CommandFault::WrongArguments),
    (b"PTTL a b", CommandFault::WrongArguments),
    (b"GET a b", CommandFault::WrongArguments),
    (b"HGET a b c", CommandFault::WrongArguments),
    (b"HEXISTS a b c", CommandFault::WrongArguments),
    (b"HGETALL a b", CommandFault::WrongArguments),
    (b"LLEN a b", CommandFault::WrongArguments),
    (b"ZCARD a b", CommandFault::WrongArguments),
    (b"LRANGE a x y z", CommandFault::WrongArguments),
    (b"ZRANGE a 0 1 REV", CommandFault::WrongArguments),
    (b"ZSCORE a b c", CommandFault::WrongArguments),
    (b"PING a b", CommandFault::WrongArguments),
    (b"QUIT now", CommandFault::WrongArguments),
    (b"FCALL lock_force 1 a b", CommandFault::WrongArguments),
    (b"FCALL lock_force 2 a", CommandFault::WrongArguments),
];

const LATER: [(&[u8], CommandFault); 12] = [
    (b"FCALL nope 1 a", CommandFault::NotFunction),
    (b"FCALL nope 2", CommandFault::NotFunction),
    (b"FCALL LOCK_FORCE 1 a", CommandFault::NotFunction),
    (b"SUBSCRIBE lock:a", CommandFault::BadChannel),
    (b"SUBSCRIBE ch:lock:a ch:lock", CommandFault::BadChannel),
    (b"SUBSCRIBE CH:lock:a", CommandFault::BadChannel),
    (b"UNSUBSCRIBE ch:fair:a", CommandFault::BadChannel),
    (b"UNSUBSCRIBE ", CommandFault::BadChannel),
    (b"FCALL lock_force 1 a:b", CommandFault::BadName),
    (b"FCALL lock_try 1 a nobody x", CommandFault::BadName),
    (b"FCALL sem_try 1 a:b 0", CommandFault::BadName),
    (b"FCALL sem_try 1 a 0", CommandFault::BadNumber),
];

// Places that aren't spelled so, or are out of range.
const PLACES: [(&[u8], CommandFault); 10] = [
    (b"LRANGE a x 1", CommandFault::BadNumber),
    (b"LRANGE a 0 ", CommandFault::BadNumber),
    (b"LRANGE a 00 1", CommandFault::BadNumber),
    (b"ZRANGE a 0 +1", CommandFault::BadNumber),
    (b"ZRANGE a -0 1", CommandFault::BadNumber),
    (b"ZRANGE a 0 -01", CommandFault::BadNumber),
    (b"ZRANGE a 0 -", CommandFault::BadNumber),
    (b"ZRANGE a (1 5", CommandFault::BadNumber),
    (b"LRANGE a 0 9223372036854775808", CommandFault::BadNumber),
    (b"LRANGE a -9223372036854775809 0", CommandFault::BadNumber),
];

#[test]
fn writing_is_refused(rt: HostRuntime) -> Result<(), Fail> {
    assert!(rt; are_refused(rt.alloc(), WRITES.as_slice())?);
    Ok(())
}

#[test]
fn other_words_are_unknown(rt: HostRuntime) -> Result<(), Fail> {
    assert!(rt; are_refused(rt.alloc(), UNKNOWN.as_slice())?);
    Ok(())
}

#[test]
fn too_few_arguments_are_refused(rt: HostRuntime) -> Result<(), Fail> {
    assert!(rt; are_refused(rt.alloc(), FEW.as_slice())?);
    Ok(())
}

#[test]
fn too_many_arguments_are_refused(rt: HostRuntime) -> Result<(), Fail> {
    assert!(rt; are_refused(rt.alloc(), MANY.as_slice())?);
    Ok(())
}

#[test]
fn later_faults_come_in_order(rt: HostRuntime) -> Result<(), Fail> {
    assert!(rt; are_refused(rt.alloc(), LATER.as_slice())?);
    Ok(())
}

#[test]
fn other_places_are_refused(rt: HostRuntime) -> Result<(), Fail> {
    assert!(rt; are_refused(rt.alloc(), PLACES.as_slice())?);
    Ok(())
}

fn is_no_request(alloc: Global, frame: &Frame) -> bool {
    is_refused(alloc, frame, CommandFault::NotARequest)
}

// An array of a word and this frame.
fn word_and(alloc: Global, frame: Frame) -> Result<Frame, AllocError> {
    let mut items = Vec::new(alloc);
    items.push(Frame::Bulk(Text::of(alloc, b"PING")?))?;
    items.push(frame)?;
    Ok(Frame::Array(Frames::of(items)))
}

fn other_frames_are_none(alloc: Global) -> Result<bool, AllocError> {
    let line = Frame::Simple(Text::of(alloc, b"PING")?);
    let bulk = Frame::Bulk(Text::of(alloc, b"PING")?);
    Ok(
        is_no_request(alloc, &line)
            && is_no_request(alloc, &bulk)
            && is_no_request(alloc, &Frame::Number(1))
            && is_no_request(alloc, &Frame::Null)
            && is_no_request(alloc, &Frame::NullArray),
    )
}

fn other_arrays_are_none(alloc: Global) -> Result<bool, AllocError> {
    let number = word_and(alloc, Frame::Number(1))?;
    let null = word_and(alloc, Frame::Null)?;
    let array = word_and(alloc, Frame::Array(Frames::new(alloc)))?;
    Ok(
        is_no_request(alloc, &Frame::Array(Frames::new(alloc)))
            && is_no_request(alloc, &number)
            && is_no_request(alloc, &null)
            && is_no_request(alloc, &array),
    )
}

#[test]
fn other_frames_are_no_requests(rt: HostRuntime) -> Result<(), Fail> {
    assert!(rt; other_frames_are_none(rt.alloc())?);
    assert!(rt; other_arrays_are_none(rt.alloc())?);
    Ok(())
}

const TEXTS: [(CommandFault, &[u8]); 8] = [
    (CommandFault::NotARequest, b"ERR not a request"),
    (CommandFault::NotWritable, b"ERR not writable here"),
    (CommandFault::UnknownCommand, b"ERR unknown command"),
    (
        CommandFault::WrongArguments,
        b"ERR wrong number of arguments",
    ),
    (CommandFault::NotFunction, b"ERR Function not found"),
    (CommandFault::BadChannel, b"ERR bad channel"),
    (CommandFault::BadName, b"ERR bad name"),
    (
        CommandFault::BadNumber,
        b"ERR value is not an integer or out of range",
    ),
];

fn are_told() -> bool {
    TEXTS.iter().all(|(fault, text)| fault.text() == *text)
}

#[test]
fn faults_are_told(rt: HostRuntime) {
    assert!(rt; are_told());
}
