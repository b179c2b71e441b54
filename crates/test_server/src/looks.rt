ghost use Rattle.std.specs.Prelude.{IsTrue};
ghost use Rattle.lr_server.specs.Looked.{is_step};

use bytes::BytesMut;
use lr_names::{Channel, Kind, Name, Owner};
use lr_objects::{Access, Call, FairCall, LockCall, Op, ReadWriteCall};
use lr_resp::encode;
use lr_server::{Answer, Channels, Frame, Look, Request, ServerState, StepFault};
use lr_text::Text;
use std::alloc::{AllocError, Global};
use std::test::Fail;

// Threads 1 and 2 of the client whose number is 1.
const ONE: &[u8] = b"00000000-0000-0000-0000-000000000001:1";

const TWO: &[u8] = b"00000000-0000-0000-0000-000000000001:2";

// A look, without its key.
#[derive(Clone, Copy)]
enum Asked {
    Exists,
    Type,
    TimeLeft,
    HashGetAll,
    ListRange,
    SortedRange,
    SortedScore,
}

// The look of a key: a range is the whole one, and a score is that of the second thread.
fn look(alloc: Global, asked: Asked, key: &[u8]) -> Result<Look, AllocError> {
    let key = Text::of(alloc, key)?;
    let (start, stop) = (0, -1);
    Ok(match asked {
        Asked::Exists => Look::Exists { key },
        Asked::Type => Look::Type { key },
        Asked::TimeLeft => Look::TimeLeft { key },
        Asked::HashGetAll => Look::HashGetAll { key },
        Asked::ListRange => Look::ListRange { key, start, stop },
        Asked::SortedRange => Look::SortedRange { key, start, stop },
        Asked::SortedScore => {
            let member = Text::of(alloc, TWO)?;
            Look::SortedScore { key, member }
        }
    })
}

fn is_written(alloc: Global, frame: &Frame, written: &[u8]) -> Result<bool, AllocError> {
    let mut out = BytesMut::new(alloc);
    encode(frame, &mut out)?;
    Ok(out.as_slice() == written)
}

// Whether a look or a ping on an open connection is answered by a frame that is written so, and
// leaves the server as it was.
fn is_shown(
    alloc: Global,
    server: &mut ServerState,
    moment: u64,
    conn: u32,
    request: &Request,
    written: &[u8],
) -> Result<bool, StepFault>
    requires { IsTrue (is_step request.now) }
{
    if server.opener(conn).is_none() {
        return Ok(false);
    }
    let (before, entries) = (server.moment(), server.history().len());
    let answered = server.step(moment, 0, conn, request)?;
    let stays = server.moment() == before && server.history().len() == entries;
    let Answer::Look(frame) = &answered.answer else {
        return Ok(false);
    };
    Ok(stays && is_written(alloc, frame, written)?)
}

// Whether looks at these moments are answered so, one after another.
fn are_shown(
    alloc: Global,
    server: &mut ServerState,
    looks: &[(u64, Asked, &[u8], &[u8])],
) -> Result<bool, StepFault> {
    for (moment, asked, key, written) in looks {
        let request = Request::Look(look(alloc, *asked, key)?);
        if !is_shown(alloc, server, *moment, 0, &request, written)? {
            return Ok(false);
        }
    }
    Ok(true)
}

// Runs a function at moment 1,000 on an object.
fn run(server: &mut ServerState, name: &[u8], call: Call) -> Result<bool, StepFault> {
    let Ok(name) = Name::parse(name) else {
        return Ok(false);
    };
    if server.opener(0).is_none() {
        return Ok(false);
    }
    server.step(1_000, 0, 0, &Request::Call(Op { name, call }))?;
    Ok(true)
}

// A lock of the first thread for thirty seconds. Each look comes after a later one.
const LOCK: [(u64, Asked, &[u8], &[u8]); 13] = [
    (31_000, Asked::TimeLeft, b"lock:a", b":-2\r\n"),
    (31_000, Asked::Exists, b"lock:a", b":0\r\n"),
    (31_000, Asked::Type, b"lock:a", b"+none\r\n"),
    (31_000, Asked::HashGetAll, b"lock:a", b"*0\r\n"),
    (30_999, Asked::TimeLeft, b"lock:a", b":1\r\n"),
    (30_999, Asked::Exists, b"lock:a", b":1\r\n"),
    (11_000, Asked::TimeLeft, b"lock:a", b":20000\r\n"),
    (1_000, Asked::TimeLeft, b"lock:a", b":30000\r\n"),
    (0, Asked::TimeLeft, b"lock:a", b":30000\r\n"),
    (0, Asked::TimeLeft, b"lock:b", b":-2\r\n"),
    (0, Asked::Type, b"lock:a", b"+hash\r\n"),
    (
        0,
        Asked::HashGetAll,
        b"lock:a",
        b"*2\r\n$38\r\n00000000-0000-0000-0000-000000000001:1\r\n$1\r\n1\r\n",
    ),
    (
        0,
        Asked::ListRange,
        b"lock:a",
        b"-WRONGTYPE Operation against a key holding the wrong kind of value\r\n",
    ),
];

#[test]
fn looks_at_a_lock(rt: HostRuntime) -> Result<(), Fail> {
    let owner = Owner::parse(ONE)?;
    let mut server = ServerState::new(rt.alloc(), 1)?;
    let take = LockCall::Try {
        owner,
        lease: 30_000,
    };
    assert!(rt; run(&mut server, b"a", Call::Lock(take))?);
    assert!(rt; are_shown(rt.alloc(), &mut server, &LOCK)?);
    Ok(())
}

// A fair lock of the first thread, for which the second one queues: its place goes stale five
// seconds after the hold ends.
const FAIR: [(u64, Asked, &[u8], &[u8]); 7] = [
    (30_999, Asked::TimeLeft, b"fair:f", b":1\r\n"),
    (31_000, Asked::Exists, b"fair:f", b":0\r\n"),
    (31_000, Asked::Type, b"fairq:f", b"+list\r\n"),
    (
        31_000,
        Asked::ListRange,
        b"fairq:f",
        b"*1\r\n$38\r\n00000000-0000-0000-0000-000000000001:2\r\n",
    ),
    (36_000, Asked::SortedScore, b"fairt:f", b"$5\r\n36000\r\n"),
    (36_000, Asked::TimeLeft, b"fairt:f", b":-1\r\n"),
    (0, Asked::ListRange, b"fairq:g", b"*0\r\n"),
];

// Whether the first thread takes a fair lock, and the second one queues.
fn queues(server: &mut ServerState, one: Owner, two: Owner) -> Result<bool, StepFault> {
    let lease = 30_000;
    let take = FairCall::Try {
        owner: one,
        lease,
        queue: false,
    };
    let queue = FairCall::Try {
        owner: two,
        lease,
        queue: true,
    };
    Ok(run(server, b"f", Call::Fair(take))? && run(server, b"f", Call::Fair(queue))?)
}

#[test]
fn looks_at_a_fair_lock(rt: HostRuntime) -> Result<(), Fail> {
    let (one, two) = (Owner::parse(ONE)?, Owner::parse(TWO)?);
    let mut server = ServerState::new(rt.alloc(), 1)?;
    assert!(rt; queues(&mut server, one, two)?);
    assert!(rt; are_shown(rt.alloc(), &mut server, &FAIR)?);
    Ok(())
}

// A lock that both threads read, the first one for longer. Its keys last until a function removes
// what has expired.
const READ: [(u64, Asked, &[u8], &[u8]); 4] = [
    (0, Asked::Type, b"rwt:a", b"+zset\r\n"),
    (9_999, Asked::TimeLeft, b"rw:a", b":-1\r\n"),
    (
        9_999,
        Asked::SortedRange,
        b"rwt:a",
        b"*2\r\n$40\r\nr:00000000-0000-0000-0000-000000000001:2\r\n\
            $40\r\nr:00000000-0000-0000-0000-000000000001:1\r\n",
    ),
    (
        0,
        Asked::HashGetAll,
        b"rw:a",
        b"*4\r\n$40\r\nr:00000000-0000-0000-0000-000000000001:1\r\n$1\r\n1\r\n\
            $40\r\nr:00000000-0000-0000-0000-000000000001:2\r\n$1\r\n1\r\n",
    ),
];

// Whether a thread takes a lock to read.
fn reads(server: &mut ServerState, owner: Owner, lease: u64) -> Result<bool, StepFault> {
    let take = ReadWriteCall::Take {
        access: Access::Read,
        owner,
        lease,
    };
    run(server, b"a", Call::ReadWrite(take))
}

#[test]
fn looks_at_a_read_write_lock(rt: HostRuntime) -> Result<(), Fail> {
    let (one, two) = (Owner::parse(ONE)?, Owner::parse(TWO)?);
    let mut server = ServerState::new(rt.alloc(), 1)?;
    assert!(rt; reads(&mut server, one, 2_000)? && reads(&mut server, two, 1_000)?);
    assert!(rt; are_shown(rt.alloc(), &mut server, &READ)?);
    Ok(())
}

// Whether an open connection subscribes to a channel.
fn subscribes(
    alloc: Global,
    server: &mut ServerState,
    channel: Channel,
) -> Result<bool, StepFault> {
    if server.opener(1).is_none() {
        return Ok(false);
    }
    let mut channels = Channels::new(alloc);
    channels.push(channel)?;
    let answered = server.step(0, 0, 1, &Request::Subscribe(channels))?;
    Ok(matches!(answered.answer, Answer::Queued(1)))
}

// Whether pings on a connection are answered so, without a text and with one.
fn are_ponged(
    alloc: Global,
    server: &mut ServerState,
    conn: u32,
    plain: &[u8],
    with_text: &[u8],
) -> Result<bool, StepFault> {
    let text = Request::Ping(Some(Text::of(alloc, b"hi")?));
    let first = is_shown(alloc, server, 7, conn, &Request::Ping(None), plain)?;
    let second = is_shown(alloc, server, 7, conn, &text, with_text)?;
    Ok(first && second)
}

#[test]
fn pings(rt: HostRuntime) -> Result<(), Fail> {
    let channel = Channel::of(Kind::Mutex, &Name::parse(b"a")?);
    let mut server = ServerState::new(rt.alloc(), 1)?;
    assert!(rt; subscribes(rt.alloc(), &mut server, channel)?);
    let plain = are_ponged(rt.alloc(), &mut server, 0, b"+PONG\r\n", b"$2\r\nhi\r\n")?;
    let empty: &[u8] = b"*2\r\n$4\r\npong\r\n$0\r\n\r\n";
    let text: &[u8] = b"*2\r\n$4\r\npong\r\n$2\r\nhi\r\n";
    assert!(rt; plain && are_ponged(rt.alloc(), &mut server, 1, empty, text)?);
    Ok(())
}

// Whether a look on the subscriber's connection is refused.
fn is_refused(alloc: Global, server: &mut ServerState) -> Result<bool, StepFault> {
    if server.opener(1).is_none() {
        return Ok(false);
    }
    let request = Request::Look(look(alloc, Asked::Exists, b"lock:a")?);
    let answered = server.step(0, 0, 1, &request)?;
    Ok(matches!(answered.answer, Answer::OnlySubscribed))
}

#[test]
fn a_subscriber_only_subscribes(rt: HostRuntime) -> Result<(), Fail> {
    let channel = Channel::of(Kind::Mutex, &Name::parse(b"a")?);
    let mut server = ServerState::new(rt.alloc(), 1)?;
    assert!(rt; subscribes(rt.alloc(), &mut server, channel)?);
    assert!(rt; is_refused(rt.alloc(), &mut server)? && server.history().len() == 1);
    Ok(())
}
