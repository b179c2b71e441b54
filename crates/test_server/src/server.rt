ghost use Rattle.std.specs.Prelude.{IsTrue, IfOk};
ghost use Rattle.lr_server.specs.Looked.{is_step};

use lr_names::{Channel, Kind, Name, Owner, Push, Wakes};
use lr_objects::{
    Access, Call, Function, Lease, LockCall, Op, ReadWriteCall, ReadWriteFunction, Reply, Want,
};
use lr_server::{Answer, Channels, Request, ServerState, StepFault};
use std::alloc::{AllocError, Global};
use std::test::Fail;
use uuid::Uuid;

// Thread 1 of the client whose number is 1.
const OWNER: &[u8] = b"00000000-0000-0000-0000-000000000001:1";

const OTHER: &[u8] = b"00000000-0000-0000-0000-000000000001:2";

// Whether these are the same answers, and none of a look.
fn are_same(one: &Answer, other: &Answer) -> bool {
    match (one, other) {
        (Answer::Reply(a), Answer::Reply(b)) => a == b,
        (Answer::Queued(a), Answer::Queued(b)) => a == b,
        (Answer::OnlySubscribed, Answer::OnlySubscribed) => true,
        _ => false,
    }
}

// Whether an open connection is answered so, and the message of its call reaches so many.
fn answers(
    server: &mut ServerState,
    conn: u32,
    request: &Request,
    answer: &Answer,
    reached: u32,
) -> Result<bool, StepFault>
    requires { IsTrue (is_step request.now) }
{
    if server.opener(conn).is_none() {
        return Ok(false);
    }
    match server.step(0, 0, conn, request) {
        Ok(answered) => Ok(answered.reached == reached && are_same(&answered.answer, answer)),
        Err(fault) => Err(fault),
    }
}

// Whether these are taken from the outbox of an open connection.
fn takes(server: &mut ServerState, conn: u32, wanted: &[Push]) -> Result<bool, StepFault> {
    if server.opener(conn).is_none() {
        return Ok(false);
    }
    match server.drain(0, 0, conn, 16_384) {
        Ok(pushes) => Ok(pushes.as_slice() == wanted),
        Err(fault) => Err(fault),
    }
}

// A request to subscribe to a channel.
fn subscribing(alloc: Global, channel: Channel) -> Result<Request, AllocError>
    ensures { IfOk result (λ request. IsTrue (is_step request)) }
{
    let mut channels = Channels::new(alloc);
    channels.push(channel)?;
    Ok(Request::Subscribe(channels))
}

// Whether a lock is granted and freed on connection 0, and refused to the subscriber on
// connection 1.
fn calls_are_answered(
    server: &mut ServerState,
    name: Name,
    owner: Owner,
) -> Result<bool, StepFault> {
    let take = Request::Call(Op {
        name,
        call: Call::Lock(LockCall::Try {
            owner,
            lease: 30_000,
        }),
    });
    let free = Request::Call(Op {
        name,
        call: Call::Lock(LockCall::Unlock {
            owner,
            rest: 30_000,
        }),
    });
    let granted = answers(server, 0, &take, &Answer::Reply(Reply::Granted), 0)?;
    let freed = answers(server, 0, &free, &Answer::Reply(Reply::Freed), 1)?;
    let refused = answers(server, 1, &take, &Answer::OnlySubscribed, 0)?;
    Ok(freed && granted && refused)
}

// Whether the subscriber is handed its acknowledgement and one message, once.
fn messages_are_handed_out(server: &mut ServerState, channel: Channel) -> Result<bool, StepFault> {
    let told = [
        Push::Subscribed(channel, 1),
        Push::Message(channel, Wakes::One),
    ];
    let first = takes(server, 1, &told)?;
    let second = takes(server, 1, &[])?;
    Ok(second && first)
}

// Whether the history has four entries, and the next connection is number 2.
fn goes_on(server: &mut ServerState) -> Result<bool, StepFault> {
    let entries = server.history().len();
    let number = server.open(0, 0)?;
    Ok(entries == 4 && number == 2)
}

// Whether all of this is so, one after the other.
fn all_is_answered(
    server: &mut ServerState,
    request: &Request,
    channel: Channel,
    owner: Owner,
) -> Result<bool, StepFault>
    requires { IsTrue (is_step request.now) }
{
    let subscribed = answers(server, 1, request, &Answer::Queued(1), 0)?;
    let called = calls_are_answered(server, *channel.name(), owner)?;
    let told = messages_are_handed_out(server, channel)?;
    let goes_on = goes_on(server)?;
    Ok(subscribed && called && told && goes_on)
}

#[test]
fn a_subscriber_is_told(rt: HostRuntime) -> Result<(), Fail> {
    let owner = Owner::parse(OWNER)?;
    let channel = Channel::of(Kind::Mutex, &Name::parse(b"a")?);
    let request = subscribing(rt.alloc(), channel)?;
    let mut server = ServerState::new(rt.alloc(), 1)?;
    let answered = all_is_answered(&mut server, &request, channel, owner)?;
    assert!(rt; answered);
    Ok(())
}

// Whether one who wants to read is seen to wait for as long as another writes, with no entry.
fn looks(
    server: &mut ServerState,
    name: Name,
    writer: Owner,
    reader: &Owner,
) -> Result<bool, StepFault> {
    let write = Request::Call(Op {
        name,
        call: Call::ReadWrite(ReadWriteCall::Take {
            access: Access::Write,
            owner: writer,
            lease: 1000,
        }),
    });
    let granted = answers(server, 0, &write, &Answer::Reply(Reply::Granted), 0)?;
    let want = Want {
        function: Function::ReadWrite(ReadWriteFunction::Read),
        name,
        lease: Lease::Watch,
        number: 0,
        id: Uuid::nil(),
    };
    let waits = server.would_wait(999, &want, reader) && !server.would_wait(1000, &want, reader);
    Ok(granted && waits && server.history().len() == 1)
}

#[test]
fn a_look(rt: HostRuntime) -> Result<(), Fail> {
    let (one, two) = (Owner::parse(OWNER)?, Owner::parse(OTHER)?);
    let mut server = ServerState::new(rt.alloc(), 1)?;
    assert!(rt; looks(&mut server, Name::parse(b"a")?, one, &two)?);
    Ok(())
}

#[test]
fn the_last_number_is_given_once(rt: HostRuntime) -> Result<(), Fail> {
    let mut server = ServerState::new(rt.alloc(), 255)?;
    assert!(rt; server.open(0, 0) == Err(StepFault::TooManyConnections));
    Ok(())
}
