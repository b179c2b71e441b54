ghost use Rattle.std.specs.Prelude.{IsTrue};
ghost use Rattle.lr_server.specs.Looked.{is_step};

use lr_names::{Name, Owner};
use lr_objects::{Call, LockCall, Op, Reply};
use lr_service::{Answer, Request, Service};
use std::test::Fail;

// Threads 1 and 2 of the client whose number is 1.
const OWNER: &[u8] = b"00000000-0000-0000-0000-000000000001:1";

const OTHER: &[u8] = b"00000000-0000-0000-0000-000000000001:2";

// The request for a lock.
fn lock_try(name: Name, owner: Owner) -> Request
    ensures { IsTrue (is_step result) }
{
    Request::Call(Op {
        name,
        call: Call::Lock(LockCall::Try {
            owner,
            lease: 30_000,
        }),
    })
}

// The request by which a lock is given back.
fn lock_unlock(name: Name, owner: Owner) -> Request
    ensures { IsTrue (is_step result) }
{
    Request::Call(Op {
        name,
        call: Call::Lock(LockCall::Unlock {
            owner,
            rest: 30_000,
        }),
    })
}

// Whether a call was answered so.
fn is_reply(answer: &Answer, reply: Reply) -> bool {
    matches!(answer, Answer::Reply(given) if *given == reply)
}

// Whether a call found its object busy.
fn is_busy(answer: &Answer) -> bool {
    matches!(answer, Answer::Reply(Reply::Busy(_)))
}

#[test]
fn two_passes_call_one_server(rt: HostRuntime) -> Result<(), Fail> {
    let owner = Owner::parse(OWNER)?;
    let take = lock_try(Name::parse(b"a")?, owner);
    let (service, mut zero) = Service::new(rt.alloc())?;
    let mut one = service.split(&mut zero);
    let Ok(conn) = service.open(&rt, &mut one, 5) else {
        panic!(rt; "no connection")
    };
    let Ok(granted) = service.call(&rt, &mut one, 7, conn, &take) else {
        panic!(rt; "no answer")
    };
    let is_granted = is_reply(&granted.answer, Reply::Granted);
    let Ok(again) = service.try_call(&mut zero, 6, 0, &take) else {
        panic!(rt; "nobody has the turn")
    };
    let is_granted_again = is_reply(&again.answer, Reply::Granted);
    let Ok(items) = service.drain(&rt, &mut one, 8, conn, 10) else {
        panic!(rt; "no items")
    };
    service.close(&rt, &mut one, 9, conn);
    let front = service.front(&mut zero);
    service.join(&mut zero, one);
    let server = service.finish(zero);
    assert!(rt; is_granted && is_granted_again);
    assert!(rt; conn == 1 && items.is_empty() && front == 4);
    assert!(rt; server.history().len() == 4 && server.moment() == 9);
    Ok(())
}

// A pass that saw nothing yet is answered at its own entry: another has the lock by then, gives it
// back, and the next call finds it free.
#[test]
fn a_call_is_answered_at_its_entry(rt: HostRuntime) -> Result<(), Fail> {
    let owner = Owner::parse(OWNER)?;
    let name = Name::parse(b"a")?;
    let take = lock_try(name, owner);
    let give = lock_unlock(name, owner);
    let other = lock_try(name, Owner::parse(OTHER)?);
    let (service, mut zero) = Service::new(rt.alloc())?;
    let mut one = service.split(&mut zero);
    let Ok(granted) = service.call(&rt, &mut one, 0, 0, &take) else {
        panic!(rt; "no answer")
    };
    let Ok(busy) = service.call(&rt, &mut zero, 1, 0, &other) else {
        panic!(rt; "no answer")
    };
    let Ok(freed) = service.call(&rt, &mut one, 2, 0, &give) else {
        panic!(rt; "no answer")
    };
    let Ok(last) = service.call(&rt, &mut zero, 3, 0, &other) else {
        panic!(rt; "no answer")
    };
    let first = is_reply(&granted.answer, Reply::Granted) && is_busy(&busy.answer);
    let second = is_reply(&freed.answer, Reply::Freed) && is_reply(&last.answer, Reply::Granted);
    service.join(&mut zero, one);
    let server = service.finish(zero);
    assert!(rt; first && second && server.history().len() == 4);
    Ok(())
}
