ghost use Rattle.std.specs.Prelude.{◌≡◌, ◌≤◌, Some};
ghost use Rattle.lr_limits.specs.Limits.{last_moment};
ghost use Rattle.lr_machine.specs.Within.{IsWithin, MayBegin};
ghost use Rattle.lr_clients.specs.Rows.{client_alone};

use lr_clients::{ClientTable, hold_key};
use lr_machine::{Event, Found, Shown, ThreadId};
use lr_names::Name;
use lr_objects::{Call, Function, Lease, LockCall, LockFunction, Mode, Reply, Want};
use lr_waiting::{Phase, RenewTaken, WatchKey, WatchKind};
use std::alloc::{AllocError, Global};
use std::test::Fail;
use uuid::Uuid;

// Thread 1 of client 1 begins a request for a lock, with the watchdog's lease.
fn begin(name: &Name) -> Event
    ensures alone { client_alone result ≡ Some 1 }
    ensures within { IsWithin result }
    ensures begins { MayBegin result }
{
    Event::Begin {
        client: 1,
        thread: 1,
        mode: Mode::Once,
        want: Want {
            function: Function::Lock(LockFunction::Try),
            name: *name,
            lease: Lease::Watch,
            number: 0,
            id: Uuid::nil(),
        },
    }
}

// Client 1 asks for the renewal of the lock.
fn ask(name: &Name) -> Event
    ensures alone { client_alone result ≡ Some 1 }
    ensures within { IsWithin result }
    ensures begins { MayBegin result }
{
    Event::RenewAsk {
        client: 1,
        thread: 1,
        kind: WatchKind::Lock,
        name: *name,
    }
}

// It takes the reply to it.
fn take(name: &Name) -> Event
    ensures alone { client_alone result ≡ Some 1 }
    ensures within { IsWithin result }
    ensures begins { MayBegin result }
{
    Event::RenewTake {
        client: 1,
        thread: 1,
        kind: WatchKind::Lock,
        name: *name,
    }
}

fn key(name: &Name) -> WatchKey {
    hold_key(1, 1, WatchKind::Lock, *name)
}

// Whether thread 1 asks for the lock at this moment, and is granted it.
fn is_granted(clients: &mut ClientTable, name: &Name, moment: u64) -> bool
    requires { moment ≤ last_moment }
{
    let (client, thread) = (1, 1);
    let asked = clients.step(1, moment, &begin(name)).is_ok()
        && clients
            .step(1, moment, &Event::Ask { client, thread })
            .is_ok();
    clients.answer(ThreadId { client, thread }, Reply::Granted);
    asked
        && matches!(
            clients.step(1, moment, &Event::Take { client, thread }),
            Ok(Shown::Done(Reply::Granted))
        )
}

// Whether a step of client 1 finds this at a moment, where it doesn't apply.
fn finds(clients: &mut ClientTable, moment: u64, event: &Event, wanted: Found) -> bool
    requires alone { client_alone event.now ≡ Some 1 }
    requires within { IsWithin event.now }
    requires begins { MayBegin event.now }
    requires early { moment ≤ last_moment }
{
    match clients.step(1, moment, event) {
        Ok(Shown::No(found)) => found == wanted,
        _ => false,
    }
}

// Whether the renewal is asked for at this moment, and no sooner and not twice.
fn asks(clients: &mut ClientTable, name: &Name, moment: u64) -> bool
    requires { moment ≤ last_moment }
{
    clients.renewal(1, &key(name)).is_none()
        && finds(clients, moment.saturating_sub(1), &ask(name), Found::Due)
        && matches!(clients.step(1, moment, &ask(name)), Ok(Shown::RenewAsked))
        && finds(clients, moment, &ask(name), Found::Renewing)
        && finds(clients, moment, &take(name), Found::Renewal)
}

// Whether the server is to renew the hold for 30 seconds, until it has answered.
fn executes(clients: &mut ClientTable, name: &Name, reply: Reply) -> bool {
    let key = key(name);
    let call = Call::Lock(LockCall::Renew {
        owner: key.owner,
        lease: 30_000,
    });
    let sent = clients.renewal(1, &key);
    match clients.reserve_renewed(1) {
        Ok(()) => clients.answer_renewal(1, &key, reply),
        Err(_) => return false,
    }
    matches!(sent, Some(op) if op.call == call) && clients.renewal(1, &key).is_none()
}

// Whether this comes of the reply, which is taken once.
fn takes(clients: &mut ClientTable, name: &Name, wanted: RenewTaken) -> bool {
    let taken = match clients.step(1, 10_500, &take(name)) {
        Ok(Shown::RenewTaken(taken)) => taken == wanted,
        _ => false,
    };
    taken && finds(clients, 10_500, &take(name), Found::Renewal)
}

// A hold that was asked for at 100 is renewed from 10,100 on, and then from 20,100 on.
fn renews(alloc: Global, name: &Name) -> Result<bool, AllocError> {
    let mut clients = ClientTable::new(alloc)?;
    Ok(
        is_granted(&mut clients, name, 100)
            && asks(&mut clients, name, 10_100)
            && executes(&mut clients, name, Reply::Renewed)
            && takes(&mut clients, name, RenewTaken::Due(20_100))
            && asks(&mut clients, name, 20_100),
    )
}

// A hold that is gone isn't watched any longer.
fn ends(alloc: Global, name: &Name) -> Result<bool, AllocError> {
    let mut clients = ClientTable::new(alloc)?;
    Ok(
        is_granted(&mut clients, name, 100)
            && asks(&mut clients, name, 10_100)
            && executes(&mut clients, name, Reply::NotHeld)
            && takes(&mut clients, name, RenewTaken::Ended)
            && finds(&mut clients, 20_100, &ask(name), Found::Watch),
    )
}

// A reply that comes after the next grant counts for nothing.
fn is_stale(alloc: Global, name: &Name) -> Result<bool, AllocError> {
    let mut clients = ClientTable::new(alloc)?;
    Ok(
        is_granted(&mut clients, name, 100)
            && asks(&mut clients, name, 10_100)
            && executes(&mut clients, name, Reply::NotHeld)
            && is_granted(&mut clients, name, 10_200)
            && takes(&mut clients, name, RenewTaken::Stale)
            && asks(&mut clients, name, 20_200),
    )
}

// Whether client 1 renews nothing any longer once it is cut off.
fn is_lost(clients: &mut ClientTable, name: &Name) -> bool {
    clients.cut(1);
    clients.renewal(1, &key(name)).is_none()
        && finds(clients, 20_100, &ask(name), Found::Phase(Phase::Cut))
        && finds(clients, 20_100, &take(name), Found::Phase(Phase::Cut))
}

// So it is before a renewal is asked for, before it is executed and before its reply is taken.
fn is_cut_in_each_stage(alloc: Global, name: &Name) -> Result<bool, AllocError> {
    let mut watched = ClientTable::new(alloc)?;
    let mut asked = ClientTable::new(alloc)?;
    let mut executed = ClientTable::new(alloc)?;
    Ok(
        is_granted(&mut watched, name, 100)
            && is_lost(&mut watched, name)
            && is_granted(&mut asked, name, 100)
            && asks(&mut asked, name, 10_100)
            && is_lost(&mut asked, name)
            && is_granted(&mut executed, name, 100)
            && asks(&mut executed, name, 10_100)
            && executes(&mut executed, name, Reply::Renewed)
            && is_lost(&mut executed, name),
    )
}

#[test]
fn holds_are_renewed(rt: HostRuntime) -> Result<(), Fail> {
    let name = Name::parse(b"a")?;
    assert!(rt; renews(rt.alloc(), &name)?);
    assert!(rt; ends(rt.alloc(), &name)?);
    assert!(rt; is_stale(rt.alloc(), &name)?);
    assert!(rt; is_cut_in_each_stage(rt.alloc(), &name)?);
    Ok(())
}
