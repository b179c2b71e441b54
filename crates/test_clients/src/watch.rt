ghost use Rattle.std.specs.Prelude.{◌≤◌};
ghost use Rattle.lr_limits.specs.Limits.{last_moment};
ghost use Rattle.lr_names.specs.Owner.{IsThread};
ghost use Rattle.lr_objects.specs.declared.want.Mode.TheVariants as modes;
ghost use Rattle.lr_waiting.specs.Begin.{CanBegin};

use crate::session::client;
use lr_limits::LAST_MOMENT;
use lr_names::{Due, Name, Owner};
use lr_objects::{Call, Function, Lease, LockCall, LockFunction, Mode, Op, Reply, Want};
use lr_session::SessionState;
use lr_waiting::{RenewFault, RenewTaken, Renewal, Taken, WatchKey, WatchKind};
use std::alloc::Global;
use std::test::Fail;
use uuid::Uuid;

fn owner() -> Owner {
    Owner::new(Uuid::from_u128(1), 1)
}

fn key(name: &Name) -> WatchKey {
    WatchKey {
        owner: owner(),
        kind: WatchKind::Lock,
        name: *name,
    }
}

// A request for a lock, with this lease.
fn lock(name: &Name, lease: Lease) -> Want
    ensures { CanBegin modes.Once result }
{
    Want {
        function: Function::Lock(LockFunction::Try),
        name: *name,
        lease,
        number: 0,
        id: Uuid::nil(),
    }
}

// A request to give it back, with a lease of 1,000 ms for a hold that stays.
fn unlock(name: &Name) -> Want
    ensures { CanBegin modes.Once result }
{
    Want {
        function: Function::Lock(LockFunction::Unlock),
        name: *name,
        lease: Lease::For(1_000),
        number: 0,
        id: Uuid::nil(),
    }
}

// A call of thread 1 at a moment: whether it has this lease, and the reply to it ends the request.
fn calls(session: &mut SessionState, want: &Want, moment: u64, lease: u64, reply: Reply) -> bool
    requires begins { CanBegin modes.Once want.now }
    requires early { moment ≤ last_moment }
{
    let Ok(ask) = session.begin(1, Mode::Once, want) else {
        return false;
    };
    let sent = want.op(&owner(), lease, false);
    session.ask(ask, moment).ok() == Some(sent) && session.take(1, &reply) == Ok(Taken::Done(reply))
}

// Whether thread 1 is granted a lock that it asked for at a moment, under the watchdog's lease.
fn is_granted(session: &mut SessionState, name: &Name, lease: Lease, moment: u64) -> bool
    requires { moment ≤ last_moment }
{
    calls(session, &lock(name, lease), moment, 30_000, Reply::Granted)
}

// Whether a lock is given back by a call with this lease, and the reply is this one.
fn gives_back(session: &mut SessionState, name: &Name, lease: u64, reply: Reply) -> bool {
    calls(session, &unlock(name), 20_000, lease, reply)
}

// Whether the hold is renewed next at this moment.
fn falls_due(session: &SessionState, name: &Name, moment: u64) -> bool {
    session.watched(&key(name))
        && session.next_due() == Due::At(moment)
        && session.first_due(moment) == Some(key(name))
}

// Whether no hold is renewed.
fn rests(session: &mut SessionState, name: &Name) -> bool {
    !session.watched(&key(name))
        && session.next_due() == Due::Never
        && session.first_due(LAST_MOMENT).is_none()
        && session.renew_ask(&key(name), LAST_MOMENT) == Err(RenewFault::NoWatch)
}

// Whether a renewal is asked for at a moment, of this one of the client's grants.
fn renews(session: &mut SessionState, name: &Name, at: u64, generation: u64) -> bool
    requires { at ≤ last_moment }
{
    let call = Call::Lock(LockCall::Renew {
        owner: owner(),
        lease: 30_000,
    });
    let op = Op { name: *name, call };
    session.renew_ask(&key(name), at) == Ok(op)
        && session.renewing(&key(name)) == Some(Renewal { generation, at })
        && session.renew_ask(&key(name), at) == Err(RenewFault::Renewing)
        && session.next_due() == Due::Never
}

// Whether a second hold, which was asked for with a lease of its own, doesn't cut the first short.
fn holds_twice(session: &mut SessionState, name: &Name) -> bool {
    is_granted(session, name, Lease::Watch, 100)
        && falls_due(session, name, 10_100)
        && is_granted(session, name, Lease::For(1_000), 5_000)
        && falls_due(session, name, 15_000)
        && session.first_due(14_999).is_none()
}

// Whether the hold is renewed until it is given back.
fn renewed_until_given_back(alloc: Global, name: &Name) -> bool {
    let mut session = client(alloc);
    holds_twice(&mut session, name)
        && session.renew_ask(&key(name), 14_999) == Err(RenewFault::NotDue(15_000))
        && renews(&mut session, name, 15_000, 2)
        && session.renew_take(&key(name), &Reply::Renewed) == Some(RenewTaken::Due(25_000))
        && session.renew_take(&key(name), &Reply::Renewed).is_none()
        && gives_back(&mut session, name, 30_000, Reply::Kept)
        && falls_due(&session, name, 25_000)
        && gives_back(&mut session, name, 30_000, Reply::Freed)
        && rests(&mut session, name)
        && gives_back(&mut session, name, 1_000, Reply::NotHeld)
}

// Whether a late reply to the renewal of a hold that was given back doesn't count for the next one,
// and a hold that couldn't be renewed isn't any longer.
fn ends_with_its_grant(alloc: Global, name: &Name) -> bool {
    let mut session = client(alloc);
    is_granted(&mut session, name, Lease::Watch, 100)
        && renews(&mut session, name, 10_100, 1)
        && gives_back(&mut session, name, 30_000, Reply::Freed)
        && is_granted(&mut session, name, Lease::Watch, 20_000)
        && session.renew_take(&key(name), &Reply::NotHeld) == Some(RenewTaken::Stale)
        && falls_due(&session, name, 30_000)
        && renews(&mut session, name, 30_000, 2)
        && session.renew_take(&key(name), &Reply::NotHeld) == Some(RenewTaken::Ended)
        && rests(&mut session, name)
}

// Whether a client that was cut off renews nothing.
fn cut_off(alloc: Global, name: &Name) -> bool {
    let mut session = client(alloc);
    let held = is_granted(&mut session, name, Lease::Watch, 100);
    session.cut();
    held && rests(&mut session, name)
}

#[test]
fn holds_are_renewed(rt: HostRuntime) -> Result<(), Fail> {
    let name = Name::parse(b"a")?;
    assert!(rt; renewed_until_given_back(rt.alloc(), &name));
    assert!(rt; ends_with_its_grant(rt.alloc(), &name));
    assert!(rt; cut_off(rt.alloc(), &name));
    Ok(())
}
