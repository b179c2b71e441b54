ghost use Rattle.std.specs.Prelude.{◌≤◌};
ghost use Rattle.lr_limits.specs.Limits.{last_moment};
ghost use Rattle.lr_names.specs.Owner.{IsThread};
ghost use Rattle.lr_objects.specs.declared.want.Mode.TheVariants as modes;
ghost use Rattle.lr_waiting.specs.Begin.{CanBegin};

use lr_names::{Channel, Due, Kind, Name, Push, Wakes};
use lr_objects::{Function, Lease, LockFunction, Mode, ReadWriteFunction, Remaining, Reply, Want};
use lr_session::{Pushed, SessionFault, SessionState};
use lr_waiting::{Ask, CheckedStep, GaveUp, Phase, Taken, WokenStep};
use std::alloc::Global;
use std::test::Fail;
use uuid::Uuid;

// A request for a lock, with a lease of 1,000 ms.
fn lock(name: &Name) -> Want
    ensures { CanBegin modes.Long result }
{
    Want {
        function: Function::Lock(LockFunction::Try),
        name: *name,
        lease: Lease::For(1_000),
        number: 0,
        id: Uuid::nil(),
    }
}

// A request to read, with the same lease.
fn read(name: &Name) -> Want
    ensures { CanBegin modes.Long result }
{
    Want {
        function: Function::ReadWrite(ReadWriteFunction::Read),
        name: *name,
        lease: Lease::For(1_000),
        number: 0,
        id: Uuid::nil(),
    }
}

pub(crate) fn client(alloc: Global) -> SessionState {
    SessionState::new(alloc, Uuid::from_u128(1), 30_000)
}

pub(crate) fn is_phase(session: &SessionState, thread: u32, phase: Phase) -> bool {
    session.phase(thread) == phase
}

fn begins(session: &mut SessionState, thread: u32, name: &Name) -> bool
    requires { IsThread thread }
{
    session.begin(thread, Mode::Long, &lock(name)).is_ok()
}

// Whether a thread sends its call by the ticket that it has.
pub(crate) fn asks(session: &mut SessionState, thread: u32, moment: u64) -> bool
    requires { moment ≤ last_moment }
{
    match session.ticket(thread) {
        Some(ask) => session.ask(ask, moment).is_ok(),
        None => false,
    }
}

// Whether a thread is told that the lock is busy for 400 ms, and is in this phase then.
pub(crate) fn busy(session: &mut SessionState, thread: u32, phase: Phase) -> bool {
    session
        .take(thread, &Reply::Busy(Remaining::new(400)))
        .is_ok()
        && is_phase(session, thread, phase)
}

// Whether the client hears the channel now, and so many threads may ask once more.
pub(crate) fn hears(session: &mut SessionState, channel: Channel, threads: usize) -> bool {
    match session.push(&Push::Subscribed(channel, 1)) {
        Ok(Pushed::Acked(_, asks)) => asks.len() == threads,
        _ => false,
    }
}

// Whether a thread whose call was refused while nobody heard the channel waits for that.
fn joins(session: &mut SessionState, thread: u32, name: &Name) -> bool
    requires { IsThread thread }
{
    begins(session, thread, name)
        && asks(session, thread, 90)
        && busy(session, thread, Phase::Joining)
}

// Whether a thread asks at moment 100, is refused and falls asleep until 500.
pub(crate) fn sleeps(session: &mut SessionState, thread: u32) -> bool {
    asks(session, thread, 100)
        && busy(session, thread, Phase::Refused)
        && session.check(thread, 499) == Ok(CheckedStep::Asleep(Due::At(500)))
}

// Whether two threads share one subscription, and sleep.
fn share(session: &mut SessionState, channel: Channel, name: &Name) -> bool {
    joins(session, 1, name)
        && joins(session, 2, name)
        && session.next_order().is_some()
        && session.next_order().is_none()
        && hears(session, channel, 2)
        && sleeps(session, 1)
        && due(session, 499, &[])
        && due(session, 500, &[1])
        && sleeps(session, 2)
}

fn due(session: &SessionState, moment: u64, threads: &[u32]) -> bool {
    match session.tick(moment) {
        Ok(due) => due.as_slice() == threads,
        Err(_) => false,
    }
}

// Whether the timers of both threads come at 500, and not before.
fn falls_due(session: &mut SessionState) -> bool {
    due(session, 499, &[])
        && due(session, 500, &[1, 2])
        && session.fire(1, 499).is_err()
        && session.fire(1, 500).is_ok()
        && due(session, 500, &[2])
}

// Whether a message wakes one thread, which gives up and hands its turn on to the other.
fn hands_on(session: &mut SessionState, channel: Channel) -> bool {
    session.push(&Push::Message(channel, Wakes::One)).is_ok()
        && session.give_up(1) == Ok(GaveUp::Done)
        && session.permits(&channel) == 1
        && matches!(session.wake(2), Ok(WokenStep::Permit(_)))
        && is_phase(session, 2, Phase::Ready)
}

// Whether the last thread is granted the lock, and the client leaves the channel.
fn ends(session: &mut SessionState) -> bool {
    asks(session, 2, 600)
        && session.take(2, &Reply::Granted) == Ok(Taken::Done(Reply::Granted))
        && is_phase(session, 2, Phase::Idle)
        && matches!(session.next_order(), Some(order) if !order.subscribe)
}

fn threads_share(alloc: Global, channel: Channel, name: &Name) -> bool {
    let mut session = client(alloc);
    session.reserve().is_ok()
        && share(&mut session, channel, name)
        && falls_due(&mut session)
        && hands_on(&mut session, channel)
        && ends(&mut session)
}

// Whether a thread that wants to read is refused, and waits until its client hears the channel.
fn joins_readers(session: &mut SessionState, thread: u32, name: &Name) -> bool
    requires { IsThread thread }
{
    session.begin(thread, Mode::Long, &read(name)).is_ok()
        && asks(session, thread, 90)
        && busy(session, thread, Phase::Joining)
}

// Whether a message wakes all who wait, and so many such messages have come then.
fn broadcasts(session: &mut SessionState, channel: Channel, number: u64) -> bool {
    match session.push(&Push::Message(channel, Wakes::All)) {
        Ok(Pushed::Message(_, told)) => told == number && session.seen(&channel) == number,
        _ => false,
    }
}

// Whether a thread that asked before a message, and takes its reply after it, is awake at its look.
fn notes_at_ask(session: &mut SessionState, channel: Channel) -> bool {
    asks(session, 1, 100)
        && broadcasts(session, channel, 1)
        && busy(session, 1, Phase::Refused)
        && matches!(session.check(1, 499), Ok(CheckedStep::Broadcast(_)))
}

// Whether two threads sleep that asked after the message, and one further message wakes both.
fn wakes_both(session: &mut SessionState, channel: Channel) -> bool {
    sleeps(session, 1)
        && sleeps(session, 2)
        && session.wake(2).is_err()
        && broadcasts(session, channel, 2)
        && matches!(session.wake(1), Ok(WokenStep::Broadcast(_)))
        && matches!(session.wake(2), Ok(WokenStep::Broadcast(_)))
}

fn readers_wake(alloc: Global, channel: Channel, name: &Name) -> bool {
    let mut session = client(alloc);
    session.reserve().is_ok()
        && joins_readers(&mut session, 1, name)
        && joins_readers(&mut session, 2, name)
        && hears(&mut session, channel, 2)
        && notes_at_ask(&mut session, channel)
        && wakes_both(&mut session, channel)
}

// Whether an old ticket lets nobody send a call.
fn old_ticket(alloc: Global, name: &Name) -> bool {
    let mut session = client(alloc);
    let old = Ask { thread: 1, turn: 0 };
    begins(&mut session, 1, name)
        && session.ask(old, 90).err() == Some(SessionFault::NotNow(Phase::Fresh))
        && asks(&mut session, 1, 90)
}

// Whether a client that was cut off refuses every step of a thread.
fn refuses(session: &mut SessionState, name: &Name) -> bool {
    let cut = SessionFault::NotNow(Phase::Cut);
    session.cut();
    is_phase(session, 1, Phase::Cut)
        && session.begin(1, Mode::Long, &lock(name)) == Err(cut)
        && session.check(1, 90) == Err(cut)
        && session.wake(1) == Err(cut)
        && session.fire(1, 90) == Err(cut)
        && session.give_up(1) == Err(cut)
}

// Whether it does so before its first request, and while a thread begins, joins and sleeps.
fn cut_off(alloc: Global, channel: Channel, name: &Name) -> bool {
    let mut idle = client(alloc);
    let mut fresh = client(alloc);
    let mut joining = client(alloc);
    let mut asleep = client(alloc);
    refuses(&mut idle, name)
        && begins(&mut fresh, 1, name)
        && refuses(&mut fresh, name)
        && joins(&mut joining, 1, name)
        && refuses(&mut joining, name)
        && share(&mut asleep, channel, name)
        && refuses(&mut asleep, name)
}

#[test]
fn clients_wait(rt: HostRuntime) -> Result<(), Fail> {
    let name = Name::parse(b"a")?;
    let channel = Channel::of(Kind::Mutex, &name);
    assert!(rt; threads_share(rt.alloc(), channel, &name));
    assert!(rt; readers_wake(rt.alloc(), Channel::of(Kind::Rw, &name), &name));
    assert!(rt; old_ticket(rt.alloc(), &name));
    assert!(rt; cut_off(rt.alloc(), channel, &name));
    Ok(())
}
