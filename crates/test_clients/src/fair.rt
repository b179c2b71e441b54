ghost use Rattle.std.specs.Prelude.{◌≤◌};
ghost use Rattle.lr_limits.specs.Limits.{last_moment};
ghost use Rattle.lr_names.specs.Owner.{IsThread};
ghost use Rattle.lr_objects.specs.declared.want.Mode.TheVariants as modes;
ghost use Rattle.lr_waiting.specs.Begin.{CanBegin};

use crate::session::{asks, busy, client, hears, is_phase, sleeps};
use lr_names::{Channel, Name, Owner, Push, Wakes};
use lr_objects::{Call, FairCall, FairFunction, Function, Lease, Mode, Op, Reply, Want};
use lr_session::{SessionFault, SessionState};
use lr_waiting::{GaveUp, Phase, Taken, WokenStep};
use std::alloc::Global;
use std::test::Fail;
use uuid::Uuid;

// A request for a fair lock, with a lease of 1,000 ms.
fn fair(name: &Name) -> Want
    ensures once { CanBegin modes.Once result }
    ensures short { CanBegin (modes.For 5) result }
    ensures long { CanBegin modes.Long result }
{
    Want {
        function: Function::Fair(FairFunction::Try),
        name: *name,
        lease: Lease::For(1_000),
        number: 0,
        id: Uuid::nil(),
    }
}

fn owner(thread: u32) -> Owner
    requires { IsThread thread }
{
    Owner::new(Uuid::from_u128(1), thread)
}

// The channel on which a thread waits: no other thread waits there.
fn channel(thread: u32, name: &Name) -> Channel
    requires { IsThread thread }
{
    Channel::fair(name, &owner(thread))
}

// The call that a thread sends by the ticket that it has.
fn sent(session: &mut SessionState, thread: u32, moment: u64) -> Option<Op>
    requires { moment ≤ last_moment }
{
    let ask = session.ticket(thread)?;
    session.ask(ask, moment).ok()
}

// Whether a thread tries to take the lock, and may take a place in its queue or not.
fn tries(session: &mut SessionState, thread: u32, name: &Name, queue: bool) -> bool
    requires { IsThread thread }
{
    let call = FairCall::Try {
        owner: owner(thread),
        lease: 1_000,
        queue,
    };
    sent(session, thread, 90)
        == Some(Op {
            name: *name,
            call: Call::Fair(call),
        })
}

// Whether only a request that may wait takes a place in the queue.
fn may_queue(alloc: Global, name: &Name) -> bool {
    let mut session = client(alloc);
    let want = fair(name);
    session.begin(1, Mode::Once, &want).is_ok()
        && tries(&mut session, 1, name, false)
        && session.begin(2, Mode::For(5), &want).is_ok()
        && tries(&mut session, 2, name, true)
        && session.begin(3, Mode::Long, &want).is_ok()
        && tries(&mut session, 3, name, true)
}

// Whether a thread whose call was refused joins the channel that names it as the owner.
fn joins(session: &mut SessionState, thread: u32, name: &Name) -> bool
    requires { IsThread thread }
{
    let own = channel(thread, name);
    session.begin(thread, Mode::Long, &fair(name)).is_ok()
        && tries(session, thread, name, true)
        && busy(session, thread, Phase::Joining)
        && matches!(session.next_order(), Some(order) if order.subscribe && order.channel == own)
}

fn is_ready(session: &mut SessionState, thread: u32, name: &Name) -> bool
    requires { IsThread thread }
{
    joins(session, thread, name) && hears(session, channel(thread, name), 1)
}

fn is_refused(session: &mut SessionState, thread: u32, name: &Name) -> bool
    requires { IsThread thread }
{
    is_ready(session, thread, name)
        && asks(session, thread, 100)
        && busy(session, thread, Phase::Refused)
}

fn falls_asleep(session: &mut SessionState, thread: u32, name: &Name) -> bool
    requires { IsThread thread }
{
    is_ready(session, thread, name) && sleeps(session, thread)
}

// Whether a thread that gives up gets a ticket, and still waits on its channel.
fn gives_up(session: &mut SessionState, thread: u32, name: &Name) -> bool
    requires { IsThread thread }
{
    let again = SessionFault::NotNow(Phase::Leaving);
    let ticket = match session.give_up(thread) {
        Ok(GaveUp::Leaving(ask)) => Some(ask),
        _ => None,
    };
    ticket.is_some()
        && session.ticket(thread) == ticket
        && session.give_up(thread) == Err(again)
        && session.entry(&channel(thread, name)).registered == 1
        && session.next_order().is_none()
}

// Whether it gives its place up by its ticket.
fn leaves(session: &mut SessionState, thread: u32, name: &Name) -> bool
    requires { IsThread thread }
{
    let call = FairCall::Leave {
        owner: owner(thread),
    };
    sent(session, thread, 600)
        == Some(Op {
            name: *name,
            call: Call::Fair(call),
        })
}

// Whether its request ends with this reply, and its client leaves the channel.
fn ends(session: &mut SessionState, thread: u32, name: &Name, reply: Reply) -> bool
    requires { IsThread thread }
{
    let own = channel(thread, name);
    session.take(thread, &reply) == Ok(Taken::Done(reply))
        && is_phase(session, thread, Phase::Idle)
        && matches!(session.next_order(), Some(order) if !order.subscribe && order.channel == own)
        && session.entry(&own).registered == 0
}

// Whether a thread that waits gives its place in the queue up, and has no request then.
fn quits(session: &mut SessionState, name: &Name, reply: Reply) -> bool {
    gives_up(session, 1, name) && leaves(session, 1, name) && ends(session, 1, name, reply)
}

// Whether it does so wherever it waits, and whether it had a place or not.
fn places_are_given_up(alloc: Global, name: &Name) -> bool {
    let mut session = client(alloc);
    joins(&mut session, 1, name)
        && quits(&mut session, name, Reply::Left)
        && hears(&mut session, channel(1, name), 0)
        && is_ready(&mut session, 1, name)
        && quits(&mut session, name, Reply::Unknown)
        && is_refused(&mut session, 1, name)
        && quits(&mut session, name, Reply::Left)
        && falls_asleep(&mut session, 1, name)
        && quits(&mut session, name, Reply::Unknown)
}

// Whether a message on the channel of one thread wakes that thread alone.
fn wakes_one(session: &mut SessionState, name: &Name) -> bool {
    let message = Push::Message(channel(2, name), Wakes::One);
    session.push(&message).is_ok()
        && session.wake(1).is_err()
        && matches!(session.wake(2), Ok(WokenStep::Permit(_)))
        && session.wake(2).is_err()
}

// Whether two threads of one client wait on two channels, and one gives its place up while the other
// goes on to wait.
fn threads_wait_apart(alloc: Global, name: &Name) -> bool {
    let mut session = client(alloc);
    falls_asleep(&mut session, 1, name)
        && falls_asleep(&mut session, 2, name)
        && wakes_one(&mut session, name)
        && quits(&mut session, name, Reply::Left)
        && session.entry(&channel(2, name)).registered == 1
        && session.permits(&channel(2, name)) == 0
        && is_phase(&session, 2, Phase::Ready)
}

#[test]
fn fair_threads_wait(rt: HostRuntime) -> Result<(), Fail> {
    let name = Name::parse(b"a")?;
    let apart = threads_wait_apart(rt.alloc(), &name);
    let left = places_are_given_up(rt.alloc(), &name);
    assert!(rt; may_queue(rt.alloc(), &name) && left && apart);
    Ok(())
}
