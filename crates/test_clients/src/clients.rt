ghost use Rattle.std.specs.Prelude.{◌≡◌, Some};
ghost use Rattle.lr_machine.specs.Within.{IsWithin, MayBegin};
ghost use Rattle.lr_clients.specs.Rows.{client_alone};

use lr_clients::ClientTable;
use lr_machine::{Event, Found, Shown, ThreadId};
use lr_names::{Channel, Kind, Name, Owner, Push, Wakes};
use lr_objects::{
    Call, FairCall, FairFunction, Function, Lease, LockFunction, Mode, ReadWriteFunction,
    Remaining, Reply, Want,
};
use lr_waiting::{Asking, Phase, Stand};
use std::alloc::{AllocError, Global};
use std::test::Fail;
use uuid::Uuid;

// Thread 1 of client 1 begins a request for a lock.
fn begin(name: &Name) -> Event
    ensures alone { client_alone result ≡ Some 1 }
    ensures within { IsWithin result }
    ensures begins { MayBegin result }
{
    Event::Begin {
        client: 1,
        thread: 1,
        mode: Mode::Long,
        want: Want {
            function: Function::Lock(LockFunction::Try),
            name: *name,
            lease: Lease::For(1_000),
            number: 0,
            id: Uuid::nil(),
        },
    }
}

// And one to read.
fn begin_read(name: &Name) -> Event
    ensures alone { client_alone result ≡ Some 1 }
    ensures within { IsWithin result }
    ensures begins { MayBegin result }
{
    Event::Begin {
        client: 1,
        thread: 1,
        mode: Mode::Long,
        want: Want {
            function: Function::ReadWrite(ReadWriteFunction::Read),
            name: *name,
            lease: Lease::For(1_000),
            number: 0,
            id: Uuid::nil(),
        },
    }
}

// And one for a fair lock.
fn begin_fair(name: &Name) -> Event
    ensures alone { client_alone result ≡ Some 1 }
    ensures within { IsWithin result }
    ensures begins { MayBegin result }
{
    Event::Begin {
        client: 1,
        thread: 1,
        mode: Mode::Long,
        want: Want {
            function: Function::Fair(FairFunction::Try),
            name: *name,
            lease: Lease::For(1_000),
            number: 0,
            id: Uuid::nil(),
        },
    }
}

// Whether a step of client 1 finds its thread in a phase in which it doesn't apply.
fn finds(clients: &mut ClientTable, event: &Event, phase: Phase) -> bool
    requires alone { client_alone event.now ≡ Some 1 }
    requires within { IsWithin event.now }
    requires begins { MayBegin event.now }
{
    match clients.step(1, 90, event) {
        Ok(Shown::No(Found::Phase(found))) => found == phase,
        _ => false,
    }
}

// Whether thread 1 begins, and is fresh then.
fn begins(clients: &mut ClientTable, name: &Name) -> bool {
    matches!(clients.step(1, 90, &begin(name)), Ok(Shown::Fresh))
        && finds(clients, &begin(name), Phase::Fresh)
}

fn asked(clients: &ClientTable) -> Option<Asking> {
    clients.asked(ThreadId {
        client: 1,
        thread: 1,
    })
}

fn answer(clients: &mut ClientTable, reply: Reply) {
    let id = ThreadId {
        client: 1,
        thread: 1,
    };
    clients.answer(id, reply);
}

// Whether its call is there once it is sent, and no longer.
fn asks(clients: &mut ClientTable) -> bool {
    let ask = Event::Ask {
        client: 1,
        thread: 1,
    };
    asked(clients).is_none()
        && matches!(clients.step(1, 90, &ask), Ok(Shown::Asked))
        && matches!(asked(clients), Some(asking) if asking.at == 90)
        && finds(clients, &ask, Phase::Asked)
}

// Whether its call is there no longer once it is answered, and it takes the reply once.
fn takes(clients: &mut ClientTable) -> bool {
    let take = Event::Take {
        client: 1,
        thread: 1,
    };
    answer(clients, Reply::Granted);
    asked(clients).is_none()
        && matches!(clients.step(1, 95, &take), Ok(Shown::Done(Reply::Granted)))
        && finds(clients, &take, Phase::Idle)
}

// Whether each step of a thread that waits for an answer shows that its client was cut off.
fn refuses_calls(clients: &mut ClientTable, name: &Name) -> bool {
    let (client, thread) = (1, 1);
    finds(clients, &begin(name), Phase::Cut)
        && finds(clients, &Event::Ask { client, thread }, Phase::Cut)
        && finds(clients, &Event::Take { client, thread }, Phase::Cut)
}

// Whether each step of a thread that sleeps shows that its client was cut off.
fn refuses_sleep(clients: &mut ClientTable) -> bool {
    let (client, thread) = (1, 1);
    finds(clients, &Event::Check { client, thread }, Phase::Cut)
        && finds(clients, &Event::Wake { client, thread }, Phase::Cut)
        && finds(clients, &Event::Fire { client, thread }, Phase::Cut)
        && finds(clients, &Event::Quit { client, thread }, Phase::Cut)
}

// Whether a client that is cut off while its thread waits for an answer loses the call and the
// reply, and refuses every step. The client beside it goes on.
fn is_cut_off(clients: &mut ClientTable, name: &Name) -> bool {
    let begun = begins(clients, name) && asks(clients);
    clients.cut(1);
    begun
        && asked(clients).is_none()
        && refuses_calls(clients, name)
        && refuses_sleep(clients)
        && clients.is_cut(1)
        && !clients.is_cut(2)
}

// Whether its call is sent at 100, and answered with 400 ms that another holds the lock for.
fn is_refused(clients: &mut ClientTable) -> bool {
    let (client, thread) = (1, 1);
    let asked = clients.step(1, 100, &Event::Ask { client, thread }).is_ok();
    answer(clients, Reply::Busy(Remaining::new(400)));
    asked
        && clients
            .step(1, 100, &Event::Take { client, thread })
            .is_ok()
}

// Whether client 1 takes an item that the server has sent it.
fn hears(clients: &mut ClientTable, item: &Push) -> bool {
    match clients.reserve(1) {
        Ok(()) => {}
        Err(_) => return false,
    }
    if clients.is_cut(1) {
        return false;
    }
    !matches!(clients.push(1, item), Shown::No(_))
}

// Whether a thread that begins so sleeps once it was refused while its client hears the channel.
fn falls_asleep(clients: &mut ClientTable, channel: Channel, begin: &Event) -> bool
    requires alone { client_alone begin.now ≡ Some 1 }
    requires within { IsWithin begin.now }
    requires begins { MayBegin begin.now }
{
    let (client, thread) = (1, 1);
    clients.step(1, 90, begin).is_ok()
        && is_refused(clients)
        && hears(clients, &Push::Subscribed(channel, 1))
        && is_refused(clients)
        && clients.asleep(1, 1).is_none()
        && clients
            .step(1, 100, &Event::Check { client, thread })
            .is_ok()
}

// Whether this stands for the thread, where it sleeps.
fn stands(clients: &ClientTable, held: bool, in_flight: bool, stand: Stand) -> bool {
    match clients.asleep(1, 1) {
        Some(sleeper) => clients.stand_of_all(1, &sleeper, held, in_flight) == stand,
        None => false,
    }
}

// Whether what stands for a reader is the first of these that is there, the timer last.
fn stands_in_order(alloc: Global, channel: Channel, name: &Name) -> Result<bool, AllocError> {
    let mut clients = ClientTable::new(alloc)?;
    Ok(
        falls_asleep(&mut clients, channel, &begin_read(name))
            && stands(&clients, true, true, Stand::Held)
            && stands(&clients, false, true, Stand::Message)
            && stands(&clients, false, false, Stand::Timer(500))
            && hears(&mut clients, &Push::Message(channel, Wakes::All))
            && stands(&clients, false, false, Stand::Broadcast),
    )
}

// Whether this stands for the thread, where it sleeps on this channel.
fn stands_apart(clients: &ClientTable, channel: &Channel, in_flight: bool, stand: Stand) -> bool {
    match clients.asleep(1, 1) {
        Some(sleeper) => {
            sleeper.channel == *channel && clients.stand_of_one(1, channel, in_flight) == stand
        }
        None => false,
    }
}

// Whether a thread that gives up is there still, and sends the call that gives its place up.
fn leaves(clients: &mut ClientTable, owner: Owner) -> bool {
    let (client, thread) = (1, 1);
    let quit = Event::Quit { client, thread };
    let call = Call::Fair(FairCall::Leave { owner });
    matches!(clients.step(1, 600, &quit), Ok(Shown::Leaving))
        && clients.asleep(1, 1).is_none()
        && finds(clients, &quit, Phase::Leaving)
        && clients.step(1, 600, &Event::Ask { client, thread }).is_ok()
        && matches!(asked(clients), Some(asking) if asking.op.call == call)
}

// Whether its request ends once it has left the queue, and its client leaves the channel.
fn has_left(clients: &mut ClientTable, channel: Channel) -> bool {
    let (client, thread) = (1, 1);
    let take = Event::Take { client, thread };
    answer(clients, Reply::Left);
    clients.take_order(1);
    matches!(clients.step(1, 600, &take), Ok(Shown::Done(Reply::Left)))
        && matches!(
            clients.first_order(1),
            Some(order) if !order.subscribe && order.channel == channel
        )
        && finds(clients, &take, Phase::Idle)
}

// Whether a thread waits for its turn on a channel of its own, and gives its place up.
fn waits_in_queue(alloc: Global, name: &Name) -> Result<bool, AllocError> {
    let mut clients = ClientTable::new(alloc)?;
    let owner = Owner::new(Uuid::from_u128(1), 1);
    let other = Channel::fair(name, &Owner::new(Uuid::from_u128(1), 2));
    let own = Channel::fair(name, &owner);
    Ok(
        falls_asleep(&mut clients, own, &begin_fair(name))
            && stands_apart(&clients, &own, true, Stand::Message)
            && stands_apart(&clients, &own, false, Stand::Timer(500))
            && clients.stand_of_one(1, &other, false) == Stand::Nobody
            && hears(&mut clients, &Push::Message(other, Wakes::One))
            && stands_apart(&clients, &own, false, Stand::Timer(500))
            && hears(&mut clients, &Push::Message(own, Wakes::One))
            && stands_apart(&clients, &own, false, Stand::Permit)
            && leaves(&mut clients, owner)
            && has_left(&mut clients, own),
    )
}

fn threads_ask(alloc: Global, name: &Name) -> Result<bool, AllocError> {
    let mut clients = ClientTable::new(alloc)?;
    Ok(begins(&mut clients, name) && asks(&mut clients) && takes(&mut clients))
}

fn clients_are_cut_off(alloc: Global, name: &Name) -> Result<bool, AllocError> {
    let mut clients = ClientTable::new(alloc)?;
    Ok(is_cut_off(&mut clients, name))
}

#[test]
fn clients_step(rt: HostRuntime) -> Result<(), Fail> {
    let name = Name::parse(b"a")?;
    assert!(rt; threads_ask(rt.alloc(), &name)?);
    assert!(rt; clients_are_cut_off(rt.alloc(), &name)?);
    assert!(rt; stands_in_order(rt.alloc(), Channel::of(Kind::Rw, &name), &name)?);
    assert!(rt; waits_in_queue(rt.alloc(), &name)?);
    Ok(())
}
