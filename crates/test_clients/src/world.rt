ghost use Rattle.std.specs.Prelude.{◌≡◌, ◌<◌, ◌≤◌, ◌+◌};
ghost use Rattle.lr_machine.specs.Within.{MayBegin, IsWithin};

use lr_machine::{Event, Found, Shown};
use lr_model::{Act, Entry};
use lr_names::Name;
use lr_objects::{Function, Lease, LockFunction, Mode, Reply, Want};
use lr_waiting::{RenewTaken, WatchKind};
use lr_world::World;
use std::test::Fail;
use uuid::Uuid;

// Thread 1 of client 1 wants a lock.
fn begin(name: Name) -> Event
    ensures within { IsWithin result }
    ensures begins { MayBegin result }
{
    Event::Begin {
        client: 1,
        thread: 1,
        mode: Mode::Once,
        want: Want {
            function: Function::Lock(LockFunction::Try),
            name,
            lease: Lease::For(1_000),
            number: 0,
            id: Uuid::nil(),
        },
    }
}

// Whether a request begins in a new world.
fn is_begun(world: &mut World, name: Name) -> bool
    requires { world.old.applied ≡ 0 }
{
    let Ok(shown) = world.apply(&begin(name)) else {
        return false;
    };
    is_fresh(&shown)
}

fn is_fresh(shown: &Shown) -> bool {
    matches!(shown, Shown::Fresh)
}

#[test]
fn a_request_begins(rt: HostRuntime) -> Result<(), Fail> {
    let name = Name::parse(b"a")?;
    let mut world = World::new(rt.alloc())?;
    assert!(rt; is_begun(&mut world, name));
    assert!(rt; world.history().is_empty());
    assert!(rt; world.stands()?.as_slice().is_empty());
    Ok(())
}

// Cuts client 2 off in a new world.
fn cut(world: &mut World) -> bool
    requires { world.old.applied ≡ 0 }
{
    matches!(world.apply(&Event::Cut { client: 2 }), Ok(Shown::Cut))
}

// Whether an entry closes this connection.
fn closes(entry: Option<Entry>, conn: u32) -> bool {
    match entry {
        Some(entry) => entry.conn == conn && matches!(entry.act, Act::Close),
        None => false,
    }
}

// The connection for the calls of a client closes first.
#[test]
fn a_cut_closes_both_connections(rt: HostRuntime) -> Result<(), Fail> {
    let mut world = World::new(rt.alloc())?;
    assert!(rt; cut(&mut world));
    let history = world.history();
    assert!(rt; history.len() == 2 && closes(history.get(0), 3) && closes(history.get(1), 4));
    Ok(())
}

// Thread 1 of client 1 wants a lock with the watchdog's lease.
fn begin_watched(name: Name) -> Event
    ensures within { IsWithin result }
    ensures begins { MayBegin result }
{
    Event::Begin {
        client: 1,
        thread: 1,
        mode: Mode::Once,
        want: Want {
            function: Function::Lock(LockFunction::Try),
            name,
            lease: Lease::Watch,
            number: 0,
            id: Uuid::nil(),
        },
    }
}

// What is shown of an event, where there is memory.
fn shown(world: &mut World, event: &Event) -> Option<Shown>
    requires within { IsWithin event.now }
    requires begins { MayBegin event.now }
    requires few { world.old.applied < 1000 }
    ensures { world.new.applied ≤ world.old.applied + 1 }
{
    world.apply(event).ok()
}

// Whether thread 1 is granted a lock that its client renews.
fn is_watched(world: &mut World, name: Name) -> bool
    requires { world.old.applied ≡ 0 }
    ensures { world.new.applied ≤ 4 }
{
    let (client, thread) = (1, 1);
    let begun = shown(world, &begin_watched(name));
    let asked = shown(world, &Event::Ask { client, thread });
    let executed = shown(world, &Event::Exec { client, thread });
    let taken = shown(world, &Event::Take { client, thread });
    begun.is_some()
        && asked.is_some()
        && executed.is_some()
        && matches!(taken, Some(Shown::Done(Reply::Granted)))
}

// Whether the server renews the hold once it is asked to, at 10,000 ms.
fn is_executed(world: &mut World, name: Name) -> bool
    requires { world.old.applied ≤ 4 }
    ensures { world.new.applied ≤ 8 }
{
    let (client, thread, kind) = (1, 1, WatchKind::Lock);
    let asked = Event::RenewAsk {
        client,
        thread,
        kind,
        name,
    };
    let executed = Event::RenewExec {
        client,
        thread,
        kind,
        name,
    };
    let early = shown(world, &asked);
    let _ = shown(world, &Event::Tick(10_000));
    let due = shown(world, &asked);
    let run = shown(world, &executed);
    matches!(early, Some(Shown::No(Found::Due)))
        && matches!(due, Some(Shown::RenewAsked))
        && is_renewed(&run)
}

// Whether the server has renewed a hold.
fn is_renewed(shown: &Option<Shown>) -> bool {
    match shown {
        Some(Shown::Replied(replied)) => replied.reply == Reply::Renewed,
        _ => false,
    }
}

// Whether the client takes the reply, and the hold falls due next at 20,000 ms.
fn is_taken(world: &mut World, name: Name) -> bool
    requires { world.old.applied ≤ 8 }
{
    let (client, thread, kind) = (1, 1, WatchKind::Lock);
    let executed = Event::RenewExec {
        client,
        thread,
        kind,
        name,
    };
    let taken = Event::RenewTake {
        client,
        thread,
        kind,
        name,
    };
    let again = shown(world, &executed);
    let told = shown(world, &taken);
    matches!(again, Some(Shown::No(Found::Renewal)))
        && matches!(told, Some(Shown::RenewTaken(RenewTaken::Due(20_000))))
}

// Each renewal makes one entry of the history, by the client and not by its thread.
#[test]
fn a_hold_is_renewed(rt: HostRuntime) -> Result<(), Fail> {
    let name = Name::parse(b"a")?;
    let mut world = World::new(rt.alloc())?;
    let watched = is_watched(&mut world, name);
    let executed = is_executed(&mut world, name);
    let taken = is_taken(&mut world, name);
    assert!(rt; watched && executed && taken);
    let history = world.history();
    assert!(rt; history.len() == 2);
    assert!(rt; matches!(history.get(1), Some(entry) if entry.caller == 1_000 && entry.conn == 1));
    Ok(())
}
