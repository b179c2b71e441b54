ghost use Rattle.std.specs.Prelude.{◌≡◌, ◌<◌, ◌≤◌, ◌+◌, ◌++◌, length, IfOk, OnOk, OnErr, None};
ghost use Rattle.lr_limits.specs.Limits.{event_limit, entry_limit, last_moment};
ghost use Rattle.lr_model.specs.History.{deeds_of};
ghost use Rattle.lr_machine.specs.Deeds.{deeds_of_event};
ghost use Rattle.lr_machine.specs.Renewals.{RenewsInTime};
ghost use Rattle.lr_machine.specs.Shown.{shown, standings_of};
ghost use Rattle.lr_machine.specs.Sound.{IsInOrder, IsSound};
ghost use Rattle.lr_machine.specs.Within.{IsWithin, MayBegin};
ghost use Rattle.lr_machine.specs.World.{first_world, next};
ghost use Rattle.lr_machine_wakeups.specs.Throughout.{NoWakeupIsLost};
ghost use Rattle.lr_clients.specs.Rows.{client_alone};
ghost use Rattle.lr_world.specs.World.{world_of, world_with};

use crate::events::{cut, exec, force, renew};
use crate::items::push;
use crate::orders::sub;
use crate::stands::standings;
use lr_clients::{ClientTable, hold_key};
use lr_limits::LAST_MOMENT;
use lr_machine::{Event, Shown, Standings, ThreadId};
use lr_server::{History, ServerState};
use std::alloc::{AllocError, Global};
use std::marker::Model;

/// The number of the last connection that is open when a world begins: two for each client, and the
/// operator's.
const LAST_CONNECTION: u32 = 128;

/// A server with the connections 0 to 128 open and 64 clients with 256 threads each, as one machine
/// that takes one event at a time. Client c has the id whose 128-bit number is c. It sends its calls
/// on connection 2c - 1, and gets messages on connection 2c.
#[derive(Drop)]
pub struct World {
    alloc: Global,
    server: ServerState,
    clients: ClientTable,
    moment: u64,
    applied: u64,
}

impl Model for World {
    ghost use Rattle.lr_world.specs.World.{WorldValue, IsWorld};

    ghost Value = { WorldValue };

    ghost view = { λ w. record {
      entries = w.server.entries;
      moment = w.moment;
      clients = w.clients;
      applied = w.applied;
    } };

    ghost invariant = { λ w. IsWorld w.server.last (record {
      entries = w.server.entries;
      moment = w.moment;
      clients = w.clients;
      applied = w.applied;
    }) };
}

impl World {
    /// The world at moment 0, before the first event.
    pub fn new(alloc: Global) -> Result<World, AllocError>
        ensures first { IfOk result (λ w. world_of w ≡ first_world) }
        ensures unused { IfOk result (λ w. w.applied ≡ 0) }
    {
        Ok(World {
            alloc,
            server: ServerState::new(alloc, LAST_CONNECTION)?,
            clients: ClientTable::new(alloc)?,
            moment: 0,
            applied: 0,
        })
    }

    /// Applies an event: what is shown and the world afterwards are those of the step table. An event
    /// whose case doesn't apply shows so and changes nothing. After an error the world is the same.
    pub fn apply(&mut self, event: &Event) -> Result<Shown, AllocError>
        requires within { IsWithin event.now }
        requires begins { MayBegin event.now }
        requires room { self.old.applied < event_limit }
        ensures shown { IfOk result (λ s. s ≡ shown (world_of self.old) event.now) }
        ensures next { OnOk result (world_of self.new ≡ next (world_of self.old) event.now) }
        ensures count { OnOk result (self.new.applied ≡ self.old.applied + 1) }
        ensures err { OnErr result (world_of self.new ≡ world_of self.old) }
        ensures err_count { OnErr result (self.new.applied ≡ self.old.applied) }

        // The history stays legal, and no two claims that conflict are held at once.
        ensures sound { IsSound (world_of self.new) }
        // It has what the event made the server do, for whom and where, and nothing else.
        ensures once { OnOk result (deeds_of self.new.entries
            ≡ deeds_of self.old.entries ++ deeds_of_event (world_of self.old) event.now) }
        // Whatever is told to stand for a sleeping thread is never nothing, and no timer that is too
        // late: later than the peak of its lock, or later than now where it waits for permits.
        ensures awake { NoWakeupIsLost (world_of self.new) }
        // A hold that is watched and live falls due two thirds of the watchdog's lease before its
        // end, so that it is renewed in time.
        ensures renews { RenewsInTime (world_of self.new) }
        // Each event makes one entry at most, and two for each client that is cut off, so that no
        // event finds a full history.
        ensures few { length self.new.entries ≤ self.new.applied + 128 }
    {
        let shown = run(
            self.alloc,
            &mut self.server,
            &mut self.clients,
            &mut self.moment,
            event,
        )?;
        self.applied += 1;
        Ok(shown)
    }

    /// What stands now for each thread that sleeps, in order of clients, and then of threads. It
    /// looks at all threads of all clients.
    pub fn stands(&self) -> Result<Standings, AllocError>
        ensures { IfOk result (λ s. s ≡ standings_of (world_of self.now)) }
    {
        standings(self.alloc, &self.server, &self.clients, self.moment)
    }

    /// The moment now, in milliseconds.
    pub fn moment(&self) -> u64
        ensures value { result ≡ self.now.moment }
        ensures early { result ≤ last_moment }
    {
        self.moment
    }

    /// What the server has done, in order.
    pub fn history(&self) -> &History
        ensures { result.now.entries ≡ self.now.entries }
    {
        self.server.history()
    }
}

// What an event does to the parts of a world.
fn run(
    alloc: Global,
    server: &mut ServerState,
    clients: &mut ClientTable,
    moment: &mut u64,
    event: &Event,
) -> Result<Shown, AllocError>
    requires within { IsWithin event.now }
    requires begins { MayBegin event.now }
    requires first { server.old.last ≡ 128 }
    requires in_order { IsInOrder (world_with server.old.entries moment.old clients.old) }
    requires room { length server.old.entries < entry_limit }
    requires early { moment.old ≤ last_moment }
    ensures shown { let world = world_with server.old.entries moment.old clients.old in
        IfOk result (λ s. s ≡ shown world event.now) }
    ensures next { let world = world_with server.old.entries moment.old clients.old in
        OnOk result (world_with server.new.entries moment.new clients.new ≡ next world event.now) }
    ensures last { server.new.last ≡ server.old.last }
    ensures early { moment.new ≤ last_moment }
    ensures err { let world = world_with server.old.entries moment.old clients.old in
        OnErr result (world_with server.new.entries moment.new clients.new ≡ world) }
{
    if let Some(client) = client_alone(event) {
        return clients.step(client, *moment, event);
    }
    serve(alloc, server, clients, moment, event)
}

// The client of an event that is a step of its own, which nobody else notices.
fn client_alone(event: &Event) -> Option<u32>
    ensures { result ≡ client_alone event.now }
{
    match *event {
        Event::Begin { client, .. }
        | Event::Ask { client, .. }
        | Event::Take { client, .. }
        | Event::Check { client, .. }
        | Event::Wake { client, .. }
        | Event::Fire { client, .. }
        | Event::Quit { client, .. }
        | Event::RenewAsk { client, .. }
        | Event::RenewTake { client, .. } => Some(client),
        Event::Exec { .. }
        | Event::Sub { .. }
        | Event::Push { .. }
        | Event::Tick(_)
        | Event::RenewExec { .. }
        | Event::Force(_)
        | Event::Cut { .. }
        | Event::Show => None,
    }
}

// What an event does that isn't a step of one client alone.
fn serve(
    alloc: Global,
    server: &mut ServerState,
    clients: &mut ClientTable,
    moment: &mut u64,
    event: &Event,
) -> Result<Shown, AllocError>
    requires serves { client_alone event.now ≡ None }
    requires within { IsWithin event.now }
    requires first { server.old.last ≡ 128 }
    requires in_order { IsInOrder (world_with server.old.entries moment.old clients.old) }
    requires room { length server.old.entries < entry_limit }
    requires early { moment.old ≤ last_moment }
    ensures shown { let world = world_with server.old.entries moment.old clients.old in
        IfOk result (λ s. s ≡ shown world event.now) }
    ensures next { let world = world_with server.old.entries moment.old clients.old in
        OnOk result (world_with server.new.entries moment.new clients.new ≡ next world event.now) }
    ensures last { server.new.last ≡ server.old.last }
    ensures early { moment.new ≤ last_moment }
    ensures err { let world = world_with server.old.entries moment.old clients.old in
        OnErr result (world_with server.new.entries moment.new clients.new ≡ world) }
{
    match *event {
        Event::Exec { client, thread } => {
            exec(server, clients, *moment, ThreadId { client, thread })
        }
        Event::Sub { client } => sub(alloc, server, clients, *moment, client),
        Event::Push { client } => push(server, clients, *moment, client),
        Event::Tick(reading) => {
            *moment = (*moment).max(reading.min(LAST_MOMENT));
            Ok(Shown::Moment(*moment))
        }
        Event::RenewExec {
            client,
            thread,
            kind,
            name,
        } => {
            let key = hold_key(client, thread, kind, name);
            renew(server, clients, *moment, client, &key)
        }
        Event::Force(name) => force(server, clients, *moment, name),
        Event::Cut { client } => Ok(cut(server, clients, *moment, client)),
        Event::Show => Ok(Shown::Standings(standings(alloc, server, clients, *moment)?)),
        _ => unreachable!(),
    }
}
