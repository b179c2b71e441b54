ghost use Rattle.std.specs.Prelude.{◌≡◌, ◌≤◌, ◌<◌, ◌==◌, false, Some, Ok, IfOk, IfSome, OnOk, OnErr};
ghost use Rattle.lr_limits.specs.Limits.{last_moment, thread_limit};
ghost use Rattle.lr_names.specs.Owner.{IsThread};
ghost use Rattle.lr_objects.specs.Function.{arguments_of};
ghost use Rattle.lr_objects.specs.Want.{HasAmount};
ghost use Rattle.lr_model.specs.Table.{put};
ghost use Rattle.lr_waiting.specs.Client.{asked_of, cut_client, client_row, with_renewed, with_reply};
ghost use Rattle.lr_waiting.specs.Latch.{first_order_of};
ghost use Rattle.lr_waiting.specs.Session.{channel_for, order_taken, pushed};
ghost use Rattle.lr_machine.specs.declared.shown.Shown.TheVariants as shows;
ghost use Rattle.lr_machine.specs.Shown.{shown_item};
ghost use Rattle.lr_machine.specs.Within.{IsClient, IsWithin, MayBegin};
ghost use Rattle.lr_machine.specs.World.{clients_after, first_client, unless_cut};
ghost use Rattle.lr_clients.specs.Client.{clients_of, renewed_room_at, room_at};
ghost use Rattle.lr_clients.specs.Rows.{client_alone, found_in, renewal_in, row_by, shown_by};
ghost use Rattle.lr_clients.specs.Stands.{sleeper_of, stand_where_all, stand_where_one};

use crate::client::ClientState;
use crate::sleeper::Sleeper;
use lr_limits::MOST_CLIENTS;
use lr_machine::{Event, Shown, ThreadId};
use lr_names::{Channel, Push};
use lr_objects::{Op, Reply};
use lr_waiting::{Asking, Order, Stand, WatchKey};
use std::alloc::{AllocError, Global};
use std::marker::Model;

/// The clients of a schedule, by their numbers from 1 to 64. Each step touches one of them.
#[derive(Drop)]
pub struct ClientTable {
    rows: Vec<ClientState>,
}

impl Model for ClientTable {
    ghost use Rattle.std.specs.Prelude.{◌≡◌, List, length};
    ghost use Rattle.lr_limits.specs.Limits.{client_limit};
    ghost use Rattle.lr_clients.specs.Client.{ClientValue};

    ghost Value = { List ClientValue };

    ghost view = { λ t. t.rows.items };

    ghost invariant = { λ t. length t.rows.items ≡ client_limit };
}

impl ClientTable {
    /// All clients, before their first requests.
    pub fn new(alloc: Global) -> Result<Self, AllocError>
        ensures { IfOk result (λ clients. clients_of clients ≡ first_client) }
    {
        let mut rows = Vec::with_capacity(alloc, MOST_CLIENTS as usize)?;
        for before in 0..MOST_CLIENTS {
            rows.push_reserved(ClientState::new(alloc, before + 1)?);
        }
        Ok(ClientTable { rows })
    }

    /// Makes a step of a thread, or one of a renewal: what is shown and the clients afterwards are
    /// those of the step table. It looks at that client alone. An error changes nothing.
    pub fn step(&mut self, client: u32, moment: u64, event: &Event) -> Result<Shown, AllocError>
        requires alone { client_alone event.now ≡ Some client }
        requires within { IsWithin event.now }
        requires begins { MayBegin event.now }
        requires early { moment ≤ last_moment }
        ensures shown { IfOk result (λ shown. shown
            ≡ shown_by moment event.now (clients_of self.old client)) }
        ensures next { let clients = clients_of self.old in OnOk result (clients_of self.new
            ≡ clients_after clients client (row_by moment event.now (clients client))) }
        ensures err { OnErr result (clients_of self.new ≡ clients_of self.old) }
    {
        self.rows[(client - 1) as usize].step(moment, event)
    }

    /// Whether a client was cut off.
    pub fn is_cut(&self, client: u32) -> bool
        requires { IsClient client }
        ensures { result ≡ (clients_of self.now client).session.is_cut }
    {
        self.rows[(client - 1) as usize].is_cut()
    }

    /// What is shown where a step of a thread doesn't apply.
    pub fn not_now(&self, id: ThreadId) -> Shown
        requires client { IsClient id.client }
        requires thread { IsThread id.thread }
        ensures { result ≡ shows.No (found_in (clients_of self.now id.client) id.thread) }
    {
        self.rows[(id.client - 1) as usize].not_now(id.thread)
    }

    /// The call that a thread has sent and the server hasn't run.
    pub fn asked(&self, id: ThreadId) -> Option<Asking>
        requires client { IsClient id.client }
        requires thread { IsThread id.thread }
        ensures { let client = clients_of self.now id.client in
            result ≡ unless_cut client (asked_of client id.thread) }
    {
        self.rows[(id.client - 1) as usize].asked(id.thread)
    }

    /// From now on a reply waits for a thread. It takes no memory.
    pub fn answer(&mut self, id: ThreadId, reply: Reply)
        requires client { IsClient id.client }
        requires thread { IsThread id.thread }
        ensures { let clients = clients_of self.old in clients_of self.new
            ≡ put ◌==◌ clients id.client
            (with_reply id.thread (Some reply) (clients id.client)) }
    {
        self.rows[(id.client - 1) as usize].answer(id.thread, reply);
    }

    /// The call by which the server is to renew a hold of a client: `None` where the client hasn't
    /// asked for it, and where the server has executed it.
    pub fn renewal(&self, client: u32, key: &WatchKey) -> Option<Op>
        requires { IsClient client }
        ensures { result ≡ renewal_in (clients_of self.now client) key.now }
    {
        self.rows[(client - 1) as usize].renewal(key)
    }

    /// Takes the memory that the reply to a renewal of a client needs. An error changes nothing.
    pub fn reserve_renewed(&mut self, client: u32) -> Result<(), AllocError>
        requires { IsClient client }
        ensures ok { OnOk result (0 < renewed_room_at self.new client) }
        ensures same { clients_of self.new ≡ clients_of self.old }
    {
        self.rows[(client - 1) as usize].reserve_renewed()
    }

    /// From now on a reply waits for the renewal of a hold of a client, which has the memory for it.
    pub fn answer_renewal(&mut self, client: u32, key: &WatchKey, reply: Reply)
        requires client { IsClient client }
        requires room { 0 < renewed_room_at self.old client }
        ensures { let clients = clients_of self.old in clients_of self.new
            ≡ put ◌==◌ clients client (with_renewed key.now (Some reply) (clients client)) }
    {
        self.rows[(client - 1) as usize].answer_renewal(key, reply);
    }

    /// The order of a client that waits longest for the server.
    pub fn first_order(&self, client: u32) -> Option<Order>
        requires { IsClient client }
        ensures { let found = clients_of self.now client in
            result ≡ unless_cut found (first_order_of found.session.latches) }
    {
        self.rows[(client - 1) as usize].first_order()
    }

    /// That order is on its way. It takes no memory.
    pub fn take_order(&mut self, client: u32)
        requires { IsClient client }
        ensures { let clients = clients_of self.old in clients_of self.new
            ≡ clients_after clients client
            (client_row (λ session. Some (order_taken session)) (clients client)) }
    {
        self.rows[(client - 1) as usize].take_order();
    }

    /// A client was cut off: what it knew is lost. It takes no memory.
    pub fn cut(&mut self, client: u32)
        requires { IsClient client }
        ensures { let clients = clients_of self.old in clients_of self.new
            ≡ put ◌==◌ clients client (cut_client (clients client)) }
    {
        self.rows[(client - 1) as usize].cut();
    }

    /// Takes the memory that the next item of a client needs. An error changes nothing.
    pub fn reserve(&mut self, client: u32) -> Result<(), AllocError>
        requires { IsClient client }
        ensures ok { OnOk result (thread_limit ≤ room_at self.new client) }
        ensures same { clients_of self.new ≡ clients_of self.old }
    {
        self.rows[(client - 1) as usize].reserve()
    }

    /// A client that isn't cut off takes an item that the server has sent it, for which it has the
    /// memory.
    pub fn push(&mut self, client: u32, item: &Push) -> Shown
        requires client { IsClient client }
        requires uncut { (clients_of self.old client).session.is_cut ≡ false }
        requires room { thread_limit ≤ room_at self.old client }
        ensures shown { result ≡ shown_item (clients_of self.old client).session item.now }
        ensures next { let clients = clients_of self.old in clients_of self.new
            ≡ clients_after clients client
            (client_row (λ session. Some (pushed item.now session)) (clients client)) }
    {
        self.rows[(client - 1) as usize].push(item)
    }

    /// A thread that sleeps, with what it waits for: `None` where it doesn't sleep.
    pub fn asleep(&self, client: u32, thread: u32) -> Option<Sleeper>
        requires { IsClient client }
        ensures value { result ≡ sleeper_of (clients_of self.now client) thread }
        ensures channel { IfSome result (λ sleeper. sleeper.channel
            ≡ channel_for sleeper.owner sleeper.want) }
        ensures amount { IfSome result (λ sleeper.
            HasAmount (arguments_of sleeper.want.function) sleeper.want) }
    {
        self.rows[(client - 1) as usize].asleep(thread)
    }

    /// What stands for the threads of a client that sleep on a channel whose messages wake one,
    /// where it is known whether a message is in flight. It looks at all threads of the client.
    pub fn stand_of_one(&self, client: u32, channel: &Channel, in_flight: bool) -> Stand
        requires { IsClient client }
        ensures { result ≡ stand_where_one in_flight channel.now (clients_of self.now client) }
    {
        self.rows[(client - 1) as usize].stand_of_one(channel, in_flight)
    }

    /// What stands for a thread of a client that sleeps on a channel whose messages wake all, where
    /// it is known whether its call would be refused, and whether a message is in flight.
    pub fn stand_of_all(&self, client: u32, sleeper: &Sleeper, held: bool, in_flight: bool) -> Stand
        requires { IsClient client }
        ensures { result
            ≡ stand_where_all held in_flight sleeper.now (clients_of self.now client) }
    {
        self.rows[(client - 1) as usize].stand_of_all(sleeper, held, in_flight)
    }
}
