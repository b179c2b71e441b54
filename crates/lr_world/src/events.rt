//! What the server does for a thread, a watchdog or an operator, and the end of a client.
ghost use Rattle.std.specs.Prelude.{◌≡◌, ◌<◌, ◌≤◌, length, map, IfOk, OnOk, OnErr};
ghost use Rattle.lr_limits.specs.Limits.{entry_limit, last_moment};
ghost use Rattle.lr_names.specs.Owner.{IsThread};
ghost use Rattle.lr_model.specs.History.{after};
ghost use Rattle.lr_machine.specs.declared.shown.Shown.TheVariants as shows;
ghost use Rattle.lr_machine.specs.Clients.{client_at, operator, operator_connection};
ghost use Rattle.lr_machine.specs.Shown.{found_at, shown_call, shown_cut, shown_exec, shown_renew};
ghost use Rattle.lr_machine.specs.Sound.{IsInOrder};
ghost use Rattle.lr_machine.specs.Within.{IsClient};
ghost use Rattle.lr_machine.specs.World.{asking_of, first_state, force_of, next_cut, next_exec, next_renewal, renewing_in, with_call, with_cut};
ghost use Rattle.lr_clients.specs.Client.{clients_of};
ghost use Rattle.lr_world.specs.Cuts.{AreOpen};
ghost use Rattle.lr_world.specs.World.{world_with};

use crate::call::{Called, call};
use crate::cuts::{cut_all, cut_client};
use crate::numbers::{caller, client_caller, command_connection};
use crate::orders::found_for;
use lr_clients::ClientTable;
use lr_machine::{Clients, Found, Replied, Shown, ThreadId};
use lr_names::Name;
use lr_objects::{Call, LockCall, Op};
use lr_server::ServerState;
use lr_waiting::{Phase, WatchKey};
use std::alloc::AllocError;

/// The number under which an operator calls, and its connection.
const OPERATOR: u64 = 0;

const OPERATOR_CONNECTION: u32 = 0;

/// The server executes the call that a thread has sent. An error changes nothing.
pub(crate) fn exec(
    server: &mut ServerState,
    clients: &mut ClientTable,
    moment: u64,
    id: ThreadId,
) -> Result<Shown, AllocError>
    requires client { IsClient id.client }
    requires thread { IsThread id.thread }
    requires first { server.old.last ≡ 128 }
    requires in_order { IsInOrder (world_with server.old.entries moment clients.old) }
    requires room { length server.old.entries < entry_limit }
    requires early { moment ≤ last_moment }
    ensures shown { let world = world_with server.old.entries moment clients.old in
        IfOk result (λ shown. shown ≡ shown_exec world (asking_of world id.client id.thread)
        (found_at world id.client id.thread)) }
    ensures next { let world = world_with server.old.entries moment clients.old in
        OnOk result (world_with server.new.entries moment clients.new
        ≡ next_exec world id.client id.thread (asking_of world id.client id.thread)) }
    ensures last { server.new.last ≡ server.old.last }
    ensures server_err { OnErr result (server.new ≡ server.old) }
    ensures clients_err { OnErr result (clients.new ≡ clients.old) }
{
    let Some(asking) = clients.asked(id) else {
        return Ok(clients.not_now(id));
    };
    let connection = command_connection(id.client);
    let called = call(server, moment, caller(id), connection, &asking.op)?;
    clients.answer(id, called.reply);
    Ok(cut_dropped(server, clients, moment, called))
}

/// The server executes the renewal of a hold that a client has asked for. After an error the world
/// is the same.
pub(crate) fn renew(
    server: &mut ServerState,
    clients: &mut ClientTable,
    moment: u64,
    client: u32,
    key: &WatchKey,
) -> Result<Shown, AllocError>
    requires client { IsClient client }
    requires first { server.old.last ≡ 128 }
    requires in_order { IsInOrder (world_with server.old.entries moment clients.old) }
    requires room { length server.old.entries < entry_limit }
    requires early { moment ≤ last_moment }
    ensures shown { let world = world_with server.old.entries moment clients.old in
        IfOk result (λ shown. shown
        ≡ shown_renew world client key.now (renewing_in world client key.now)) }
    ensures next { let world = world_with server.old.entries moment clients.old in
        OnOk result (world_with server.new.entries moment clients.new
        ≡ next_renewal world client key.now (renewing_in world client key.now)) }
    ensures last { server.new.last ≡ server.old.last }
    ensures server_err { OnErr result (server.new ≡ server.old) }
    ensures clients_err { OnErr result (clients_of clients.new ≡ clients_of clients.old) }
{
    let Some(op) = clients.renewal(client, key) else {
        return Ok(Shown::No(found_for(clients, client, Found::Renewal)));
    };
    clients.reserve_renewed(client)?;
    let connection = command_connection(client);
    let called = call(server, moment, client_caller(client), connection, &op)?;
    clients.answer_renewal(client, key, called.reply);
    Ok(cut_dropped(server, clients, moment, called))
}

/// An operator takes a lock away from whoever holds it. An error changes nothing.
pub(crate) fn force(
    server: &mut ServerState,
    clients: &mut ClientTable,
    moment: u64,
    name: Name,
) -> Result<Shown, AllocError>
    requires first { server.old.last ≡ 128 }
    requires in_order { IsInOrder (world_with server.old.entries moment clients.old) }
    requires room { length server.old.entries < entry_limit }
    requires early { moment ≤ last_moment }
    ensures shown { let world = world_with server.old.entries moment clients.old in
        IfOk result (λ shown. shown ≡ shown_call world (force_of name)) }
    ensures next { let world = world_with server.old.entries moment clients.old in
        OnOk result (world_with server.new.entries moment clients.new
        ≡ with_call operator operator_connection (force_of name) world) }
    ensures last { server.new.last ≡ server.old.last }
    ensures server_err { OnErr result (server.new ≡ server.old) }
    ensures clients_err { OnErr result (clients.new ≡ clients.old) }
{
    let op = Op {
        name,
        call: Call::Lock(LockCall::Force),
    };
    let called = call(server, moment, OPERATOR, OPERATOR_CONNECTION, &op)?;
    Ok(cut_dropped(server, clients, moment, called))
}

// The clients that read too slowly for the message of a call are cut off.
fn cut_dropped(
    server: &mut ServerState,
    clients: &mut ClientTable,
    moment: u64,
    called: Called,
) -> Shown
    requires first { server.old.last ≡ 128 }
    requires opened { AreOpen (after first_state server.old.entries).board
        (map client_at called.dropped) }
    requires in_time { (after first_state server.old.entries).moment ≤ moment }
    requires early { moment ≤ last_moment }
    ensures shown { result ≡ shows.Replied (record {
      reply = called.reply;
      post = called.post;
      cut = map client_at called.dropped;
    }) }
    ensures world { world_with server.new.entries moment clients.new
        ≡ with_cut (map client_at called.dropped)
        (world_with server.old.entries moment clients.old) }
    ensures last { server.new.last ≡ server.old.last }
{
    let Called {
        reply,
        post,
        dropped,
    } = called;
    cut_all(server, clients, moment, dropped.as_slice());
    Shown::Replied(Replied {
        reply,
        post,
        cut: Clients::of_connections(dropped.into_numbers()),
    })
}

/// A client is cut off, unless it was before.
pub(crate) fn cut(
    server: &mut ServerState,
    clients: &mut ClientTable,
    moment: u64,
    client: u32,
) -> Shown
    requires client { IsClient client }
    requires first { server.old.last ≡ 128 }
    requires in_order { IsInOrder (world_with server.old.entries moment clients.old) }
    requires early { moment ≤ last_moment }
    ensures shown { result ≡ shown_cut (clients_of clients.old client) }
    ensures next { world_with server.new.entries moment clients.new
        ≡ next_cut (world_with server.old.entries moment clients.old) client }
    ensures last { server.new.last ≡ server.old.last }
{
    if clients.is_cut(client) {
        return Shown::No(Found::Phase(Phase::Cut));
    }
    cut_client(server, clients, moment, client);
    Shown::Cut
}
