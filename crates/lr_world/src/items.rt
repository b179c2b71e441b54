//! The items that the server sends a client.
ghost use Rattle.std.specs.Prelude.{◌≡◌, ◌<◌, ◌≤◌, length, slice_get, IfOk, OnOk, OnErr};
ghost use Rattle.lr_limits.specs.Limits.{entry_limit, last_moment};
ghost use Rattle.lr_model.specs.History.{after};
ghost use Rattle.lr_machine.specs.declared.shown.Found.TheVariants as found;
ghost use Rattle.lr_machine.specs.Shown.{found_for, shown_item, shown_of};
ghost use Rattle.lr_machine.specs.Sound.{IsConnected, IsInOrder};
ghost use Rattle.lr_machine.specs.Within.{IsClient};
ghost use Rattle.lr_machine.specs.World.{first_state, item_for, next_item};
ghost use Rattle.lr_clients.specs.Client.{clients_of};
ghost use Rattle.lr_world.specs.Steps.{heard_on, with_item};
ghost use Rattle.lr_world.specs.World.{world_with};

use crate::call::no_memory;
use crate::numbers::{client_caller, subscription_connection};
use lr_clients::ClientTable;
use lr_machine::{Found, Shown};
use lr_names::Push;
use lr_server::ServerState;
use lr_waiting::Phase;
use std::alloc::AllocError;

/// A client takes the oldest item that the server has sent it. After an error the world is the
/// same.
pub(crate) fn push(
    server: &mut ServerState,
    clients: &mut ClientTable,
    moment: u64,
    client: u32,
) -> Result<Shown, AllocError>
    requires client { IsClient client }
    requires first { server.old.last ≡ 128 }
    requires in_order { IsInOrder (world_with server.old.entries moment clients.old) }
    requires room { length server.old.entries < entry_limit }
    requires early { moment ≤ last_moment }
    ensures shown { let world = world_with server.old.entries moment clients.old in
        IfOk result (λ shown. shown
        ≡ shown_of (shown_item (clients_of clients.old client).session) (item_for world client)
        (found_for (clients_of clients.old client) found.Pushes)) }
    ensures next { let world = world_with server.old.entries moment clients.old in
        OnOk result (world_with server.new.entries moment clients.new
        ≡ next_item world client (item_for world client)) }
    ensures last { server.new.last ≡ server.old.last }
    ensures server_err { OnErr result (server.new ≡ server.old) }
    ensures clients_err { OnErr result (clients_of clients.new ≡ clients_of clients.old) }
{
    if clients.is_cut(client) {
        return Ok(Shown::No(Found::Phase(Phase::Cut)));
    }
    clients.reserve(client)?;
    match take_item(server, moment, client)? {
        Some(item) => Ok(clients.push(client, &item)),
        None => Ok(Shown::No(Found::Pushes)),
    }
}

// Takes the oldest item that waits for a client. An error changes nothing.
fn take_item(server: &mut ServerState, moment: u64, client: u32) -> Result<Option<Push>, AllocError>
    requires client { IsClient client }
    requires first { server.old.last ≡ 128 }
    requires connected { IsConnected (after first_state server.old.entries).board client }
    requires in_time { (after first_state server.old.entries).moment ≤ moment }
    requires room { length server.old.entries < entry_limit }
    requires early { moment ≤ last_moment }
    ensures item { IfOk result (λ item. item
        ≡ slice_get (heard_on server.old.entries client).outbox 0) }
    ensures entry { OnOk result (server.new ≡ with_item server.old moment client
        (slice_get (heard_on server.old.entries client).outbox 0)) }
    ensures err { OnErr result (server.new ≡ server.old) }
{
    let connection = subscription_connection(client);
    match server.drain(moment, client_caller(client), connection, 1) {
        Ok(items) => Ok(items.as_slice().first().copied()),
        Err(fault) => Err(no_memory(fault)),
    }
}
