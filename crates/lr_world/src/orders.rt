//! The orders of a client: to subscribe to a channel, or to leave it.
ghost use Rattle.std.specs.Prelude.{◌≡◌, ◌<◌, ◌≤◌, ℕ, length, Some, IsTrue, IfOk, OnOk, OnErr};
ghost use Rattle.lr_limits.specs.Limits.{entry_limit, last_moment};
ghost use Rattle.lr_model.specs.History.{after};
ghost use Rattle.lr_machine.specs.Clients.{subscription_connection};
ghost use Rattle.lr_machine.specs.declared.shown.Found.TheVariants as found;
ghost use Rattle.lr_machine.specs.declared.shown.Shown.TheVariants as shows;
ghost use Rattle.lr_machine.specs.Shown.{found_for, ordered_at, shown_of};
ghost use Rattle.lr_machine.specs.Sound.{IsConnected, IsInOrder};
ghost use Rattle.lr_machine.specs.Within.{IsClient};
ghost use Rattle.lr_machine.specs.World.{act_of, connection_of, first_state, next_order, order_for};
ghost use Rattle.lr_clients.specs.Client.{clients_of};
ghost use Rattle.lr_server.specs.declared.answered.Answer.TheVariants as answers;
ghost use Rattle.lr_server.specs.Server.{act_of as request_act};
ghost use Rattle.lr_server.specs.Looked.{is_step};
ghost use Rattle.lr_world.specs.Steps.{channels_sent, heard_on, with_order};
ghost use Rattle.lr_world.specs.World.{world_with};

use crate::cuts::cut_client;
use crate::numbers::{client_caller, subscription_connection};
use lr_clients::ClientTable;
use lr_commands::Channels;
use lr_machine::{Found, Ordered, Shown};
use lr_server::{Answer, Request, ServerState, StepFault};
use lr_waiting::{Order, Phase};
use std::alloc::{AllocError, Global};

/// The server gets the oldest order of a client. A client whose connection takes no more is cut
/// off. An error changes nothing.
pub(crate) fn sub(
    alloc: Global,
    server: &mut ServerState,
    clients: &mut ClientTable,
    moment: u64,
    client: u32,
) -> Result<Shown, AllocError>
    requires client { IsClient client }
    requires first { server.old.last ≡ 128 }
    requires in_order { IsInOrder (world_with server.old.entries moment clients.old) }
    requires room { length server.old.entries < entry_limit }
    requires early { moment ≤ last_moment }
    ensures shown { let world = world_with server.old.entries moment clients.old in
        IfOk result (λ shown. shown
        ≡ shown_of (λ order. shows.Ordered (ordered_at (connection_of world client) client order))
        (order_for world client) (found_for (clients_of clients.old client) found.Orders)) }
    ensures next { let world = world_with server.old.entries moment clients.old in
        OnOk result (world_with server.new.entries moment clients.new
        ≡ next_order world client (order_for world client)) }
    ensures last { server.new.last ≡ server.old.last }
    ensures server_err { OnErr result (server.new ≡ server.old) }
    ensures clients_err { OnErr result (clients.new ≡ clients.old) }
{
    let Some(order) = clients.first_order(client) else {
        return Ok(Shown::No(found_for(clients, client, Found::Orders)));
    };
    let Some(channels) = send(alloc, server, moment, client, &order)? else {
        cut_client(server, clients, moment, client);
        return Ok(Shown::Ordered(Ordered {
            order,
            channels: 0,
            cut: Some(client),
        }));
    };
    clients.take_order(client);
    Ok(Shown::Ordered(Ordered {
        order,
        channels,
        cut: None,
    }))
}

/// What is found where a client that isn't cut off has nothing.
pub(crate) fn found_for(clients: &ClientTable, client: u32, nothing: Found) -> Found
    requires { IsClient client }
    ensures { result ≡ found_for (clients_of clients.now client) nothing }
{
    if clients.is_cut(client) {
        Found::Phase(Phase::Cut)
    } else {
        nothing
    }
}

// Sends an order to the server, and gives how many channels the connection then has: `None` where
// it takes no more. An error changes nothing.
fn send(
    alloc: Global,
    server: &mut ServerState,
    moment: u64,
    client: u32,
    order: &Order,
) -> Result<Option<u32>, AllocError>
    requires client { IsClient client }
    requires first { server.old.last ≡ 128 }
    requires connected { IsConnected (after first_state server.old.entries).board client }
    requires in_time { (after first_state server.old.entries).moment ≤ moment }
    requires room { length server.old.entries < entry_limit }
    requires early { moment ≤ last_moment }
    ensures sent { IfOk result (λ channels. channels
        ≡ channels_sent order.now (heard_on server.old.entries client)) }
    ensures entry { OnOk result (server.new ≡ with_order server.old moment client order.now) }
    ensures err { OnErr result (server.new ≡ server.old) }
{
    let request = request_of(alloc, order)?;
    let connection = subscription_connection(client);
    match server.step(moment, client_caller(client), connection, &request) {
        Ok(answered) => Ok(Some(count_of(&answered.answer))),
        Err(StepFault::Dropped) => Ok(None),
        Err(StepFault::NoMemory) => Err(AllocError),
        Err(StepFault::HistoryFull) => unreachable!(),
        Err(StepFault::TooManyConnections) => unreachable!(),
    }
}

// What an order asks of the server.
fn request_of(alloc: Global, order: &Order) -> Result<Request, AllocError>
    ensures act { IfOk result (λ request. request_act request ≡ Some (act_of order.now)) }
    ensures step { IfOk result (λ request. IsTrue (is_step request)) }
{
    let mut channels = Channels::new(alloc);
    channels.push(order.channel)?;
    if order.subscribe {
        Ok(Request::Subscribe(channels))
    } else {
        Ok(Request::Unsubscribe(channels))
    }
}

// How many channels a connection has that was answered so.
fn count_of(answer: &Answer) -> u32
    requires { (count : ℕ) × (answer.now ≡ answers.Queued count) }
    ensures { answer.now ≡ answers.Queued result }
{
    match answer {
        Answer::Queued(count) => *count,
        Answer::Reply(_) | Answer::Look(_) | Answer::OnlySubscribed => unreachable!(),
    }
}
