//! What stands for the threads that sleep.
ghost use Rattle.std.specs.Prelude.{◌≡◌, ◌≤◌, ◌+◌, ◌++◌, nat_lt, IfOk, OnOk};
ghost use Rattle.lr_limits.specs.Limits.{last_moment, thread_limit};
ghost use Rattle.lr_model.specs.Board.{numbers_below};
ghost use Rattle.lr_model.specs.History.{after};
ghost use Rattle.lr_machine.specs.Shown.{stand_in, standings_in, standings_of};
ghost use Rattle.lr_machine.specs.Within.{IsClient};
ghost use Rattle.lr_machine.specs.World.{first_state};
ghost use Rattle.lr_world.specs.World.{world_with};

use crate::numbers::subscription_connection;
use lr_clients::ClientTable;
use lr_limits::{MOST_CLIENTS, MOST_THREADS};
use lr_machine::Standings;
use lr_names::Wakes;
use lr_server::ServerState;
use lr_waiting::{Stand, Standing};
use std::alloc::{AllocError, Global};

/// What stands at a moment for each thread that sleeps, in order of clients, and then of threads.
pub(crate) fn standings(
    alloc: Global,
    server: &ServerState,
    clients: &ClientTable,
    moment: u64,
) -> Result<Standings, AllocError>
    requires first { server.now.last ≡ 128 }
    requires in_time { (after first_state server.now.entries).moment ≤ moment }
    requires early { moment ≤ last_moment }
    ensures { IfOk result (λ standings. standings
        ≡ standings_of (world_with server.now.entries moment clients.now)) }
{
    let mut standings = Standings::new(alloc);
    for before in 0..MOST_CLIENTS {
        push_client(&mut standings, server, clients, moment, before + 1)?;
    }
    Ok(standings)
}

// Appends what stands for the threads of a client that sleep.
fn push_client(
    standings: &mut Standings,
    server: &ServerState,
    clients: &ClientTable,
    moment: u64,
    client: u32,
) -> Result<(), AllocError>
    requires client { IsClient client }
    requires first { server.now.last ≡ 128 }
    requires in_time { (after first_state server.now.entries).moment ≤ moment }
    requires early { moment ≤ last_moment }
    ensures { OnOk result (standings.new
        ≡ standings.old ++ standings_in (world_with server.now.entries moment clients.now) client
        (numbers_below (thread_limit + 1) (nat_lt 0))) }
{
    for before in 0..MOST_THREADS {
        let thread = before + 1;
        if let Some(stand) = stand(server, clients, moment, client, thread) {
            standings.push(Standing {
                client,
                thread,
                stand,
            })?;
        }
    }
    Ok(())
}

// What stands for a thread, where it sleeps.
fn stand(
    server: &ServerState,
    clients: &ClientTable,
    moment: u64,
    client: u32,
    thread: u32,
) -> Option<Stand>
    requires client { IsClient client }
    requires first { server.now.last ≡ 128 }
    requires in_time { (after first_state server.now.entries).moment ≤ moment }
    requires early { moment ≤ last_moment }
    ensures { result ≡ stand_in (world_with server.now.entries moment clients.now) client thread }
{
    let Some(sleeper) = clients.asleep(client, thread) else {
        return None;
    };
    let in_flight = server.in_flight(subscription_connection(client), &sleeper.channel);
    match sleeper.channel.wakes() {
        Wakes::One => Some(clients.stand_of_one(client, &sleeper.channel, in_flight)),
        Wakes::All => {
            let held = server.would_wait(moment, &sleeper.want, &sleeper.owner);
            Some(clients.stand_of_all(client, &sleeper, held, in_flight))
        }
    }
}
