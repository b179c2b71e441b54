//! Clients that are cut off.
ghost use Rattle.std.specs.Prelude.{◌≡◌, ◌≤◌, [], ◌∷◌, map};
ghost use Rattle.lr_limits.specs.Limits.{last_moment};
ghost use Rattle.lr_model.specs.History.{after};
ghost use Rattle.lr_machine.specs.Clients.{client_at};
ghost use Rattle.lr_machine.specs.World.{first_state, with_cut};
ghost use Rattle.lr_world.specs.Cuts.{AreOpen, IsOpen};
ghost use Rattle.lr_world.specs.World.{world_with};

use crate::numbers::{client_caller, command_connection, subscription_connection};
use lr_clients::ClientTable;
use lr_machine::client_at;
use lr_server::ServerState;

/// Cuts a client off: its two connections are closed, that for its calls first, and what it knew is
/// lost. It takes no memory.
pub(crate) fn cut_client(
    server: &mut ServerState,
    clients: &mut ClientTable,
    moment: u64,
    client: u32,
)
    requires first { server.old.last ≡ 128 }
    requires opened { IsOpen (after first_state server.old.entries).board client }
    requires in_time { (after first_state server.old.entries).moment ≤ moment }
    requires early { moment ≤ last_moment }
    ensures world { world_with server.new.entries moment clients.new
        ≡ with_cut (client ∷ []) (world_with server.old.entries moment clients.old) }
    ensures last { server.new.last ≡ server.old.last }
{
    let caller = client_caller(client);
    server.close(moment, caller, command_connection(client));
    server.close(moment, caller, subscription_connection(client));
    clients.cut(client);
}

/// Cuts the clients of these connections off, one after the other. It takes no memory.
pub(crate) fn cut_all(
    server: &mut ServerState,
    clients: &mut ClientTable,
    moment: u64,
    connections: &[u32],
)
    requires first { server.old.last ≡ 128 }
    requires opened { AreOpen (after first_state server.old.entries).board
        (map client_at connections.now) }
    requires in_time { (after first_state server.old.entries).moment ≤ moment }
    requires early { moment ≤ last_moment }
    ensures world { world_with server.new.entries moment clients.new
        ≡ with_cut (map client_at connections.now)
        (world_with server.old.entries moment clients.old) }
    ensures last { server.new.last ≡ server.old.last }
{
    for connection in connections {
        cut_client(server, clients, moment, client_at(*connection));
    }
}
