ghost use Rattle.std.specs.Prelude.{◌≡◌, [], map};
ghost use Rattle.lr_machine.specs.Clients.{client_at};

use std::alloc::Global;
use std::marker::Model;

/// Clients of a schedule, by their connections. Contracts see the numbers of the clients.
#[derive(Drop)]
pub struct Clients {
    connections: Vec<u32>,
}

impl Model for Clients {
    ghost use Rattle.std.specs.Prelude.{ℕ, List, map};
    ghost use Rattle.lr_machine.specs.Clients.{client_at};

    ghost Value = { List ℕ };

    ghost view = { λ c. map client_at c.connections.items };
}

impl Clients {
    /// No clients. It takes no memory.
    pub fn new(alloc: Global) -> Self
        ensures { result ≡ [] }
    {
        Clients {
            connections: Vec::new(alloc),
        }
    }

    /// The clients that have these connections. It takes no memory.
    pub fn of_connections(connections: Vec<u32>) -> Self
        ensures { result ≡ map client_at connections.items }
    {
        Clients { connections }
    }

    /// A connection of each client, in order.
    pub fn connections(&self) -> &[u32]
        ensures { map client_at result.now ≡ self.now }
    {
        self.connections.as_slice()
    }
}

/// The client that has a connection.
pub fn client_at(connection: u32) -> u32
    ensures { result ≡ client_at connection }
{
    connection.div_ceil(2)
}
