//! The connections of a client, and the numbers under which it calls.
ghost use Rattle.std.specs.Prelude.{◌≡◌};
ghost use Rattle.lr_machine.specs.Clients.{caller_of, client_caller, command_connection, subscription_connection};
ghost use Rattle.lr_machine.specs.Within.{IsClient};

use lr_machine::ThreadId;

/// The connection on which a client sends calls.
pub(crate) fn command_connection(client: u32) -> u32
    requires { IsClient client }
    ensures { result ≡ command_connection client }
{
    2 * client - 1
}

/// The connection on which a client gets messages.
pub(crate) fn subscription_connection(client: u32) -> u32
    requires { IsClient client }
    ensures { result ≡ subscription_connection client }
{
    2 * client
}

/// The number under which a thread calls.
pub(crate) fn caller(id: ThreadId) -> u64
    ensures { result ≡ caller_of id.client id.thread }
{
    1000 * u64::from(id.client) + u64::from(id.thread)
}

/// The number under which a client does what none of its threads does.
pub(crate) fn client_caller(client: u32) -> u64
    ensures { result ≡ client_caller client }
{
    1000 * u64::from(client)
}
