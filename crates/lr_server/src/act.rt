//! The act that a request asks for.
ghost use Rattle.std.specs.Prelude.{◌≡◌, Some, IsTrue, IsSome};
ghost use Rattle.lr_server.specs.Server.{act_of, is_asked};

use lr_commands::Request;
use lr_history::Act;

/// The act of a request that is one step.
pub(crate) fn act_of(request: &Request) -> Act
    requires { IsSome (act_of request.now) }
    ensures act { act_of request.now ≡ Some result }
    ensures asked { IsTrue (is_asked result) }
{
    match request {
        Request::Call(op) => Act::Call(*op),
        Request::Subscribe(channels) => Act::Subscribe(channels.as_slice()[0]),
        Request::Unsubscribe(channels) => Act::Unsubscribe(channels.as_slice()[0]),
        Request::Look(_) | Request::Ping(_) => unreachable!(),
        Request::UnsubscribeAll | Request::Quit => unreachable!(),
    }
}
