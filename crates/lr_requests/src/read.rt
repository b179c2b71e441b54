ghost use Rattle.std.specs.Prelude.{◌≡◌, ◌≤◌, length, IfOk, IfErr};
ghost use Rattle.lr_frames.specs.OpWords.{IsSaid, fcall_words};
ghost use Rattle.lr_requests.specs.Refusal.{Fits, IsArgumentsFault, IsChannelsFault, IsFcallFault};
ghost use Rattle.lr_requests.specs.Request.{Asks, AsksUnsubscribe, AsksPing};

use crate::channel_list::read_channels;
use crate::command::Command;
use crate::fault::CommandFault;
use crate::look_words::{read_look, text_of};
use lr_commands::Request;
use lr_frames::{Words, read_call};
use lr_objects::Op;
use std::alloc::Global;

/// Reads the arguments of a command, of which there are as many as it has.
pub fn read_arguments(
    alloc: Global,
    command: Command,
    arguments: &Words<'_>,
) -> Result<Request, CommandFault>
    requires { Fits command arguments.now }
    ensures request { IfOk result (Asks command arguments.now) }
    ensures fault { IfErr result (λ fault. IsArgumentsFault fault command arguments.now) }
{
    match command {
        Command::Call => {
            let op = read_fcall(arguments)?;
            Ok(Request::Call(op))
        }
        Command::Look(command) => {
            let look = read_look(alloc, command, arguments)?;
            Ok(Request::Look(look))
        }
        Command::Subscribe => {
            let channels = read_channels(alloc, arguments)?;
            Ok(Request::Subscribe(channels))
        }
        Command::Unsubscribe => read_unsubscribe(alloc, arguments),
        Command::Ping => read_ping(alloc, arguments),
        Command::Quit => Ok(Request::Quit),
    }
}

fn read_fcall(arguments: &Words<'_>) -> Result<Op, CommandFault>
    ensures said { IfOk result IsSaid }
    ensures words { IfOk result (λ op. arguments.now ≡ fcall_words op) }
    ensures fault { IfErr result (λ fault. IsFcallFault fault arguments.now) }
{
    match read_call(arguments) {
        Ok(op) => Ok(op),
        Err(fault) => Err(CommandFault::from(fault)),
    }
}

fn read_unsubscribe(alloc: Global, arguments: &Words<'_>) -> Result<Request, CommandFault>
    ensures request { IfOk result (AsksUnsubscribe arguments.now) }
    ensures fault { IfErr result (λ fault. IsChannelsFault fault arguments.now) }
{
    if arguments.is_empty() {
        return Ok(Request::UnsubscribeAll);
    }
    let channels = read_channels(alloc, arguments)?;
    Ok(Request::Unsubscribe(channels))
}

fn read_ping(alloc: Global, arguments: &Words<'_>) -> Result<Request, CommandFault>
    requires { length arguments.now ≤ 1 }
    ensures request { IfOk result (AsksPing arguments.now) }
    ensures fault { IfErr result (λ fault. fault ≡ CommandFault.NoMemory) }
{
    if arguments.is_empty() {
        return Ok(Request::Ping(None));
    }
    let text = text_of(alloc, arguments.word(0))?;
    Ok(Request::Ping(Some(text)))
}
