ghost use Rattle.std.specs.Prelude.{◌≡◌, length, IfOk, IfErr};
ghost use Rattle.std.specs.Fmt.{signed_decimal};
ghost use Rattle.lr_requests.specs.Command.{look_arity, Allows};
ghost use Rattle.lr_requests.specs.Look.{AsksLook};
ghost use Rattle.lr_requests.specs.Places.{IsPlace, IsPlaceText};
ghost use Rattle.lr_requests.specs.Refusal.{IsLookFault};

use crate::fault::CommandFault;
use crate::look_command::{LookCommand, RangeCommand};
use crate::places::read_place;
use lr_commands::Look;
use lr_frames::Words;
use lr_text::Text;
use std::alloc::Global;

/// Reads the arguments of a look, of which there are as many as it has.
pub fn read_look(
    alloc: Global,
    command: LookCommand,
    arguments: &Words<'_>,
) -> Result<Look, CommandFault>
    requires { Allows (look_arity command) (length arguments.now) }
    ensures look { IfOk result (AsksLook command arguments.now) }
    ensures fault { IfErr result (λ fault. IsLookFault fault command arguments.now) }
{
    match command {
        LookCommand::OfKey(command) => {
            let key = text_of(alloc, arguments.word(0))?;
            Ok(command.look(key))
        }
        LookCommand::OfItem(command) => {
            let key = text_of(alloc, arguments.word(0))?;
            let item = text_of(alloc, arguments.word(1))?;
            Ok(command.look(key, item))
        }
        LookCommand::OfRange(command) => read_range(alloc, command, arguments),
    }
}

// The places before the key, so that words that are no places cost no memory.
fn read_range(
    alloc: Global,
    command: RangeCommand,
    arguments: &Words<'_>,
) -> Result<Look, CommandFault>
    requires { length arguments.now ≡ 3 }
    ensures look { IfOk result (AsksLook (LookCommand.OfRange command) arguments.now) }
    ensures fault { IfErr result (λ fault.
        IsLookFault fault (LookCommand.OfRange command) arguments.now) }
{
    let start = place_of(arguments.word(1))?;
    let stop = place_of(arguments.word(2))?;
    let key = text_of(alloc, arguments.word(0))?;
    Ok(command.look(key, start, stop))
}

fn place_of(word: &[u8]) -> Result<i64, CommandFault>
    ensures text { IfOk result (λ place. word.now ≡ signed_decimal place) }
    ensures place { IfOk result IsPlace }
    ensures fault { IfErr result (λ fault. (fault ≡ CommandFault.BadNumber)
        × ¬ (IsPlaceText word.now)) }
{
    read_place(word).ok_or(CommandFault::BadNumber)
}

/// A copy of a word.
pub fn text_of(alloc: Global, word: &[u8]) -> Result<Text, CommandFault>
    ensures text { IfOk result (λ text. text ≡ word.now) }
    ensures fault { IfErr result (λ fault. fault ≡ CommandFault.NoMemory) }
{
    match Text::of(alloc, word) {
        Ok(text) => Ok(text),
        Err(_) => Err(CommandFault::NoMemory),
    }
}
