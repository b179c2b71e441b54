ghost use Rattle.std.specs.Prelude.{IfOk, IfErr, drop};
ghost use Rattle.lr_frames.specs.Words.{word_at};
ghost use Rattle.lr_requests.specs.Frame.{FrameAsks, IsFrameFault, WordsAsk};
ghost use Rattle.lr_requests.specs.Refusal.{IsWordsFault};

use crate::command::Command;
use crate::fault::CommandFault;
use crate::read::read_arguments;
use crate::write_command::WriteCommand;
use lr_commands::Request;
use lr_frames::Words;
use lr_resp::Frame;
use std::alloc::Global;

/// What a frame asks for. It is the one request whose command and arguments stand in the frame.
///
/// A fault is the first that fits, in the order of [`CommandFault`], and then the frame asks for
/// nothing; but `NoMemory` says no more than that the frame is an array of bulk strings with a
/// known command.
pub fn parse(alloc: Global, frame: &Frame) -> Result<Request, CommandFault>
    ensures request { IfOk result (FrameAsks frame.now) }
    ensures fault { IfErr result (λ fault. IsFrameFault fault frame.now) }
{
    match Words::of(frame) {
        Some(words) => read_words(alloc, &words),
        None => Err(CommandFault::NotARequest),
    }
}

fn read_words(alloc: Global, words: &Words<'_>) -> Result<Request, CommandFault>
    ensures request { IfOk result (WordsAsk (word_at words.now 0) (drop 1 words.now)) }
    ensures fault { IfErr result (λ fault.
        IsWordsFault fault (word_at words.now 0) (drop 1 words.now)) }
{
    let word = words.word(0);
    if WriteCommand::of_word(word).is_some() {
        return Err(CommandFault::NotWritable);
    }
    let Some(command) = Command::of_word(word) else {
        return Err(CommandFault::UnknownCommand);
    };
    let arguments = words.behind(1);
    if !command.arity().allows(arguments.len()) {
        return Err(CommandFault::WrongArguments);
    }
    read_arguments(alloc, command, &arguments)
}
