ghost use Rattle.std.specs.Prelude.{◌≡◌, IsNone, IfSome};
ghost use Rattle.lr_text.specs.WordTable.{with_word};
ghost use Rattle.lr_requests.specs.Case.{lower};
ghost use Rattle.lr_requests.specs.Command.{command_word, arity_of, IsWordOf};

use crate::arity::Arity;
use crate::case::is_one_word;
use crate::look_command::{ItemCommand, KeyCommand, LookCommand, RangeCommand};

/// The commands that a connection may use.
#[derive(Clone, Copy, Debug, PartialEq, Eq)]
pub enum Command {
    /// `FCALL`: runs a function on an object.
    Call,
    /// Looks at a key.
    Look(LookCommand),
    /// `SUBSCRIBE`: adds channels to the connection's.
    Subscribe,
    /// `UNSUBSCRIBE`: takes channels from the connection's, or all of them.
    Unsubscribe,
    /// `PING`: asks for an answer.
    Ping,
    /// `QUIT`: ends the connection.
    Quit,
}

impl Command {
    /// All commands.
    pub const ALL: [Command; 17] = [
        Command::Call,
        Command::Look(LookCommand::OfKey(KeyCommand::Exists)),
        Command::Look(LookCommand::OfKey(KeyCommand::Type)),
        Command::Look(LookCommand::OfKey(KeyCommand::TimeLeft)),
        Command::Look(LookCommand::OfKey(KeyCommand::Get)),
        Command::Look(LookCommand::OfKey(KeyCommand::HashGetAll)),
        Command::Look(LookCommand::OfKey(KeyCommand::ListLength)),
        Command::Look(LookCommand::OfKey(KeyCommand::SortedCount)),
        Command::Look(LookCommand::OfItem(ItemCommand::HashGet)),
        Command::Look(LookCommand::OfItem(ItemCommand::HashExists)),
        Command::Look(LookCommand::OfItem(ItemCommand::SortedScore)),
        Command::Look(LookCommand::OfRange(RangeCommand::ListRange)),
        Command::Look(LookCommand::OfRange(RangeCommand::SortedRange)),
        Command::Subscribe,
        Command::Unsubscribe,
        Command::Ping,
        Command::Quit,
    ];

    /// The word of the command, in capital letters.
    pub fn word(self) -> &'static [u8]
        ensures { result.now ≡ command_word self }
    {
        match self {
            Command::Call => b"FCALL",
            Command::Look(command) => command.word(),
            Command::Subscribe => b"SUBSCRIBE",
            Command::Unsubscribe => b"UNSUBSCRIBE",
            Command::Ping => b"PING",
            Command::Quit => b"QUIT",
        }
    }

    /// The command with this word in any case: `None` exactly where no command has it.
    pub fn of_word(word: &[u8]) -> Option<Command>
        ensures some { IfSome result (λ command. IsWordOf command word.now) }
        ensures none { IsNone result → (command : Command) → ¬ (IsWordOf command word.now) }
    {
        Command::search(word)
    }

    fn search(word: &[u8]) -> Option<Command>
        ensures { result ≡ with_word (λ command. lower (command_word command)) Self.ALL
            (lower word.now) }
    {
        Command::ALL
            .iter()
            .copied()
            .find(|command| is_one_word(command.word(), word))
    }

    /// How many arguments the command has.
    pub fn arity(self) -> Arity
        ensures { result ≡ arity_of self }
    {
        match self {
            Command::Call => Arity::AtLeast(2),
            Command::Look(command) => command.arity(),
            Command::Subscribe => Arity::AtLeast(1),
            Command::Unsubscribe => Arity::AtLeast(0),
            Command::Ping => Arity::AtMost(1),
            Command::Quit => Arity::Exactly(0),
        }
    }
}
