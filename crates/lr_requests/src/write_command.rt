ghost use Rattle.std.specs.Prelude.{◌≡◌, IsNone, IfSome};
ghost use Rattle.lr_text.specs.WordTable.{with_word};
ghost use Rattle.lr_requests.specs.Case.{lower};
ghost use Rattle.lr_requests.specs.Command.{write_word, IsWriteWordOf};

use crate::case::is_one_word;

/// Commands of Redis that write. They are known, so that they can be refused as what they are: only
/// functions write here.
#[derive(Clone, Copy, Debug, PartialEq, Eq)]
pub enum WriteCommand {
    /// `SET`.
    Set,
    /// `DEL`.
    Delete,
    /// `HSET`.
    HashSet,
    /// `HDEL`.
    HashDelete,
    /// `HINCRBY`.
    HashIncrement,
    /// `LPUSH`.
    ListPushFront,
    /// `RPUSH`.
    ListPushBack,
    /// `LREM`.
    ListRemove,
    /// `ZADD`.
    SortedAdd,
    /// `ZREM`.
    SortedRemove,
    /// `INCR`.
    Increment,
    /// `INCRBY`.
    IncrementBy,
    /// `DECR`.
    Decrement,
    /// `EXPIRE`.
    Expire,
    /// `PEXPIRE`.
    ExpireMillis,
    /// `PERSIST`.
    Persist,
    /// `PUBLISH`.
    Publish,
}

impl WriteCommand {
    /// All of them.
    pub const ALL: [WriteCommand; 17] = [
        WriteCommand::Set,
        WriteCommand::Delete,
        WriteCommand::HashSet,
        WriteCommand::HashDelete,
        WriteCommand::HashIncrement,
        WriteCommand::ListPushFront,
        WriteCommand::ListPushBack,
        WriteCommand::ListRemove,
        WriteCommand::SortedAdd,
        WriteCommand::SortedRemove,
        WriteCommand::Increment,
        WriteCommand::IncrementBy,
        WriteCommand::Decrement,
        WriteCommand::Expire,
        WriteCommand::ExpireMillis,
        WriteCommand::Persist,
        WriteCommand::Publish,
    ];

    /// The word of the command, in capital letters.
    pub fn word(self) -> &'static [u8]
        ensures { result.now ≡ write_word self }
    {
        match self {
            WriteCommand::Set => b"SET",
            WriteCommand::Delete => b"DEL",
            WriteCommand::HashSet => b"HSET",
            WriteCommand::HashDelete => b"HDEL",
            WriteCommand::HashIncrement => b"HINCRBY",
            WriteCommand::ListPushFront => b"LPUSH",
            WriteCommand::ListPushBack => b"RPUSH",
            WriteCommand::ListRemove => b"LREM",
            WriteCommand::SortedAdd => b"ZADD",
            WriteCommand::SortedRemove => b"ZREM",
            WriteCommand::Increment => b"INCR",
            WriteCommand::IncrementBy => b"INCRBY",
            WriteCommand::Decrement => b"DECR",
            WriteCommand::Expire => b"EXPIRE",
            WriteCommand::ExpireMillis => b"PEXPIRE",
            WriteCommand::Persist => b"PERSIST",
            WriteCommand::Publish => b"PUBLISH",
        }
    }

    /// The command that writes with this word in any case: `None` exactly where none has it.
    pub fn of_word(word: &[u8]) -> Option<WriteCommand>
        ensures some { IfSome result (λ command. IsWriteWordOf command word.now) }
        ensures none { IsNone result → (command : WriteCommand)
            → ¬ (IsWriteWordOf command word.now) }
    {
        WriteCommand::search(word)
    }

    fn search(word: &[u8]) -> Option<WriteCommand>
        ensures { result ≡ with_word (λ command. lower (write_word command)) Self.ALL
            (lower word.now) }
    {
        WriteCommand::ALL
            .iter()
            .copied()
            .find(|command| is_one_word(command.word(), word))
    }
}
