ghost use Rattle.std.specs.Prelude.{◌≡◌};
ghost use Rattle.lr_requests.specs.Command.{key_word, item_word, range_word, look_word, look_arity};
ghost use Rattle.lr_requests.specs.Look.{key_look, item_look, range_look};

use crate::arity::Arity;
use lr_commands::Look;
use lr_text::Text;

/// The commands that look at a key.
#[derive(Clone, Copy, Debug, PartialEq, Eq)]
pub enum LookCommand {
    /// At the key itself, or all of it.
    OfKey(KeyCommand),
    /// At one of its fields or members.
    OfItem(ItemCommand),
    /// At a range of its places.
    OfRange(RangeCommand),
}

/// The looks that name a key and nothing else.
#[derive(Clone, Copy, Debug, PartialEq, Eq)]
pub enum KeyCommand {
    /// `EXISTS`.
    Exists,
    /// `TYPE`.
    Type,
    /// `PTTL`.
    TimeLeft,
    /// `GET`.
    Get,
    /// `HGETALL`.
    HashGetAll,
    /// `LLEN`.
    ListLength,
    /// `ZCARD`.
    SortedCount,
}

/// The looks that name a key and a field or a member.
#[derive(Clone, Copy, Debug, PartialEq, Eq)]
pub enum ItemCommand {
    /// `HGET`.
    HashGet,
    /// `HEXISTS`.
    HashExists,
    /// `ZSCORE`.
    SortedScore,
}

/// The looks that name a key and two places.
#[derive(Clone, Copy, Debug, PartialEq, Eq)]
pub enum RangeCommand {
    /// `LRANGE`.
    ListRange,
    /// `ZRANGE`.
    SortedRange,
}

impl LookCommand {
    /// The word of the command, in capital letters.
    pub fn word(self) -> &'static [u8]
        ensures { result.now ≡ look_word self }
    {
        match self {
            LookCommand::OfKey(command) => command.word(),
            LookCommand::OfItem(command) => command.word(),
            LookCommand::OfRange(command) => command.word(),
        }
    }

    /// How many arguments the command has.
    pub fn arity(self) -> Arity
        ensures { result ≡ look_arity self }
    {
        match self {
            LookCommand::OfKey(_) => Arity::Exactly(1),
            LookCommand::OfItem(_) => Arity::Exactly(2),
            LookCommand::OfRange(_) => Arity::Exactly(3),
        }
    }
}

impl KeyCommand {
    /// The word of the command, in capital letters.
    pub fn word(self) -> &'static [u8]
        ensures { result.now ≡ key_word self }
    {
        match self {
            KeyCommand::Exists => b"EXISTS",
            KeyCommand::Type => b"TYPE",
            KeyCommand::TimeLeft => b"PTTL",
            KeyCommand::Get => b"GET",
            KeyCommand::HashGetAll => b"HGETALL",
            KeyCommand::ListLength => b"LLEN",
            KeyCommand::SortedCount => b"ZCARD",
        }
    }

    /// The look that the command takes at this key.
    pub fn look(self, key: Text) -> Look
        ensures { result ≡ key_look self key }
    {
        match self {
            KeyCommand::Exists => Look::Exists { key },
            KeyCommand::Type => Look::Type { key },
            KeyCommand::TimeLeft => Look::TimeLeft { key },
            KeyCommand::Get => Look::Get { key },
            KeyCommand::HashGetAll => Look::HashGetAll { key },
            KeyCommand::ListLength => Look::ListLength { key },
            KeyCommand::SortedCount => Look::SortedCount { key },
        }
    }
}

impl ItemCommand {
    /// The word of the command, in capital letters.
    pub fn word(self) -> &'static [u8]
        ensures { result.now ≡ item_word self }
    {
        match self {
            ItemCommand::HashGet => b"HGET",
            ItemCommand::HashExists => b"HEXISTS",
            ItemCommand::SortedScore => b"ZSCORE",
        }
    }

    /// The look that the command takes at this field or member of this key.
    pub fn look(self, key: Text, item: Text) -> Look
        ensures { result ≡ item_look self key item }
    {
        match self {
            ItemCommand::HashGet => Look::HashGet { key, field: item },
            ItemCommand::HashExists => Look::HashExists { key, field: item },
            ItemCommand::SortedScore => Look::SortedScore { key, member: item },
        }
    }
}

impl RangeCommand {
    /// The word of the command, in capital letters.
    pub fn word(self) -> &'static [u8]
        ensures { result.now ≡ range_word self }
    {
        match self {
            RangeCommand::ListRange => b"LRANGE",
            RangeCommand::SortedRange => b"ZRANGE",
        }
    }

    /// The look that the command takes at these places of this key, both of them included.
    pub fn look(self, key: Text, start: i64, stop: i64) -> Look
        ensures { result ≡ range_look self key start stop }
    {
        match self {
            RangeCommand::ListRange => Look::ListRange { key, start, stop },
            RangeCommand::SortedRange => Look::SortedRange { key, start, stop },
        }
    }
}
