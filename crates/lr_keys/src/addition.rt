ghost use Rattle.std.specs.Prelude.{◌≡◌};
ghost use Rattle.lr_keys.specs.Addition.{kind_added, member_added};

use super::value_kind::ValueKind;
use lr_text::Brief;

/// What a call puts into the value of a key.
#[derive(Drop)]
pub(crate) enum Addition {
    /// A field of a hash with its number.
    Field { field: Brief, number: i64 },
    /// An item of a list, behind the last one.
    Item { item: Brief },
    /// A member of a sorted set with its score.
    Member { member: Brief, score: u64 },
    /// The number of a counter.
    Number { number: i64 },
}

impl Addition {
    /// The kind of value that takes it.
    pub(crate) fn kind(&self) -> ValueKind
        ensures { result ≡ kind_added self.now }
    {
        match self {
            Addition::Field { .. } => ValueKind::Hash,
            Addition::Item { .. } => ValueKind::List,
            Addition::Member { .. } => ValueKind::Zset,
            Addition::Number { .. } => ValueKind::Counter,
        }
    }

    /// The member, for which memory may be prepared. Of a counter it is empty.
    pub(crate) fn member(&self) -> Brief
        ensures { result ≡ member_added self.now }
    {
        match self {
            Addition::Field { field, .. } => *field,
            Addition::Item { item } => *item,
            Addition::Member { member, .. } => *member,
            Addition::Number { .. } => Brief::new(),
        }
    }
}
