use lr_text::Text;

/// A look at the keys, after the Redis command of that name.
///
/// Places of lists and sorted sets count from 0, and negative ones from the end: -1 is the last.
/// Of a range both ends belong to it.
#[derive(Drop)]
pub enum Look {
    /// `EXISTS`: whether there is such a key.
    Exists {
        /// The key.
        key: Text,
    },
    /// `TYPE`: what kind of value the key has.
    Type {
        /// The key.
        key: Text,
    },
    /// `PTTL`: for how many milliseconds the key still lasts.
    TimeLeft {
        /// The key.
        key: Text,
    },
    /// `GET`: the count of a counter.
    Get {
        /// The key.
        key: Text,
    },
    /// `HGET`: the count of a field of a hash.
    HashGet {
        /// The key.
        key: Text,
        /// The field.
        field: Text,
    },
    /// `HEXISTS`: whether a hash has a field.
    HashExists {
        /// The key.
        key: Text,
        /// The field.
        field: Text,
    },
    /// `HGETALL`: all fields of a hash, each with its count, in order of making.
    HashGetAll {
        /// The key.
        key: Text,
    },
    /// `LLEN`: how many items a list has.
    ListLength {
        /// The key.
        key: Text,
    },
    /// `ZCARD`: how many members a sorted set has.
    SortedCount {
        /// The key.
        key: Text,
    },
    /// `LRANGE`: the items of a list at these places.
    ListRange {
        /// The key.
        key: Text,
        /// The first place.
        start: i64,
        /// The last place.
        stop: i64,
    },
    /// `ZRANGE`: the members of a sorted set at these places, in order of their scores.
    SortedRange {
        /// The key.
        key: Text,
        /// The first place.
        start: i64,
        /// The last place.
        stop: i64,
    },
    /// `ZSCORE`: the score of a member of a sorted set.
    SortedScore {
        /// The key.
        key: Text,
        /// The member.
        member: Text,
    },
}
