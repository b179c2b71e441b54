//! The limits: how long, how many and how late things may be. Some are Redisson's and Redis's, most
//! are this project's own.
#![tactic(auto)]

ghost use Rattle.std.specs.Prelude.{◌≡◌};
ghost use Rattle.lr_limits.specs.Limits as limits;

/// The greatest length of a line of a schedule, in bytes, without its LF.
pub const LINE_BYTES: usize = 512;

/// The greatest length of the name of an object, in bytes.
pub const NAME_BYTES: usize = 64;

/// The greatest length of a key, a field or a member, in bytes.
pub const BRIEF_BYTES: usize = 128;

/// The greatest number of a thread of a client. Threads are numbered from 1.
pub const MOST_THREADS: u32 = 256;

/// The greatest number of a client in a schedule. Clients are numbered from 1.
pub const MOST_CLIENTS: u32 = 64;

/// How many events a schedule has at most.
pub const MOST_EVENTS: u64 = 1_000_000;

/// The last moment that a clock shows, in milliseconds: 2 to the 53rd, less 1.
pub const LAST_MOMENT: u64 = 9_007_199_254_740_991;

/// The deadline of what never expires, in milliseconds: the greatest signed number of 64 bits.
pub const NEVER: u64 = 9_223_372_036_854_775_807;

/// The longest lease, in milliseconds: a thousand days. The shortest is 1.
pub const LONGEST_LEASE: u64 = 86_400_000_000;

/// The lease of the watchdog, in milliseconds: what a lock taken without a lease gets, after the
/// Redisson guide.
pub const WATCHDOG_LEASE: u64 = 30_000;

/// How many times an owner may hold an object at once.
pub const MOST_HOLDS: u64 = 1_000_000;

/// The last token of a fenced lock: 2 to the 53rd, less 1, which every client can hold exactly.
pub const LAST_TOKEN: u64 = 9_007_199_254_740_991;

/// The greatest number of permits or counts of an object, and of those asked for at once.
pub const MOST_AMOUNT: u64 = 1_000_000_000;

/// How many members a key has at most: fields of a hash, items of a list, members of a sorted set.
pub const MOST_MEMBERS: usize = 65_536;

/// How many items wait in the outbox of a connection at most.
pub const MOST_WAITING: usize = 16_384;

/// How many connections a server has at most. They are numbered from 0.
pub const MOST_CONNECTIONS: u32 = 256;

/// How many entries a history takes. Only closes of connections may stand behind them.
pub const MOST_ENTRIES: u64 = 2_000_000;

/// Each limit of the code is the number that the definitions name.
pub fn limits_are_as_defined()
    ensures line { LINE_BYTES ≡ limits.line_limit }
    ensures name { NAME_BYTES ≡ limits.name_limit }
    ensures brief { BRIEF_BYTES ≡ limits.brief_limit }
    ensures threads { MOST_THREADS ≡ limits.thread_limit }
    ensures clients { MOST_CLIENTS ≡ limits.client_limit }
    ensures events { MOST_EVENTS ≡ limits.event_limit }
    ensures moment { LAST_MOMENT ≡ limits.last_moment }
    ensures endless { NEVER ≡ limits.never }
    ensures lease { LONGEST_LEASE ≡ limits.longest_lease }
    ensures watchdog { WATCHDOG_LEASE ≡ limits.watchdog_lease }
    ensures holds { MOST_HOLDS ≡ limits.hold_limit }
    ensures tokens { LAST_TOKEN ≡ limits.token_limit }
    ensures amounts { MOST_AMOUNT ≡ limits.amount_limit }
    ensures members { MOST_MEMBERS ≡ limits.member_limit }
    ensures waiting { MOST_WAITING ≡ limits.outbox_limit }
    ensures connections { MOST_CONNECTIONS ≡ limits.connection_limit }
    ensures entries { MOST_ENTRIES ≡ limits.entry_limit }
{}
