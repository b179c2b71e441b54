ghost use Rattle.std.specs.Prelude.{◌≡◌, ◌≤◌, ◌<◌, ◌^◌, length};
ghost use Rattle.lr_objects.specs.Reply.{blocks, reply_word, reply_number};

use crate::countdown::CountdownFunction;
use crate::kinds::Function;
use std::marker::Model;

/// How long an object stays busy at most, in milliseconds: at least 1.
#[derive(Clone, Copy, Debug, PartialEq, Eq)]
pub struct Remaining {
    millis: u64,
}

impl Model for Remaining {
    ghost use Rattle.std.specs.Prelude.{ℕ, ◌≤◌, ◌<◌, ◌^◌};

    ghost Value = { ℕ };

    ghost view = { λ r. r.millis };

    ghost invariant = { λ r. (1 ≤ r.millis) × (r.millis < 2 ^ 63) };

    ghost inverse = { λ millis. record { millis = millis } };
}

impl Remaining {
    /// So many milliseconds.
    pub fn new(millis: u64) -> Self
        requires some { 1 ≤ millis }
        requires fits { millis < 2 ^ 63 }
        ensures { result ≡ millis }
    {
        Remaining { millis }
    }

    /// The number of milliseconds.
    pub fn millis(&self) -> u64
        ensures value { result ≡ self.now }
        ensures some { 1 ≤ result }
        ensures fits { result < 2 ^ 63 }
    {
        self.millis
    }
}

/// A number that a reply tells, of at most 63 bits, as an integer of Redis.
#[derive(Clone, Copy, Debug, PartialEq, Eq)]
pub struct Integer {
    value: u64,
}

impl Model for Integer {
    ghost use Rattle.std.specs.Prelude.{ℕ, ◌<◌, ◌^◌};

    ghost Value = { ℕ };

    ghost view = { λ i. i.value };

    ghost invariant = { λ i. i.value < 2 ^ 63 };

    ghost inverse = { λ value. record { value = value } };
}

impl Integer {
    /// This number.
    pub fn new(value: u64) -> Self
        requires { value < 2 ^ 63 }
        ensures { result ≡ value }
    {
        Integer { value }
    }

    /// The number.
    pub fn value(&self) -> u64
        ensures value { result ≡ self.now }
        ensures fits { result < 2 ^ 63 }
    {
        self.value
    }
}

/// What a function answers.
#[derive(Clone, Copy, Debug, PartialEq, Eq)]
pub enum Reply {
    /// The object was taken.
    Granted,
    /// Another has it, for at most so long.
    Busy(Remaining),
    /// One hold was given back, and the owner still holds the lock.
    Kept,
    /// The last hold is gone, and the object is free.
    Freed,
    /// The owner doesn't hold the lock, or nobody does.
    NotHeld,
    /// The hold has a new deadline.
    Renewed,
    /// There was no hold to renew.
    Lost,
    /// The owner holds the lock a million times already.
    TooDeep,
    /// The lease isn't within 1 and 86,400,000,000 milliseconds.
    BadLease,
    /// The lock was taken, with this token.
    GrantedToken(Integer),
    /// There are too few permits.
    Short,
    /// The number was set.
    Set,
    /// A number is set already, and stays.
    AlreadySet,
    /// So many there are now: permits, counts, or tokens that were given out.
    Count(Integer),
    /// There is nothing of this id, or no place of this owner.
    Unknown,
    /// There would be more than there may be: permits of a semaphore, or holds, leases or places in
    /// the queue of an object.
    TooMany,
    /// The lock has given out its last token.
    TokensSpent,
    /// The place in the queue was given up.
    Left,
}

impl Reply {
    /// The word of the reply.
    pub fn word(&self) -> &'static [u8]
        ensures word { result.now ≡ reply_word self.now }
        ensures short { length result.now ≤ 12 }
    {
        match self {
            Reply::Granted => b"granted",
            Reply::Busy(_) => b"busy",
            Reply::Kept => b"kept",
            Reply::Freed => b"freed",
            Reply::NotHeld => b"not-held",
            Reply::Renewed => b"renewed",
            Reply::Lost => b"lost",
            Reply::TooDeep => b"too-deep",
            Reply::BadLease => b"bad-lease",
            Reply::GrantedToken(_) => b"token",
            Reply::Short => b"short",
            Reply::Set => b"set",
            Reply::AlreadySet => b"already-set",
            Reply::Count(_) => b"count",
            Reply::Unknown => b"unknown",
            Reply::TooMany => b"too-many",
            Reply::TokensSpent => b"tokens-spent",
            Reply::Left => b"left",
        }
    }

    /// The number that the reply tells besides: of a busy object, for how many milliseconds it
    /// stays busy at most; a token; or a count.
    pub fn number(&self) -> Option<u64>
        ensures { result ≡ reply_number self.now }
    {
        match self {
            Reply::Busy(remaining) => Some(remaining.millis()),
            Reply::GrantedToken(number) | Reply::Count(number) => Some(number.value()),
            _ => None,
        }
    }

    /// Whether the one who asked has to wait for the object.
    pub fn blocks(&self, function: Function) -> bool
        ensures { result ≡ blocks self.now function }
    {
        match (self, function) {
            (Reply::Busy(_) | Reply::Short, _) => true,
            (Reply::Count(count), Function::Countdown(CountdownFunction::Count)) => count.value()
                > 0,
            _ => false,
        }
    }
}
