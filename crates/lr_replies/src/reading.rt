ghost use Rattle.std.specs.Prelude.{◌≡◌, Option};
ghost use Rattle.lr_replies.specs.Reading.{reply_of, read_try, read_limited_try, read_token_try, read_permit_try, read_unlock, read_renew, read_counted_release, read_count, read_one_or_zero, one_or_zero, busy_for, busy_or_short};

use crate::refusal::Refusal;
use crate::role::Role;
use crate::shape::Shape;
use lr_objects::{Integer, Remaining, Reply};

impl Role {
    // The reply that looks so, where a function that does this has one.
    pub fn reply_of(self, shape: &Shape) -> Option<Reply>
        ensures { result ≡ reply_of self shape.now }
    {
        match self {
            Role::Try => read_try(shape),
            Role::LimitedTry => read_limited_try(shape),
            Role::TokenTry => read_token_try(shape),
            Role::CountedTry => read_one_or_zero(Reply::Granted, Reply::Short, shape),
            Role::PermitTry => read_permit_try(shape),
            Role::Unlock => read_unlock(shape),
            Role::Renew => read_renew(shape),
            Role::Force => read_one_or_zero(Reply::Freed, Reply::NotHeld, shape),
            Role::Leave => read_one_or_zero(Reply::Left, Reply::Unknown, shape),
            Role::Set => read_one_or_zero(Reply::Set, Reply::AlreadySet, shape),
            Role::CountedRelease => read_counted_release(shape),
            Role::PermitRelease => read_one_or_zero(Reply::Freed, Reply::Unknown, shape),
            Role::Count => read_count(shape),
        }
    }
}

fn read_try(shape: &Shape) -> Option<Reply>
    ensures { result ≡ read_try shape.now }
{
    match shape {
        Shape::Null => Some(Reply::Granted),
        Shape::Number(millis) => busy_for(millis),
        Shape::Refused(Refusal::TooDeep) => Some(Reply::TooDeep),
        Shape::Refused(Refusal::BadLease) => Some(Reply::BadLease),
        _ => None,
    }
}

fn read_limited_try(shape: &Shape) -> Option<Reply>
    ensures { result ≡ read_limited_try shape.now }
{
    match shape {
        Shape::Refused(Refusal::TooMany) => Some(Reply::TooMany),
        _ => read_try(shape),
    }
}

fn read_token_try(shape: &Shape) -> Option<Reply>
    ensures { result ≡ read_token_try shape.now }
{
    match shape {
        Shape::Token(token) => Some(Reply::GrantedToken(*token)),
        Shape::Number(millis) => busy_for(millis),
        Shape::Refused(Refusal::TooDeep) => Some(Reply::TooDeep),
        Shape::Refused(Refusal::TokensSpent) => Some(Reply::TokensSpent),
        Shape::Refused(Refusal::BadLease) => Some(Reply::BadLease),
        _ => None,
    }
}

fn read_permit_try(shape: &Shape) -> Option<Reply>
    ensures { result ≡ read_permit_try shape.now }
{
    match shape {
        Shape::Null => Some(Reply::Granted),
        Shape::Number(millis) => busy_or_short(millis),
        Shape::Refused(Refusal::PermitIdInUse) => Some(Reply::AlreadySet),
        Shape::Refused(Refusal::TooMany) => Some(Reply::TooMany),
        Shape::Refused(Refusal::BadLease) => Some(Reply::BadLease),
        _ => None,
    }
}

fn read_unlock(shape: &Shape) -> Option<Reply>
    ensures { result ≡ read_unlock shape.now }
{
    match shape {
        Shape::Number(number) => one_or_zero(Reply::Freed, Reply::Kept, number),
        Shape::Null => Some(Reply::NotHeld),
        Shape::Refused(Refusal::BadLease) => Some(Reply::BadLease),
        _ => None,
    }
}

fn read_renew(shape: &Shape) -> Option<Reply>
    ensures { result ≡ read_renew shape.now }
{
    match shape {
        Shape::Number(number) => one_or_zero(Reply::Renewed, Reply::Lost, number),
        Shape::Refused(Refusal::BadLease) => Some(Reply::BadLease),
        _ => None,
    }
}

fn read_counted_release(shape: &Shape) -> Option<Reply>
    ensures { result ≡ read_counted_release shape.now }
{
    match shape {
        Shape::Number(count) => Some(Reply::Count(*count)),
        Shape::Refused(Refusal::TooMany) => Some(Reply::TooMany),
        _ => None,
    }
}

fn read_count(shape: &Shape) -> Option<Reply>
    ensures { result ≡ read_count shape.now }
{
    match shape {
        Shape::Number(count) => Some(Reply::Count(*count)),
        _ => None,
    }
}

// A number alone, which is 1 or 0.
fn read_one_or_zero(one: Reply, none: Reply, shape: &Shape) -> Option<Reply>
    ensures { result ≡ read_one_or_zero one none shape.now }
{
    match shape {
        Shape::Number(number) => one_or_zero(one, none, number),
        _ => None,
    }
}

// The reply that 1 stands for, or the one that 0 stands for.
fn one_or_zero(one: Reply, none: Reply, number: &Integer) -> Option<Reply>
    ensures { result ≡ one_or_zero one none number.now }
{
    match number.value() {
        1 => Some(one),
        0 => Some(none),
        _ => None,
    }
}

// Busy for so long, which is never 0.
fn busy_for(millis: &Integer) -> Option<Reply>
    ensures { result ≡ busy_for millis.now }
{
    match millis.value() {
        0 => None,
        millis => Some(Reply::Busy(Remaining::new(millis))),
    }
}

// The same, where 0 says that there are too few permits.
fn busy_or_short(millis: &Integer) -> Option<Reply>
    ensures { result ≡ busy_or_short millis.now }
{
    match millis.value() {
        0 => Some(Reply::Short),
        millis => Some(Reply::Busy(Remaining::new(millis))),
    }
}
