ghost use Rattle.std.specs.Prelude.{◌≡◌, Option, Some};
ghost use Rattle.lr_replies.specs.Shapes.{shape_of, try_shape, limited_try_shape, token_try_shape, counted_try_shape, permit_try_shape, unlock_shape, renew_shape, force_shape, leave_shape, set_shape, counted_release_shape, permit_release_shape, count_shape};

use crate::refusal::Refusal;
use crate::role::Role;
use crate::shape::Shape;
use lr_objects::{Integer, Remaining, Reply};

impl Role {
    // What frame a reply is, where a function that does this has such a reply.
    pub fn shape_of(self, reply: &Reply) -> Option<Shape>
        ensures { result ≡ shape_of self reply.now }
    {
        match self {
            Role::Try => try_shape(reply),
            Role::LimitedTry => limited_try_shape(reply),
            Role::TokenTry => token_try_shape(reply),
            Role::CountedTry => counted_try_shape(reply),
            Role::PermitTry => permit_try_shape(reply),
            Role::Unlock => unlock_shape(reply),
            Role::Renew => renew_shape(reply),
            Role::Force => force_shape(reply),
            Role::Leave => leave_shape(reply),
            Role::Set => set_shape(reply),
            Role::CountedRelease => counted_release_shape(reply),
            Role::PermitRelease => permit_release_shape(reply),
            Role::Count => count_shape(reply),
        }
    }
}

fn try_shape(reply: &Reply) -> Option<Shape>
    ensures { result ≡ try_shape reply.now }
{
    match reply {
        Reply::Granted => Some(Shape::Null),
        Reply::Busy(remaining) => busy(remaining),
        Reply::TooDeep => refused(Refusal::TooDeep),
        Reply::BadLease => refused(Refusal::BadLease),
        _ => None,
    }
}

fn limited_try_shape(reply: &Reply) -> Option<Shape>
    ensures { result ≡ limited_try_shape reply.now }
{
    match reply {
        Reply::TooMany => refused(Refusal::TooMany),
        _ => try_shape(reply),
    }
}

fn token_try_shape(reply: &Reply) -> Option<Shape>
    ensures { result ≡ token_try_shape reply.now }
{
    match reply {
        Reply::GrantedToken(token) => Some(Shape::Token(*token)),
        Reply::Busy(remaining) => busy(remaining),
        Reply::TooDeep => refused(Refusal::TooDeep),
        Reply::TokensSpent => refused(Refusal::TokensSpent),
        Reply::BadLease => refused(Refusal::BadLease),
        _ => None,
    }
}

fn counted_try_shape(reply: &Reply) -> Option<Shape>
    ensures { result ≡ counted_try_shape reply.now }
{
    match reply {
        Reply::Granted => one(),
        Reply::Short => zero(),
        _ => None,
    }
}

fn permit_try_shape(reply: &Reply) -> Option<Shape>
    ensures { result ≡ permit_try_shape reply.now }
{
    match reply {
        Reply::Granted => Some(Shape::Null),
        Reply::Busy(remaining) => busy(remaining),
        Reply::Short => zero(),
        Reply::AlreadySet => refused(Refusal::PermitIdInUse),
        Reply::TooMany => refused(Refusal::TooMany),
        Reply::BadLease => refused(Refusal::BadLease),
        _ => None,
    }
}

fn unlock_shape(reply: &Reply) -> Option<Shape>
    ensures { result ≡ unlock_shape reply.now }
{
    match reply {
        Reply::Kept => zero(),
        Reply::Freed => one(),
        Reply::NotHeld => Some(Shape::Null),
        Reply::BadLease => refused(Refusal::BadLease),
        _ => None,
    }
}

fn renew_shape(reply: &Reply) -> Option<Shape>
    ensures { result ≡ renew_shape reply.now }
{
    match reply {
        Reply::Renewed => one(),
        Reply::Lost => zero(),
        Reply::BadLease => refused(Refusal::BadLease),
        _ => None,
    }
}

fn force_shape(reply: &Reply) -> Option<Shape>
    ensures { result ≡ force_shape reply.now }
{
    match reply {
        Reply::Freed => one(),
        Reply::NotHeld => zero(),
        _ => None,
    }
}

fn leave_shape(reply: &Reply) -> Option<Shape>
    ensures { result ≡ leave_shape reply.now }
{
    match reply {
        Reply::Left => one(),
        Reply::Unknown => zero(),
        _ => None,
    }
}

fn set_shape(reply: &Reply) -> Option<Shape>
    ensures { result ≡ set_shape reply.now }
{
    match reply {
        Reply::Set => one(),
        Reply::AlreadySet => zero(),
        _ => None,
    }
}

fn counted_release_shape(reply: &Reply) -> Option<Shape>
    ensures { result ≡ counted_release_shape reply.now }
{
    match reply {
        Reply::Count(count) => Some(Shape::Number(*count)),
        Reply::TooMany => refused(Refusal::TooMany),
        _ => None,
    }
}

fn permit_release_shape(reply: &Reply) -> Option<Shape>
    ensures { result ≡ permit_release_shape reply.now }
{
    match reply {
        Reply::Freed => one(),
        Reply::Unknown => zero(),
        _ => None,
    }
}

fn count_shape(reply: &Reply) -> Option<Shape>
    ensures { result ≡ count_shape reply.now }
{
    match reply {
        Reply::Count(count) => Some(Shape::Number(*count)),
        _ => None,
    }
}

fn one() -> Option<Shape>
    ensures { result ≡ Some (Shape.Number 1) }
{
    Some(Shape::Number(Integer::new(1)))
}

fn zero() -> Option<Shape>
    ensures { result ≡ Some (Shape.Number 0) }
{
    Some(Shape::Number(Integer::new(0)))
}

fn busy(remaining: &Remaining) -> Option<Shape>
    ensures { result ≡ Some (Shape.Number remaining.now) }
{
    Some(Shape::Number(Integer::new(remaining.millis())))
}

fn refused(refusal: Refusal) -> Option<Shape>
    ensures { result ≡ Some (Shape.Refused refusal) }
{
    Some(Shape::Refused(refusal))
}
