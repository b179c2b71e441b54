ghost use Rattle.std.specs.Prelude.{◌≡◌, ℕ};
ghost use Rattle.lr_objects.specs.Function.{arguments_of};
ghost use Rattle.lr_objects.specs.Want.{HasAmount, op_of, lease_of};

use crate::kinds::Function;
use crate::op::Op;
use lr_limits::WATCHDOG_LEASE;
use lr_names::{Name, Owner};
use uuid::Uuid;

/// For how long a lock is taken.
#[derive(Clone, Copy, Debug, PartialEq, Eq)]
pub enum Lease {
    /// For the watchdog's lease, renewed while the client lives.
    Watch,
    /// For so many milliseconds.
    For(u64),
}

impl Lease {
    /// The lease in milliseconds.
    pub fn millis(&self) -> u64
        ensures { result ≡ lease_of self.now }
    {
        match self {
            Lease::Watch => WATCHDOG_LEASE,
            Lease::For(millis) => *millis,
        }
    }
}

/// How long a request may wait for a busy object.
#[derive(Clone, Copy, Debug, PartialEq, Eq)]
pub enum Mode {
    /// Not at all.
    Once,
    /// For so many milliseconds.
    For(u64),
    /// For as long as it takes.
    Long,
}

/// What a thread wants of an object. Parts that the function doesn't use are `For(0)`, 0 and the
/// nil id.
#[derive(Clone, Copy, PartialEq, Eq)]
pub struct Want {
    /// The function.
    pub function: Function,
    /// The object.
    pub name: Name,
    /// The lease, or the lease that a hold that stays gets.
    pub lease: Lease,
    /// How many permits or counts: 1 to 1,000,000,000, where the function is given a number.
    pub number: u64,
    /// The id of a permit.
    pub id: Uuid,
}

impl Want {
    /// The call that this want is, by an owner, with a lease in milliseconds. `queue` tells whether
    /// a fair try may take a place in the queue.
    pub fn op(&self, owner: &Owner, lease: u64, queue: bool) -> Op
        requires { HasAmount (arguments_of self.now.function) self.now }
        ensures { result ≡ op_of self.now owner.now lease queue }
    {
        Op {
            name: self.name,
            call: self.function.call(self, owner, lease, queue),
        }
    }
}
