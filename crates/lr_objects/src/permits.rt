ghost use Rattle.std.specs.Prelude.{◌≡◌};
ghost use Rattle.lr_objects.specs.Form.{FitsAmount};
ghost use Rattle.lr_objects.specs.PermitCalls.{permit_form, permit_call_of, IsPermitCall};

use crate::amount::Amount;
use crate::form::{Arguments, Begins, Form};
use lr_names::check_id;
use uuid::Uuid;

/// The functions of expirable permits, without their arguments.
#[derive(Clone, Copy, Debug, PartialEq, Eq)]
pub enum PermitFunction {
    /// Set the number of permits.
    Set,
    /// Take a permit for a lease.
    Try,
    /// Give a permit back.
    Release,
    /// Ask how many permits are free.
    Count,
}

/// A call of a function of expirable permits. Leases are in milliseconds, and the function tests
/// their range.
#[derive(Clone, Copy, PartialEq, Eq)]
pub enum PermitCall {
    /// Set the number of permits, where there is none yet.
    Set {
        /// How many permits there are.
        number: Amount,
    },
    /// Take a permit under an id that has none.
    Try {
        /// The id under which it is taken.
        id: Uuid,
        /// For how long, in milliseconds.
        lease: u64,
    },
    /// Give back the permit that was taken under an id.
    Release {
        /// The id.
        id: Uuid,
    },
    /// Tell how many permits are free.
    Count,
}

impl PermitFunction {
    /// How the function is written and used.
    pub fn form(self) -> Form
        ensures { result ≡ permit_form self }
    {
        match self {
            PermitFunction::Set => Form::new(b"permit_set", Arguments::Number, Begins::AtOnce),
            PermitFunction::Try => Form::new(b"permit_try", Arguments::IdAndLease, Begins::MayWait),
            PermitFunction::Release => Form::new(b"permit_release", Arguments::Id, Begins::AtOnce),
            PermitFunction::Count => Form::new(b"permit_count", Arguments::Nothing, Begins::AtOnce),
        }
    }

    /// The call of the function, with the number, the id and the lease where it is given one.
    pub(crate) fn call(self, number: u64, id: Uuid, lease: u64) -> PermitCall
        requires { FitsAmount (permit_form self).arguments number }
        ensures { result ≡ permit_call_of self number id lease }
    {
        match self {
            PermitFunction::Set => PermitCall::Set {
                number: Amount::new(number),
            },
            PermitFunction::Try => PermitCall::Try { id, lease },
            PermitFunction::Release => PermitCall::Release { id },
            PermitFunction::Count => PermitCall::Count,
        }
    }
}

impl PermitCall {
    // What the types of its parts say of it.
    pub(crate) fn check(&self)
        ensures { IsPermitCall self.now }
    {
        match self {
            PermitCall::Set { number } => {
                let _number = number.number();
            }
            PermitCall::Try { id, .. } | PermitCall::Release { id } => check_id(id),
            PermitCall::Count => (),
        }
    }
}
