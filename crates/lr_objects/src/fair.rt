ghost use Rattle.std.specs.Prelude.{◌≡◌};
ghost use Rattle.lr_names.specs.Owner.{IsOwner};
ghost use Rattle.lr_objects.specs.FairCalls.{fair_form, fair_call_of, fair_owner, IsFairCall};

use crate::form::{Arguments, Begins, Form};
use lr_names::Owner;

/// The functions of a fair lock, without their arguments.
#[derive(Clone, Copy, Debug, PartialEq, Eq)]
pub enum FairFunction {
    /// Take the lock, or a place in its queue.
    Try,
    /// Give one hold of the lock back.
    Unlock,
    /// Give the place in the queue up.
    Leave,
    /// Make the lease of the held lock longer.
    Renew,
}

/// A call of a function of a fair lock. Leases are in milliseconds, and the function tests their
/// range.
#[derive(Clone, Copy, PartialEq, Eq)]
pub enum FairCall {
    /// Take the lock, or take it once more, for this lease from now on.
    Try {
        /// Who takes it.
        owner: Owner,
        /// For how long, in milliseconds.
        lease: u64,
        /// Whether to take a place in the queue where the lock can't be had.
        queue: bool,
    },
    /// Give one hold back. A hold that stays has this lease from now on.
    Unlock {
        /// Who gives it back.
        owner: Owner,
        /// How long a hold that stays lasts, in milliseconds.
        rest: u64,
    },
    /// Give the place in the queue up.
    Leave {
        /// Whose place it is.
        owner: Owner,
    },
    /// Let a hold last for this lease from now on.
    Renew {
        /// Who holds it.
        owner: Owner,
        /// For how long, in milliseconds.
        lease: u64,
    },
}

impl FairFunction {
    /// How the function is written and used.
    pub fn form(self) -> Form
        ensures { result ≡ fair_form self }
    {
        match self {
            FairFunction::Try => Form::new(b"fair_try", Arguments::Lease, Begins::MayWait),
            FairFunction::Unlock => Form::new(b"fair_unlock", Arguments::Lease, Begins::AtOnce),
            FairFunction::Leave => Form::new(b"fair_leave", Arguments::Nothing, Begins::Never),
            FairFunction::Renew => Form::new(b"fair_renew", Arguments::Lease, Begins::Never),
        }
    }

    /// The call of the function by an owner, with a lease in milliseconds. `queue` tells whether a
    /// try may take a place in the queue.
    pub(crate) fn call(self, owner: &Owner, lease: u64, queue: bool) -> FairCall
        ensures { result ≡ fair_call_of self owner.now lease queue }
    {
        let owner = *owner;
        match self {
            FairFunction::Try => FairCall::Try {
                owner,
                lease,
                queue,
            },
            FairFunction::Unlock => FairCall::Unlock { owner, rest: lease },
            FairFunction::Leave => FairCall::Leave { owner },
            FairFunction::Renew => FairCall::Renew { owner, lease },
        }
    }
}

impl FairCall {
    /// Who makes the call.
    pub fn owner(&self) -> Owner
        ensures { result ≡ fair_owner self.now }
    {
        match self {
            FairCall::Try { owner, .. }
            | FairCall::Unlock { owner, .. }
            | FairCall::Leave { owner }
            | FairCall::Renew { owner, .. } => *owner,
        }
    }

    // What the types of its parts say of it.
    pub(crate) fn check(&self)
        ensures { IsFairCall self.now }
    {
        let owner = self.owner();
        let _client = owner.client();
    }
}
