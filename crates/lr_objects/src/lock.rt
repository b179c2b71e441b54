ghost use Rattle.std.specs.Prelude.{◌≡◌};
ghost use Rattle.lr_objects.specs.LockCalls.{lock_form, lock_call_of, IsLockCall};

use crate::form::{Arguments, Begins, Form};
use lr_names::Owner;

/// The functions of a reentrant lock, without their arguments.
#[derive(Clone, Copy, Debug, PartialEq, Eq)]
pub enum LockFunction {
    /// Take the lock.
    Try,
    /// Give one hold of the lock back.
    Unlock,
    /// Make the lease of the held lock longer.
    Renew,
    /// Take the lock away from whoever holds it.
    Force,
}

/// A call of a function of a reentrant lock. Leases are in milliseconds, and the function tests
/// their range.
#[derive(Clone, Copy, PartialEq, Eq)]
pub enum LockCall {
    /// Take the lock, or take it once more, for this lease from now on.
    Try {
        /// Who takes it.
        owner: Owner,
        /// For how long, in milliseconds.
        lease: u64,
    },
    /// Give one hold back. A hold that stays has this lease from now on.
    Unlock {
        /// Who gives it back.
        owner: Owner,
        /// How long a hold that stays lasts, in milliseconds.
        rest: u64,
    },
    /// Let a hold last for this lease from now on.
    Renew {
        /// Who holds it.
        owner: Owner,
        /// For how long, in milliseconds.
        lease: u64,
    },
    /// Take the lock away from whoever holds it.
    Force,
}

impl LockFunction {
    /// How the function is written and used.
    pub fn form(self) -> Form
        ensures { result ≡ lock_form self }
    {
        match self {
            LockFunction::Try => Form::new(b"lock_try", Arguments::Lease, Begins::MayWait),
            LockFunction::Unlock => Form::new(b"lock_unlock", Arguments::Lease, Begins::AtOnce),
            LockFunction::Renew => Form::new(b"lock_renew", Arguments::Lease, Begins::Never),
            LockFunction::Force => Form::new(b"lock_force", Arguments::Nothing, Begins::Never),
        }
    }

    /// The call of the function by an owner, with a lease in milliseconds.
    pub(crate) fn call(self, owner: &Owner, lease: u64) -> LockCall
        ensures { result ≡ lock_call_of self owner.now lease }
    {
        let owner = *owner;
        match self {
            LockFunction::Try => LockCall::Try { owner, lease },
            LockFunction::Unlock => LockCall::Unlock { owner, rest: lease },
            LockFunction::Renew => LockCall::Renew { owner, lease },
            LockFunction::Force => LockCall::Force,
        }
    }
}

impl LockCall {
    // What the types of its parts say of it.
    pub(crate) fn check(&self)
        ensures { IsLockCall self.now }
    {
        match self {
            LockCall::Try { owner, .. }
            | LockCall::Unlock { owner, .. }
            | LockCall::Renew { owner, .. } => {
                let _client = owner.client();
            }
            LockCall::Force => (),
        }
    }
}
