ghost use Rattle.std.specs.Prelude.{◌≡◌};
ghost use Rattle.lr_objects.specs.FencedCalls.{fenced_form, fenced_call_of, IsFencedCall};

use crate::form::{Arguments, Begins, Form};
use lr_names::Owner;

/// The functions of a fenced lock, without their arguments.
#[derive(Clone, Copy, Debug, PartialEq, Eq)]
pub enum FencedFunction {
    /// Take the lock.
    Try,
    /// Give one hold of the lock back.
    Unlock,
    /// Make the lease of the held lock longer.
    Renew,
    /// Ask for the last token of the lock.
    Token,
}

/// A call of a function of a fenced lock. Leases are in milliseconds, and the function tests their
/// range.
#[derive(Clone, Copy, PartialEq, Eq)]
pub enum FencedCall {
    /// Take the lock, or take it once more, for this lease from now on.
    Try {
        /// Who takes it.
        owner: Owner,
        /// For how long, in milliseconds.
        lease: u64,
    },
    /// Give one hold back. A hold that stays has this lease from now on.
    Unlock {
        /// Who gives it back.
        owner: Owner,
        /// How long a hold that stays lasts, in milliseconds.
        rest: u64,
    },
    /// Let a hold last for this lease from now on.
    Renew {
        /// Who holds it.
        owner: Owner,
        /// For how long, in milliseconds.
        lease: u64,
    },
    /// Tell the last token of the lock.
    Token,
}

impl FencedFunction {
    /// How the function is written and used.
    pub fn form(self) -> Form
        ensures { result ≡ fenced_form self }
    {
        match self {
            FencedFunction::Try => Form::new(b"fenced_try", Arguments::Lease, Begins::MayWait),
            FencedFunction::Unlock => Form::new(b"fenced_unlock", Arguments::Lease, Begins::AtOnce),
            FencedFunction::Renew => Form::new(b"fenced_renew", Arguments::Lease, Begins::Never),
            FencedFunction::Token => Form::new(b"fenced_token", Arguments::Nothing, Begins::AtOnce),
        }
    }

    /// The call of the function by an owner, with a lease in milliseconds.
    pub(crate) fn call(self, owner: &Owner, lease: u64) -> FencedCall
        ensures { result ≡ fenced_call_of self owner.now lease }
    {
        let owner = *owner;
        match self {
            FencedFunction::Try => FencedCall::Try { owner, lease },
            FencedFunction::Unlock => FencedCall::Unlock { owner, rest: lease },
            FencedFunction::Renew => FencedCall::Renew { owner, lease },
            FencedFunction::Token => FencedCall::Token,
        }
    }
}

impl FencedCall {
    // What the types of its parts say of it.
    pub(crate) fn check(&self)
        ensures { IsFencedCall self.now }
    {
        match self {
            FencedCall::Try { owner, .. }
            | FencedCall::Unlock { owner, .. }
            | FencedCall::Renew { owner, .. } => {
                let _client = owner.client();
            }
            FencedCall::Token => (),
        }
    }
}
