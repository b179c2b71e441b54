ghost use Rattle.std.specs.Prelude.{◌≡◌};
ghost use Rattle.lr_objects.specs.ReadWriteCalls.{read_write_form, read_write_call_of, IsReadWriteCall};

use crate::access::Access;
use crate::form::{Arguments, Begins, Form};
use lr_names::Owner;

/// The functions of a read-write lock, without their arguments.
#[derive(Clone, Copy, Debug, PartialEq, Eq)]
pub enum ReadWriteFunction {
    /// Take the lock to read.
    Read,
    /// Take the lock to write.
    Write,
    /// Give one hold to read back.
    UnlockRead,
    /// Give one hold to write back.
    UnlockWrite,
    /// Make the lease of a hold longer.
    Renew,
}

/// A call of a function of a read-write lock. Leases are in milliseconds, and the function tests
/// their range.
#[derive(Clone, Copy, PartialEq, Eq)]
pub enum ReadWriteCall {
    /// Take the lock, or take it once more, for this lease from now on.
    Take {
        /// To read or to write.
        access: Access,
        /// Who takes it.
        owner: Owner,
        /// For how long, in milliseconds.
        lease: u64,
    },
    /// Give one hold back. A hold that stays has this lease from now on.
    Unlock {
        /// To read or to write.
        access: Access,
        /// Who gives it back.
        owner: Owner,
        /// How long a hold that stays lasts, in milliseconds.
        rest: u64,
    },
    /// Let a hold last for this lease from now on.
    Renew {
        /// To read or to write.
        access: Access,
        /// Who holds it.
        owner: Owner,
        /// For how long, in milliseconds.
        lease: u64,
    },
}

impl ReadWriteFunction {
    /// How the function is written and used.
    pub fn form(self) -> Form
        ensures { result ≡ read_write_form self }
    {
        match self {
            ReadWriteFunction::Read => leased(b"rw_read", Begins::MayWait),
            ReadWriteFunction::Write => leased(b"rw_write", Begins::MayWait),
            ReadWriteFunction::UnlockRead => leased(b"rw_unlock_read", Begins::AtOnce),
            ReadWriteFunction::UnlockWrite => leased(b"rw_unlock_write", Begins::AtOnce),
            ReadWriteFunction::Renew => leased(b"rw_renew", Begins::Never),
        }
    }

    /// The call of the function by an owner, with a lease in milliseconds. No request begins with a
    /// renewal: a want doesn't say of which hold, and here it is of the one to read.
    pub(crate) fn call(self, owner: &Owner, lease: u64) -> ReadWriteCall
        ensures { result ≡ read_write_call_of self owner.now lease }
    {
        let (owner, rest) = (*owner, lease);
        let (read, write) = (Access::Read, Access::Write);
        match self {
            ReadWriteFunction::Read => ReadWriteCall::Take {
                access: read,
                owner,
                lease,
            },
            ReadWriteFunction::Write => ReadWriteCall::Take {
                access: write,
                owner,
                lease,
            },
            ReadWriteFunction::UnlockRead => ReadWriteCall::Unlock {
                access: read,
                owner,
                rest,
            },
            ReadWriteFunction::UnlockWrite => ReadWriteCall::Unlock {
                access: write,
                owner,
                rest,
            },
            ReadWriteFunction::Renew => ReadWriteCall::Renew {
                access: read,
                owner,
                lease,
            },
        }
    }
}

// A function that is given a lease.
fn leased(word: &'static [u8], begins: Begins) -> Form
    ensures { result
        ≡ record { word = word.now; arguments = Arguments.Lease; begins = begins } }
{
    Form::new(word, Arguments::Lease, begins)
}

impl ReadWriteCall {
    // What the types of its parts say of it.
    pub(crate) fn check(&self)
        ensures { IsReadWriteCall self.now }
    {
        match self {
            ReadWriteCall::Take { owner, .. }
            | ReadWriteCall::Unlock { owner, .. }
            | ReadWriteCall::Renew { owner, .. } => {
                let _client = owner.client();
            }
        }
    }
}
