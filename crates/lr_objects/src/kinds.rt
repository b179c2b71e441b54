//! The functions and the calls of all kinds of object. A further kind adds a line to each table
//! here, and a file of its own.
ghost use Rattle.std.specs.Prelude.{◌≡◌};
ghost use Rattle.lr_objects.specs.Function.{arguments_of};
ghost use Rattle.lr_objects.specs.Kinds.{form_of, call_of, call_kind, IsCallOfKind};
ghost use Rattle.lr_objects.specs.Want.{HasAmount};

use crate::countdown::{CountdownCall, CountdownFunction};
use crate::fair::{FairCall, FairFunction};
use crate::fenced::{FencedCall, FencedFunction};
use crate::form::Form;
use crate::lock::{LockCall, LockFunction};
use crate::permits::{PermitCall, PermitFunction};
use crate::read_write::{ReadWriteCall, ReadWriteFunction};
use crate::semaphore::{SemaphoreCall, SemaphoreFunction};
use crate::want::Want;
use lr_names::{Kind, Owner};

/// The functions of the server, without their arguments.
#[derive(Clone, Copy, Debug, PartialEq, Eq)]
pub enum Function {
    /// Of a reentrant lock.
    Lock(LockFunction),
    /// Of a fair lock.
    Fair(FairFunction),
    /// Of a read-write lock.
    ReadWrite(ReadWriteFunction),
    /// Of a fenced lock.
    Fenced(FencedFunction),
    /// Of a semaphore.
    Semaphore(SemaphoreFunction),
    /// Of expirable permits.
    Permits(PermitFunction),
    /// Of a countdown latch.
    Countdown(CountdownFunction),
}

/// A call of a function, by the kind of its object.
#[derive(Clone, Copy, PartialEq, Eq)]
pub enum Call {
    /// On a reentrant lock.
    Lock(LockCall),
    /// On a fair lock.
    Fair(FairCall),
    /// On a read-write lock.
    ReadWrite(ReadWriteCall),
    /// On a fenced lock.
    Fenced(FencedCall),
    /// On a semaphore.
    Semaphore(SemaphoreCall),
    /// On expirable permits.
    Permits(PermitCall),
    /// On a countdown latch.
    Countdown(CountdownCall),
}

impl Function {
    /// All functions.
    pub const ALL: [Function; 28] = [
        Function::Lock(LockFunction::Try),
        Function::Lock(LockFunction::Unlock),
        Function::Lock(LockFunction::Renew),
        Function::Lock(LockFunction::Force),
        Function::Fair(FairFunction::Try),
        Function::Fair(FairFunction::Unlock),
        Function::Fair(FairFunction::Leave),
        Function::Fair(FairFunction::Renew),
        Function::ReadWrite(ReadWriteFunction::Read),
        Function::ReadWrite(ReadWriteFunction::Write),
        Function::ReadWrite(ReadWriteFunction::UnlockRead),
        Function::ReadWrite(ReadWriteFunction::UnlockWrite),
        Function::ReadWrite(ReadWriteFunction::Renew),
        Function::Fenced(FencedFunction::Try),
        Function::Fenced(FencedFunction::Unlock),
        Function::Fenced(FencedFunction::Renew),
        Function::Fenced(FencedFunction::Token),
        Function::Semaphore(SemaphoreFunction::Set),
        Function::Semaphore(SemaphoreFunction::Try),
        Function::Semaphore(SemaphoreFunction::Release),
        Function::Semaphore(SemaphoreFunction::Count),
        Function::Permits(PermitFunction::Set),
        Function::Permits(PermitFunction::Try),
        Function::Permits(PermitFunction::Release),
        Function::Permits(PermitFunction::Count),
        Function::Countdown(CountdownFunction::Set),
        Function::Countdown(CountdownFunction::Down),
        Function::Countdown(CountdownFunction::Count),
    ];

    /// How the function is written and used.
    pub fn form(self) -> Form
        ensures { result ≡ form_of self }
    {
        match self {
            Function::Lock(function) => function.form(),
            Function::Fair(function) => function.form(),
            Function::ReadWrite(function) => function.form(),
            Function::Fenced(function) => function.form(),
            Function::Semaphore(function) => function.form(),
            Function::Permits(function) => function.form(),
            Function::Countdown(function) => function.form(),
        }
    }

    /// The call of the function for a want, by an owner, with a lease in milliseconds. `queue`
    /// tells whether a fair try may take a place in the queue.
    pub(crate) fn call(self, want: &Want, owner: &Owner, lease: u64, queue: bool) -> Call
        requires { HasAmount (arguments_of self) want.now }
        ensures { result ≡ call_of self want.now owner.now lease queue }
    {
        match self {
            Function::Lock(function) => Call::Lock(function.call(owner, lease)),
            Function::Fair(function) => Call::Fair(function.call(owner, lease, queue)),
            Function::ReadWrite(function) => Call::ReadWrite(function.call(owner, lease)),
            Function::Fenced(function) => Call::Fenced(function.call(owner, lease)),
            Function::Semaphore(function) => Call::Semaphore(function.call(want.number)),
            Function::Permits(function) => Call::Permits(function.call(
                want.number,
                want.id,
                lease,
            )),
            Function::Countdown(function) => Call::Countdown(function.call(want.number)),
        }
    }
}

impl Call {
    /// The kind of the object.
    pub fn kind(&self) -> Kind
        ensures { result ≡ call_kind self.now }
    {
        match self {
            Call::Lock(_) => Kind::Mutex,
            Call::Fair(_) => Kind::Fair,
            Call::ReadWrite(_) => Kind::Rw,
            Call::Fenced(_) => Kind::Fenced,
            Call::Semaphore(_) => Kind::Semaphore,
            Call::Permits(_) => Kind::Permits,
            Call::Countdown(_) => Kind::Countdown,
        }
    }

    // What the types of its parts say of it.
    pub(crate) fn check(&self)
        ensures { IsCallOfKind self.now }
    {
        match self {
            Call::Lock(call) => call.check(),
            Call::Fair(call) => call.check(),
            Call::ReadWrite(call) => call.check(),
            Call::Fenced(call) => call.check(),
            Call::Semaphore(call) => call.check(),
            Call::Permits(call) => call.check(),
            Call::Countdown(call) => call.check(),
        }
    }
}
