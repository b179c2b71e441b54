ghost use Rattle.std.specs.Prelude.{◌≡◌};
ghost use Rattle.lr_frames.specs.Said.{call_said, lock_said, fair_said, read_write_said, fenced_said, semaphore_said, permit_said, countdown_said, take_function, unlock_function};
ghost use Rattle.lr_frames.specs.OpWords.{IsSaid};

use crate::given::Given;
use lr_objects::{
    Access, Call, CountdownCall, CountdownFunction, FairCall, FairFunction, FencedCall,
    FencedFunction, Function, LockCall, LockFunction, Op, PermitCall, PermitFunction,
    ReadWriteCall, ReadWriteFunction, SemaphoreCall, SemaphoreFunction,
};

/// A call as a request tells it: the function, and what it is given beside the object.
#[derive(Clone, Copy)]
pub struct Said {
    /// The function.
    pub function: Function,
    /// What it is given.
    pub given: Given,
}

impl Said {
    /// How this call is told.
    pub fn of(call: &Call) -> Said
        ensures { result ≡ call_said call.now }
    {
        match call {
            Call::Lock(call) => lock(call),
            Call::Fair(call) => fair(call),
            Call::ReadWrite(call) => read_write(call),
            Call::Fenced(call) => fenced(call),
            Call::Semaphore(call) => semaphore(call),
            Call::Permits(call) => permits(call),
            Call::Countdown(call) => countdown(call),
        }
    }
}

/// What the types of its parts say of a call: nothing is done here.
pub fn check_op(op: &Op)
    ensures { IsSaid op.now }
{
    let _name = op.name();
    let _said = Said::of(&op.call);
}

fn lock(call: &LockCall) -> Said
    ensures { result ≡ lock_said call.now }
{
    let (function, given) = match call {
        LockCall::Try { owner, lease } => (LockFunction::Try, Given::of_lease(owner, *lease)),
        LockCall::Unlock { owner, rest } => (LockFunction::Unlock, Given::of_lease(owner, *rest)),
        LockCall::Renew { owner, lease } => (LockFunction::Renew, Given::of_lease(owner, *lease)),
        LockCall::Force => (LockFunction::Force, Given::nothing()),
    };
    Said {
        function: Function::Lock(function),
        given,
    }
}

fn fair(call: &FairCall) -> Said
    ensures { result ≡ fair_said call.now }
{
    let (function, given) = match call {
        FairCall::Try {
            owner,
            lease,
            queue,
        } => {
            let given = Given {
                queue: *queue,
                ..Given::of_lease(owner, *lease)
            };
            (FairFunction::Try, given)
        }
        FairCall::Unlock { owner, rest } => (FairFunction::Unlock, Given::of_lease(owner, *rest)),
        FairCall::Leave { owner } => (FairFunction::Leave, Given::of_owner(owner)),
        FairCall::Renew { owner, lease } => (FairFunction::Renew, Given::of_lease(owner, *lease)),
    };
    Said {
        function: Function::Fair(function),
        given,
    }
}

fn read_write(call: &ReadWriteCall) -> Said
    ensures { result ≡ read_write_said call.now }
{
    let (function, given) = match call {
        ReadWriteCall::Take {
            access,
            owner,
            lease,
        } => (take(*access), Given::of_lease(owner, *lease)),
        ReadWriteCall::Unlock {
            access,
            owner,
            rest,
        } => (unlock(*access), Given::of_lease(owner, *rest)),
        ReadWriteCall::Renew {
            access,
            owner,
            lease,
        } => {
            let given = Given {
                access: *access,
                ..Given::of_lease(owner, *lease)
            };
            (ReadWriteFunction::Renew, given)
        }
    };
    Said {
        function: Function::ReadWrite(function),
        given,
    }
}

fn take(access: Access) -> ReadWriteFunction
    ensures { result ≡ take_function access }
{
    match access {
        Access::Read => ReadWriteFunction::Read,
        Access::Write => ReadWriteFunction::Write,
    }
}

fn unlock(access: Access) -> ReadWriteFunction
    ensures { result ≡ unlock_function access }
{
    match access {
        Access::Read => ReadWriteFunction::UnlockRead,
        Access::Write => ReadWriteFunction::UnlockWrite,
    }
}

fn fenced(call: &FencedCall) -> Said
    ensures { result ≡ fenced_said call.now }
{
    let (function, given) = match call {
        FencedCall::Try { owner, lease } => (FencedFunction::Try, Given::of_lease(owner, *lease)),
        FencedCall::Unlock { owner, rest } => {
            (FencedFunction::Unlock, Given::of_lease(owner, *rest))
        }
        FencedCall::Renew { owner, lease } => {
            (FencedFunction::Renew, Given::of_lease(owner, *lease))
        }
        FencedCall::Token => (FencedFunction::Token, Given::nothing()),
    };
    Said {
        function: Function::Fenced(function),
        given,
    }
}

fn semaphore(call: &SemaphoreCall) -> Said
    ensures { result ≡ semaphore_said call.now }
{
    let (function, given) = match call {
        SemaphoreCall::Set { number } => (SemaphoreFunction::Set, Given::of_number(*number)),
        SemaphoreCall::Try { number } => (SemaphoreFunction::Try, Given::of_number(*number)),
        SemaphoreCall::Release { number } => {
            (SemaphoreFunction::Release, Given::of_number(*number))
        }
        SemaphoreCall::Count => (SemaphoreFunction::Count, Given::nothing()),
    };
    Said {
        function: Function::Semaphore(function),
        given,
    }
}

fn permits(call: &PermitCall) -> Said
    ensures { result ≡ permit_said call.now }
{
    let (function, given) = match call {
        PermitCall::Set { number } => (PermitFunction::Set, Given::of_number(*number)),
        PermitCall::Try { id, lease } => (PermitFunction::Try, Given::of_id(id, *lease)),
        PermitCall::Release { id } => (PermitFunction::Release, Given::of_id(id, 0)),
        PermitCall::Count => (PermitFunction::Count, Given::nothing()),
    };
    Said {
        function: Function::Permits(function),
        given,
    }
}

fn countdown(call: &CountdownCall) -> Said
    ensures { result ≡ countdown_said call.now }
{
    let (function, given) = match call {
        CountdownCall::Set { number } => (CountdownFunction::Set, Given::of_number(*number)),
        CountdownCall::Down => (CountdownFunction::Down, Given::nothing()),
        CountdownCall::Count => (CountdownFunction::Count, Given::nothing()),
    };
    Said {
        function: Function::Countdown(function),
        given,
    }
}
