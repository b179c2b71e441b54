ghost use Rattle.std.specs.Prelude.{◌≡◌};
ghost use Rattle.lr_replies.specs.Roles.{role_of, lock_role, fair_role, read_write_role, fenced_role, semaphore_role, permit_role, countdown_role};

use lr_objects::{
    CountdownFunction, FairFunction, FencedFunction, Function, LockFunction, PermitFunction,
    ReadWriteFunction, SemaphoreFunction,
};

// What a function does, as far as its replies tell.
#[derive(Clone, Copy)]
pub enum Role {
    // take a lock whose holds have no other limit than their depth
    Try,
    // take a lock of which there may be too many holds or places
    LimitedTry,
    // take a lock, and get a token
    TokenTry,
    // take permits that are only counted
    CountedTry,
    // take a permit under an id
    PermitTry,
    // give a hold of a lock back
    Unlock,
    // make a lease longer
    Renew,
    // take a lock away
    Force,
    // give up a place
    Leave,
    // set a number once
    Set,
    // give permits back that are only counted
    CountedRelease,
    // give the permit of an id back
    PermitRelease,
    // tell a number
    Count,
}

impl Role {
    // What a function does.
    pub fn of(function: Function) -> Role
        ensures { result ≡ role_of function }
    {
        match function {
            Function::Lock(function) => Role::of_lock(function),
            Function::Fair(function) => Role::of_fair(function),
            Function::ReadWrite(function) => Role::of_read_write(function),
            Function::Fenced(function) => Role::of_fenced(function),
            Function::Semaphore(function) => Role::of_semaphore(function),
            Function::Permits(function) => Role::of_permits(function),
            Function::Countdown(function) => Role::of_countdown(function),
        }
    }

    fn of_lock(function: LockFunction) -> Role
        ensures { result ≡ lock_role function }
    {
        match function {
            LockFunction::Try => Role::Try,
            LockFunction::Unlock => Role::Unlock,
            LockFunction::Renew => Role::Renew,
            LockFunction::Force => Role::Force,
        }
    }

    fn of_fair(function: FairFunction) -> Role
        ensures { result ≡ fair_role function }
    {
        match function {
            FairFunction::Try => Role::LimitedTry,
            FairFunction::Unlock => Role::Unlock,
            FairFunction::Leave => Role::Leave,
            FairFunction::Renew => Role::Renew,
        }
    }

    fn of_read_write(function: ReadWriteFunction) -> Role
        ensures { result ≡ read_write_role function }
    {
        match function {
            ReadWriteFunction::Read => Role::LimitedTry,
            ReadWriteFunction::Write => Role::Try,
            ReadWriteFunction::UnlockRead | ReadWriteFunction::UnlockWrite => Role::Unlock,
            ReadWriteFunction::Renew => Role::Renew,
        }
    }

    fn of_fenced(function: FencedFunction) -> Role
        ensures { result ≡ fenced_role function }
    {
        match function {
            FencedFunction::Try => Role::TokenTry,
            FencedFunction::Unlock => Role::Unlock,
            FencedFunction::Renew => Role::Renew,
            FencedFunction::Token => Role::Count,
        }
    }

    fn of_semaphore(function: SemaphoreFunction) -> Role
        ensures { result ≡ semaphore_role function }
    {
        match function {
            SemaphoreFunction::Set => Role::Set,
            SemaphoreFunction::Try => Role::CountedTry,
            SemaphoreFunction::Release => Role::CountedRelease,
            SemaphoreFunction::Count => Role::Count,
        }
    }

    fn of_permits(function: PermitFunction) -> Role
        ensures { result ≡ permit_role function }
    {
        match function {
            PermitFunction::Set => Role::Set,
            PermitFunction::Try => Role::PermitTry,
            PermitFunction::Release => Role::PermitRelease,
            PermitFunction::Count => Role::Count,
        }
    }

    fn of_countdown(function: CountdownFunction) -> Role
        ensures { result ≡ countdown_role function }
    {
        match function {
            CountdownFunction::Set => Role::Set,
            CountdownFunction::Down | CountdownFunction::Count => Role::Count,
        }
    }
}
