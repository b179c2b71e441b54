ghost use Rattle.std.specs.Prelude.{◌≡◌};
ghost use Rattle.lr_waiting.specs.Begin.{waits};

use lr_objects::{
    CountdownFunction, FairFunction, FencedFunction, Function, LockFunction, PermitFunction,
    ReadWriteFunction, SemaphoreFunction,
};

/// Whether a request for the function may wait.
pub fn waits(function: Function) -> bool
    ensures { result ≡ waits function }
{
    matches!(
        function,
        Function::Lock(LockFunction::Try)
            | Function::Fair(FairFunction::Try)
            | Function::Fenced(FencedFunction::Try)
            | Function::ReadWrite(ReadWriteFunction::Read | ReadWriteFunction::Write)
            | Function::Semaphore(SemaphoreFunction::Try)
            | Function::Permits(PermitFunction::Try)
            | Function::Countdown(CountdownFunction::Count)
    )
}
