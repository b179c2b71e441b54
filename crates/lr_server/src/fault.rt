ghost use Rattle.std.specs.Prelude.{◌≡◌};
ghost use Rattle.lr_server.specs.declared.fault.StepFault.TheVariants.{NoMemory};

use std::alloc::AllocError;

/// Why the server did nothing. After any of these it is as it was.
#[derive(Clone, Copy, Debug, PartialEq, Eq)]
pub enum StepFault {
    /// 256 connections are open.
    TooManyConnections,
    /// The history has 2,000,000 entries or more, and takes only closes.
    HistoryFull,
    /// The connection read too slowly: it was dropped, or its outbox takes no acknowledgement more.
    Dropped,
    /// There is no memory.
    NoMemory,
}

impl From<AllocError> for StepFault {
    ghost from_gives = { λ _ e. e ≡ NoMemory };

    fn from(_e: AllocError) -> StepFault {
        StepFault::NoMemory
    }
}
