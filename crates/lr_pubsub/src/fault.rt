ghost use Rattle.std.specs.Prelude.{◌≡◌};
ghost use Rattle.lr_pubsub.specs.declared.fault.BoardFault.TheVariants.{NoMemory};

use std::alloc::AllocError;

/// Why a board did nothing. After either of these it is as it was.
#[derive(Clone, Copy, Debug, PartialEq, Eq)]
pub enum BoardFault {
    /// The connection read too slowly: it was dropped, or its outbox takes no acknowledgement more.
    /// It can only be closed.
    Dropped,
    /// There is no memory.
    NoMemory,
}

impl From<AllocError> for BoardFault {
    ghost from_gives = { λ _ e. e ≡ NoMemory };

    fn from(_e: AllocError) -> BoardFault {
        BoardFault::NoMemory
    }
}
