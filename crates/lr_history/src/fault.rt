ghost use Rattle.std.specs.Prelude.{◌≡◌};
ghost use Rattle.lr_history.specs.declared.fault.HistoryFault.TheVariants.{NoMemory};

use std::alloc::AllocError;

/// Why a history took no entry. After either of these it is as it was.
#[derive(Clone, Copy, Debug, PartialEq, Eq)]
pub enum HistoryFault {
    /// It has as many entries as it may, and the act isn't a close.
    HistoryFull,
    /// There is no memory for another segment.
    NoMemory,
}

impl From<AllocError> for HistoryFault {
    ghost from_gives = { λ _ e. e ≡ NoMemory };

    fn from(_e: AllocError) -> HistoryFault {
        HistoryFault::NoMemory
    }
}
