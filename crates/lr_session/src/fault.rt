ghost use Rattle.std.specs.Prelude.{◌≡◌};
ghost use Rattle.lr_session.specs.declared.fault.SessionFault.TheVariants.{NoMemory};

use lr_waiting::Phase;
use std::alloc::AllocError;

/// Why a session did nothing. After either of these it is as it was.
#[derive(Clone, Copy, Debug, PartialEq, Eq)]
pub enum SessionFault {
    /// The thread is in this phase, in which the step doesn't apply.
    NotNow(Phase),
    /// There is no memory.
    NoMemory,
}

impl From<AllocError> for SessionFault {
    ghost from_gives = { λ _ e. e ≡ NoMemory };

    fn from(_e: AllocError) -> SessionFault {
        SessionFault::NoMemory
    }
}
