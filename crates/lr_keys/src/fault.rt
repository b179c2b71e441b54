ghost use Rattle.std.specs.Prelude.{◌≡◌};
ghost use Rattle.lr_keys.specs.declared.fault.KeyFault.TheVariants.{NoMemory};

use std::alloc::AllocError;

/// Why a call of the key space was refused. After any of these nothing has changed.
#[derive(Clone, Copy, Debug, PartialEq, Eq)]
pub enum KeyFault {
    /// The key holds a value of another kind.
    WrongKind,
    /// The sum leaves 64 signed bits.
    Overflow,
    /// The new member would be one more than a key may have.
    TooMany,
    /// There is no memory for a new key or a new member.
    NoMemory,
}

impl From<AllocError> for KeyFault {
    ghost from_gives = { λ _ e. e ≡ NoMemory };

    fn from(_e: AllocError) -> KeyFault {
        KeyFault::NoMemory
    }
}
