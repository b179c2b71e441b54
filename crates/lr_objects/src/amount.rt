ghost use Rattle.std.specs.Prelude.{◌≡◌};
ghost use Rattle.lr_objects.specs.Amount.{IsAmount};

use std::marker::Model;

/// A number of permits or counts that a call asks for: 1 to 1,000,000,000.
#[derive(Clone, Copy, Debug, PartialEq, Eq)]
pub struct Amount {
    number: u64,
}

impl Model for Amount {
    ghost use Rattle.std.specs.Prelude.{ℕ};
    ghost use Rattle.lr_objects.specs.Amount.{IsAmount};

    ghost Value = { ℕ };

    ghost view = { λ a. a.number };

    ghost invariant = { λ a. IsAmount a.number };

    ghost inverse = { λ number. record { number = number } };
}

impl Amount {
    /// So many.
    pub fn new(number: u64) -> Self
        requires { IsAmount number }
        ensures { result ≡ number }
    {
        Amount { number }
    }

    /// The number.
    pub fn number(&self) -> u64
        ensures value { result ≡ self.now }
        ensures amount { IsAmount result }
    {
        self.number
    }
}
