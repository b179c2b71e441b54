ghost use Rattle.std.specs.Prelude.{◌≡◌};
ghost use Rattle.lr_model.specs.Moment.{is_lease};

use lr_limits::LONGEST_LEASE;

/// Whether a function takes this lease: one of 1 to 86,400,000,000 milliseconds.
pub fn is_lease(millis: u64) -> bool
    ensures { result ≡ is_lease millis }
{
    (1..=LONGEST_LEASE).contains(&millis)
}
