use crate::served::Served;
use lr_turnstile::Kept;

impl Kept for Served {
    ghost use Rattle.std.specs.Prelude.{◌≡◌};
    ghost use Rattle.lr_service.specs.Served.{IsServed};

    ghost stands = { λ served base entries. (base ≡ 0) × IsServed served.state entries };
}
