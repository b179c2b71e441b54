ghost use Rattle.std.specs.Prelude.{◌≡◌};

use lr_turnstile::Kept;

/// So many rounds take about a microsecond.
const ROUNDS: u32 = 1_000;

/// What the threads take turns with: how many turns were taken, and a number that each scrambles.
#[derive(Drop)]
pub struct Tally {
    pub turns: u64,
    pub noise: u64,
}

impl Kept for Tally {
    ghost use Rattle.std.specs.Prelude.{◌≡◌, length};

    ghost stands = { λ tally base entries. tally.turns ≡ length entries };
}

/// The tally before the first turn.
pub fn first_tally() -> Tally
    ensures { result.turns ≡ 0 }
{
    Tally {
        turns: 0,
        noise: 88_172_645_463_325_252,
    }
}

/// What a turn makes of the noise.
pub fn scrambled(noise: u64) -> u64 {
    let mut x = noise;
    for _ in 0..ROUNDS {
        x ^= x << 13;
        x ^= x >> 7;
        x ^= x << 17;
    }
    x
}
