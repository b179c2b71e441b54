ghost use Rattle.std.specs.Prelude.{◌≡◌, false};

use crate::home::Home;
use crate::view::View;
use atomic_table::Seat;

/// What a thread goes through a gate with. A pass that is dropped while it has the turn leaves the
/// gate closed for ever.
#[derive(Drop)]
pub struct Pass<V> {
    pub(crate) seat: Seat<Home<V>, View>,
    pub(crate) caller: u64,
    pub(crate) made: u64,
    ghost caller_is: { caller ≡ seat.me.0.caller },
    ghost made_is: { made ≡ seat.me.0.made },
    ghost not_spent: { seat.me.0.is_spent ≡ false },
}
