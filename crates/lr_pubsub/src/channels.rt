ghost use Rattle.std.specs.Prelude.{◌≡◌};
ghost use Rattle.lr_model.specs.Board.{same_channel};

use lr_names::Channel;

/// Whether two channels are one.
pub(crate) fn is_same_channel(a: &Channel, b: &Channel) -> bool
    ensures { result ≡ same_channel a.now b.now }
{
    *a == *b
}
