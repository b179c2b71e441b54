//! A look at the count of a countdown latch, which changes nothing.
ghost use Rattle.std.specs.Prelude.{◌≡◌, ℕ};
ghost use Rattle.lr_model.specs.Answer.{Objects, reply_of};
ghost use Rattle.lr_objects.specs.Reply.{blocks};
ghost use Rattle.lr_objects.specs.declared.countdown.CountdownCall.TheVariants as calls;
ghost use Rattle.lr_objects.specs.declared.countdown.CountdownFunction.TheVariants as functions;
ghost use Rattle.lr_objects.specs.declared.kinds.Function.TheVariants.{Countdown};
ghost use Rattle.lr_countdown.specs.Run.{countdown_op};
ghost use Rattle.lr_countdown.specs.Stands.{CountdownsStand};

use lr_counter::count_at;
use lr_keys::KeySpace;
use lr_names::{Name, Part, key};

/// Whether one who asks for the count to come to 0 would wait now: as long as it is above that, at
/// any moment.
pub fn would_wait(keys: &KeySpace, name: &Name) -> bool
    ensures { (objects : Objects) (moment : ℕ) → CountdownsStand keys.now objects
        → result ≡ blocks (reply_of objects moment (countdown_op name.now calls.Count))
        (Countdown functions.Count) }
{
    // What the type of the name says of it.
    let _text = name.as_slice();
    count_at(keys, &key(Part::Countdown, name)) > 0
}
