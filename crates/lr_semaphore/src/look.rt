//! A look at the number of a semaphore, which changes nothing.
ghost use Rattle.std.specs.Prelude.{◌≡◌, ℕ};
ghost use Rattle.lr_model.specs.Answer.{Objects, reply_of};
ghost use Rattle.lr_objects.specs.Reply.{blocks};
ghost use Rattle.lr_objects.specs.declared.kinds.Function.TheVariants.{Semaphore};
ghost use Rattle.lr_objects.specs.declared.semaphore.SemaphoreCall.TheVariants as calls;
ghost use Rattle.lr_objects.specs.declared.semaphore.SemaphoreFunction.TheVariants as functions;
ghost use Rattle.lr_semaphore.specs.Run.{semaphore_op};
ghost use Rattle.lr_semaphore.specs.Stands.{SemaphoresStand};

use lr_counter::count_at;
use lr_keys::KeySpace;
use lr_names::{Name, Part, key};
use lr_objects::Amount;

/// Whether a try for so many permits would have its thread wait now: as long as fewer are free, at
/// any moment.
pub fn would_wait(keys: &KeySpace, name: &Name, number: &Amount) -> bool
    ensures { (objects : Objects) (moment : ℕ) → SemaphoresStand keys.now objects
        → result ≡ blocks
        (reply_of objects moment (semaphore_op name.now (calls.Try number.now)))
        (Semaphore functions.Try) }
{
    // What the type of the name says of it.
    let _text = name.as_slice();
    count_at(keys, &key(Part::Semaphore, name)) < number.number()
}
