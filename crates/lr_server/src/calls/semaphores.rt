//! The calls of a semaphore.
ghost use Rattle.std.specs.Prelude.{◌≡◌, ◌≤◌, ℕ};
ghost use Rattle.lr_limits.specs.Limits.{last_moment};
ghost use Rattle.lr_names.specs.Name.{IsName};
ghost use Rattle.lr_semaphore.specs.Run.{semaphore_op};
ghost use Rattle.lr_server.specs.Done.{IsRun};
ghost use Rattle.lr_model.specs.Answer.{Objects};
ghost use Rattle.lr_names.specs.Owner.{ThreadOfClient};
ghost use Rattle.lr_objects.specs.Function.{arguments_of};
ghost use Rattle.lr_objects.specs.Want.{HasAmount};
ghost use Rattle.lr_objects.specs.declared.kinds.Function.TheVariants.{Semaphore};
ghost use Rattle.lr_semaphore.specs.Stands.{SemaphoresStand};
ghost use Rattle.lr_server.specs.Looks.{would_wait};

use lr_keys::KeySpace;
use lr_names::{Name, Post};
use lr_objects::{Amount, Reply, SemaphoreCall, SemaphoreFunction, Want};
use std::alloc::{AllocError, Global};

/// Runs a function of a semaphore, at a moment that isn't before that of the keys.
pub(crate) fn run(
    alloc: Global,
    keys: &mut KeySpace,
    moment: u64,
    name: &Name,
    call: &SemaphoreCall,
) -> Result<(Reply, Option<Post>), AllocError>
    requires name { IsName name.now }
    requires early { moment ≤ last_moment }
    requires in_time { keys.old.moment ≤ moment }
    ensures { IsRun keys.old keys.new moment (semaphore_op name.now call.now) result }
{
    lr_semaphore::run(alloc, keys, moment, name, call)
}

/// Whether a function of a semaphore would have its thread wait: only a try does.
pub(crate) fn would_wait(keys: &KeySpace, want: &Want, function: SemaphoreFunction) -> bool
    requires { HasAmount (arguments_of (Semaphore function)) want.now }
    ensures { (objects : Objects) (moment : ℕ) (owner : ThreadOfClient)
        → SemaphoresStand keys.now objects
        → result ≡ would_wait (Semaphore function) objects moment want.now owner }
{
    match function {
        SemaphoreFunction::Try => {
            lr_semaphore::would_wait(keys, &want.name, &Amount::new(want.number))
        }
        SemaphoreFunction::Set | SemaphoreFunction::Release | SemaphoreFunction::Count => false,
    }
}
