//! The calls of a countdown latch.
ghost use Rattle.std.specs.Prelude.{◌≡◌, ◌≤◌, ℕ};
ghost use Rattle.lr_limits.specs.Limits.{last_moment};
ghost use Rattle.lr_names.specs.Name.{IsName};
ghost use Rattle.lr_countdown.specs.Run.{countdown_op};
ghost use Rattle.lr_server.specs.Done.{IsRun};
ghost use Rattle.lr_model.specs.Answer.{Objects};
ghost use Rattle.lr_names.specs.Owner.{ThreadOfClient};
ghost use Rattle.lr_objects.specs.declared.kinds.Function.TheVariants.{Countdown};
ghost use Rattle.lr_countdown.specs.Stands.{CountdownsStand};
ghost use Rattle.lr_server.specs.Looks.{would_wait};

use lr_keys::KeySpace;
use lr_names::{Name, Post};
use lr_objects::{CountdownCall, CountdownFunction, Reply, Want};
use std::alloc::{AllocError, Global};

/// Runs a function of a countdown latch, at a moment that isn't before that of the keys.
pub(crate) fn run(
    alloc: Global,
    keys: &mut KeySpace,
    moment: u64,
    name: &Name,
    call: &CountdownCall,
) -> Result<(Reply, Option<Post>), AllocError>
    requires name { IsName name.now }
    requires early { moment ≤ last_moment }
    requires in_time { keys.old.moment ≤ moment }
    ensures { IsRun keys.old keys.new moment (countdown_op name.now call.now) result }
{
    lr_countdown::run(alloc, keys, moment, name, call)
}

/// Whether a function of a countdown latch would have its thread wait: only one that asks for the
/// count does.
pub(crate) fn would_wait(keys: &KeySpace, want: &Want, function: CountdownFunction) -> bool
    ensures { (objects : Objects) (moment : ℕ) (owner : ThreadOfClient)
        → CountdownsStand keys.now objects
        → result ≡ would_wait (Countdown function) objects moment want.now owner }
{
    match function {
        CountdownFunction::Count => lr_countdown::would_wait(keys, &want.name),
        CountdownFunction::Set | CountdownFunction::Down => false,
    }
}
