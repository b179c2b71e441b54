//! Looks at the keys by the kinds of their objects. A look changes nothing and takes no memory.
ghost use Rattle.std.specs.Prelude.{◌≡◌, ◌≤◌, false};
ghost use Rattle.lr_limits.specs.Limits.{watchdog_lease};
ghost use Rattle.lr_model.specs.Answer.{Objects};
ghost use Rattle.lr_names.specs.Channel.{channel_wakes};
ghost use Rattle.lr_names.specs.declared.kind.Wakes.TheVariants.{All};
ghost use Rattle.lr_objects.specs.Function.{arguments_of};
ghost use Rattle.lr_objects.specs.Op.{kind_of};
ghost use Rattle.lr_objects.specs.Want.{HasAmount, op_of};
ghost use Rattle.lr_server.specs.Looks.{would_wait};
ghost use Rattle.lr_server.specs.Stands.{KeysStand};

use crate::calls::{countdowns, permits, read_write_locks, semaphores};
use lr_keys::KeySpace;
use lr_names::Owner;
use lr_objects::{Function, Want};

/// Whether what an owner wants would have it wait at a moment that isn't before that of the keys, with
/// the lease of the watchdog: for the kinds whose messages wake all who wait.
pub(crate) fn would_wait(keys: &KeySpace, moment: u64, want: &Want, owner: &Owner) -> bool
    requires in_time { keys.now.moment ≤ moment }
    requires amount { HasAmount (arguments_of want.now.function) want.now }
    requires wakes_all { let op = op_of want.now owner.now watchdog_lease false in
        channel_wakes (kind_of op) ≡ All }
    ensures { (objects : Objects) → KeysStand keys.now objects
        → result ≡ would_wait want.now.function objects moment want.now owner.now }
{
    match want.function {
        Function::ReadWrite(f) => read_write_locks::would_wait(keys, moment, want, owner, f),
        Function::Semaphore(f) => semaphores::would_wait(keys, want, f),
        Function::Permits(f) => permits::would_wait(keys, moment, want, f),
        Function::Countdown(f) => countdowns::would_wait(keys, want, f),
        // A message of these wakes one thread.
        Function::Lock(_) => unreachable!(),
        Function::Fair(_) => unreachable!(),
        Function::Fenced(_) => unreachable!(),
    }
}
