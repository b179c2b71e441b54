//! The calls of expirable permits.
ghost use Rattle.std.specs.Prelude.{◌≡◌, ◌≤◌};
ghost use Rattle.lr_expirable.specs.Run.{permit_op};
ghost use Rattle.lr_limits.specs.Limits.{last_moment};
ghost use Rattle.lr_names.specs.Name.{IsName};
ghost use Rattle.lr_server.specs.Done.{IsRun};
ghost use Rattle.lr_model.specs.Answer.{Objects};
ghost use Rattle.lr_names.specs.Owner.{ThreadOfClient};
ghost use Rattle.lr_objects.specs.declared.kinds.Function.TheVariants.{Permits};
ghost use Rattle.lr_expirable.specs.Stands.{PermitsStand};
ghost use Rattle.lr_server.specs.Looks.{would_wait};

use lr_keys::KeySpace;
use lr_names::{Name, Post};
use lr_objects::{PermitCall, PermitFunction, Reply, Want};
use std::alloc::{AllocError, Global};

/// Runs a function of expirable permits, at a moment that isn't before that of the keys.
pub(crate) fn run(
    alloc: Global,
    keys: &mut KeySpace,
    moment: u64,
    name: &Name,
    call: &PermitCall,
) -> Result<(Reply, Option<Post>), AllocError>
    requires name { IsName name.now }
    requires early { moment ≤ last_moment }
    requires in_time { keys.old.moment ≤ moment }
    ensures { IsRun keys.old keys.new moment (permit_op name.now call.now) result }
{
    lr_expirable::run(alloc, keys, moment, name, call)
}

/// Whether a function of expirable permits would have its thread wait, at a moment that isn't before
/// that of the keys: only a try does.
pub(crate) fn would_wait(
    keys: &KeySpace,
    moment: u64,
    want: &Want,
    function: PermitFunction,
) -> bool
    requires { keys.now.moment ≤ moment }
    ensures { (objects : Objects) (owner : ThreadOfClient) → PermitsStand keys.now objects
        → result ≡ would_wait (Permits function) objects moment want.now owner }
{
    match function {
        PermitFunction::Try => lr_expirable::would_wait(keys, moment, &want.name, &want.id),
        PermitFunction::Set | PermitFunction::Release | PermitFunction::Count => false,
    }
}
