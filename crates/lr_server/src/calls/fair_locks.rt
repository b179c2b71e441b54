//! The calls of a fair lock.
ghost use Rattle.std.specs.Prelude.{◌≤◌};
ghost use Rattle.lr_limits.specs.Limits.{last_moment};
ghost use Rattle.lr_names.specs.Name.{IsName};
ghost use Rattle.lr_fair.specs.Run.{fair_op};
ghost use Rattle.lr_server.specs.Done.{IsRun};

use lr_keys::KeySpace;
use lr_names::{Name, Post};
use lr_objects::{FairCall, Reply};
use std::alloc::{AllocError, Global};

/// Runs a function of a fair lock, at a moment that isn't before that of the keys.
pub(crate) fn run(
    alloc: Global,
    keys: &mut KeySpace,
    moment: u64,
    name: &Name,
    call: &FairCall,
) -> Result<(Reply, Option<Post>), AllocError>
    requires name { IsName name.now }
    requires early { moment ≤ last_moment }
    requires in_time { keys.old.moment ≤ moment }
    ensures { IsRun keys.old keys.new moment (fair_op name.now call.now) result }
{
    // What the type of the keys says of them.
    let _moment = keys.moment();
    lr_fair::run(alloc, keys, moment, name, call)
}
