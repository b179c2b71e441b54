//! The calls of a read-write lock.
ghost use Rattle.std.specs.Prelude.{◌≡◌, ◌≤◌};
ghost use Rattle.lr_limits.specs.Limits.{last_moment};
ghost use Rattle.lr_names.specs.Name.{IsName};
ghost use Rattle.lr_rw.specs.Run.{read_write_op};
ghost use Rattle.lr_server.specs.Done.{IsRun};
ghost use Rattle.lr_model.specs.Answer.{Objects};
ghost use Rattle.lr_objects.specs.declared.kinds.Function.TheVariants.{ReadWrite};
ghost use Rattle.lr_rw.specs.Stands.{ReadWriteLocksStand};
ghost use Rattle.lr_server.specs.Looks.{would_wait};

use lr_keys::KeySpace;
use lr_names::{Name, Owner, Post};
use lr_objects::{Access, ReadWriteCall, ReadWriteFunction, Reply, Want};
use std::alloc::{AllocError, Global};

/// Runs a function of a read-write lock, at a moment that isn't before that of the keys.
pub(crate) fn run(
    alloc: Global,
    keys: &mut KeySpace,
    moment: u64,
    name: &Name,
    call: &ReadWriteCall,
) -> Result<(Reply, Option<Post>), AllocError>
    requires name { IsName name.now }
    requires early { moment ≤ last_moment }
    requires in_time { keys.old.moment ≤ moment }
    ensures { IsRun keys.old keys.new moment (read_write_op name.now call.now) result }
{
    // What the type of the keys says of them.
    let _moment = keys.moment();
    lr_rw::run(alloc, keys, moment, name, call)
}

/// Whether a function of a read-write lock would have its owner wait, at a moment that isn't before
/// that of the keys: only taking the lock does.
pub(crate) fn would_wait(
    keys: &KeySpace,
    moment: u64,
    want: &Want,
    owner: &Owner,
    function: ReadWriteFunction,
) -> bool
    requires { keys.now.moment ≤ moment }
    ensures { (objects : Objects) → ReadWriteLocksStand keys.now objects
        → result ≡ would_wait (ReadWrite function) objects moment want.now owner.now }
{
    match function {
        ReadWriteFunction::Read => {
            lr_rw::would_wait(keys, moment, &want.name, Access::Read, owner)
        }
        ReadWriteFunction::Write => {
            lr_rw::would_wait(keys, moment, &want.name, Access::Write, owner)
        }
        ReadWriteFunction::UnlockRead | ReadWriteFunction::UnlockWrite | ReadWriteFunction::Renew =>
            false,
    }
}
