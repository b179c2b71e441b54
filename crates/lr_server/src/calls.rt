//! Functions by the kinds of their objects. An error leaves the keys at the same moment, and they
//! stand for the same objects.
ghost use Rattle.std.specs.Prelude.{◌≤◌};
ghost use Rattle.lr_limits.specs.Limits.{last_moment};
ghost use Rattle.lr_server.specs.Done.{IsRun};

pub(crate) mod countdowns;
mod fair_locks;
mod fenced_locks;
mod mutexes;
pub(crate) mod permits;
pub(crate) mod read_write_locks;
pub(crate) mod semaphores;

use lr_keys::KeySpace;
use lr_names::Post;
use lr_objects::{Call, Op, Reply};
use std::alloc::{AllocError, Global};

/// Runs a function on the keys of its object, at a moment that isn't before theirs.
pub(crate) fn run(
    alloc: Global,
    keys: &mut KeySpace,
    moment: u64,
    op: &Op,
) -> Result<(Reply, Option<Post>), AllocError>
    requires early { moment ≤ last_moment }
    requires in_time { keys.old.moment ≤ moment }
    ensures { IsRun keys.old keys.new moment op.now result }
{
    let name = op.name();
    match &op.call {
        Call::Lock(call) => mutexes::run(alloc, keys, moment, name, call),
        Call::Fair(call) => fair_locks::run(alloc, keys, moment, name, call),
        Call::ReadWrite(call) => read_write_locks::run(alloc, keys, moment, name, call),
        Call::Fenced(call) => fenced_locks::run(alloc, keys, moment, name, call),
        Call::Semaphore(call) => semaphores::run(alloc, keys, moment, name, call),
        Call::Permits(call) => permits::run(alloc, keys, moment, name, call),
        Call::Countdown(call) => countdowns::run(alloc, keys, moment, name, call),
    }
}
