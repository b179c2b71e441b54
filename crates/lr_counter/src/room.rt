//! The memory of a number, which is taken before anything changes.
ghost use Rattle.std.specs.Prelude.{◌≡◌, [], None, is_some, IsTrue, IsOk, OnOk, OnErr};
ghost use Rattle.lr_keys.specs.KeySpace.{IsPrepared, StaysSame, entry_at};
ghost use Rattle.lr_counter.specs.Step.{KeepsPlans};

use lr_keys::{KeySpace, ValueKind};
use lr_text::Brief;
use std::alloc::{AllocError, Global};

/// Takes the memory for a number under the key, unless the key is there. What memory was taken for
/// at other keys stays. After an error nothing has changed.
pub fn make_room(alloc: Global, keys: &mut KeySpace, key: &Brief) -> Result<(), AllocError>
    ensures room { OnOk result (entry_at keys.old key.now ≡ None
        → IsPrepared keys.new key.now ValueKind.Counter []) }
    ensures stays { StaysSame keys.old keys.new }
    ensures plans { KeepsPlans key.now keys.old keys.new }
    ensures there { IsTrue (is_some (entry_at keys.old key.now)) → IsOk result }
    ensures err { OnErr result (keys.new ≡ keys.old) }
{
    if keys.exists(key) {
        return Ok(());
    }
    keys.prepare(alloc, key, ValueKind::Counter, &Brief::new())
}
