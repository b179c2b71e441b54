//! The memory of a hold, which is taken before the moment goes on.
ghost use Rattle.std.specs.Prelude.{◌≡◌, ◌≤◌, None, max, is_some, IsTrue, IsOk, OnOk, OnErr};
ghost use Rattle.lr_keys.specs.KeySpace.{IsPrepared, entry_at, live_entry};
ghost use Rattle.lr_limits.specs.Limits.{last_moment};
ghost use Rattle.lr_names.specs.Owner.{owner_text};

use lr_keys::{KeySpace, ValueKind};
use lr_names::Owner;
use lr_text::Brief;
use std::alloc::{AllocError, Global};

/// Whether the key will be there at the moment, or at that of the keys where that is later.
pub fn is_there_at(keys: &KeySpace, key: &Brief, moment: u64) -> bool
    requires { moment ≤ last_moment }
    ensures { let m = max keys.now.moment moment in
        result ≡ is_some (live_entry m (entry_at keys.now key.now)) }
{
    let left = keys.pttl(key);
    let passing = moment.saturating_sub(keys.moment());
    left == -1 || left > passing as i64
}

/// Takes the memory for a hold of the owner, unless the key will be there at the moment. After an
/// error nothing has changed.
pub fn make_room(
    alloc: Global,
    keys: &mut KeySpace,
    moment: u64,
    key: &Brief,
    owner: &Owner,
) -> Result<(), AllocError>
    requires { moment ≤ last_moment }
    ensures room { let m = max keys.old.moment moment in
        OnOk result (live_entry m (entry_at keys.old key.now) ≡ None
        → IsPrepared keys.new key.now ValueKind.Hash (owner_text owner.now)) }
    ensures entries { entry_at keys.new ≡ entry_at keys.old }
    ensures moment { keys.new.moment ≡ keys.old.moment }
    ensures there { let m = max keys.old.moment moment in
        IsTrue (is_some (live_entry m (entry_at keys.old key.now))) → IsOk result }
    ensures err { OnErr result (keys.new ≡ keys.old) }
{
    if is_there_at(keys, key, moment) {
        return Ok(());
    }
    keys.prepare(alloc, key, ValueKind::Hash, &owner.brief())
}
