//! What of the keys is seen at a moment that may be later than theirs.
ghost use Rattle.std.specs.Prelude.{◌≡◌, ◌≤◌, IfSome, IfNone, None};
ghost use Rattle.lr_keys.specs.KeySpace.{entry_at, hash_at, time_left, zset_at};
ghost use Rattle.lr_looks.specs.Looks.{number_of, score_in};
ghost use Rattle.lr_looks.specs.Seen.{seen_entry};

use lr_keys::{KeyFault, KeySpace};
use lr_text::{Brief, Text};

/// The milliseconds that are left of a key at a moment that isn't before that of the keys: -2 where
/// it is absent, -1 where it has no expiry, and 0 where it is gone by then.
pub(crate) fn time_left(keys: &KeySpace, moment: u64, key: &Brief) -> i64
    requires { keys.now.moment ≤ moment }
    ensures { result ≡ time_left moment (entry_at keys.now key.now) }
{
    let left = keys.pttl(key);
    if left < 0 {
        return left;
    }
    let passed = moment - keys.moment();
    (left as u64).saturating_sub(passed) as i64
}

/// The key under which to look for what stands at this one at a moment that isn't before that of
/// the keys. None where nothing does, as the key is too long or gone by then.
pub(crate) fn find(keys: &KeySpace, moment: u64, key: &Text) -> Option<Brief>
    requires { keys.now.moment ≤ moment }
    ensures some { IfSome result
        (λ found. seen_entry keys.now moment key.now ≡ entry_at keys.now found) }
    ensures none { IfNone result (seen_entry keys.now moment key.now ≡ None) }
{
    let key = Brief::of(key.as_slice())?;
    if time_left(keys, moment, &key) == 0 {
        return None;
    }
    Some(key)
}

/// The number of a field of a hash, if the field is there. `WrongKind` where the key holds another
/// kind of value, however long the field is.
pub(crate) fn number_of(keys: &KeySpace, key: &Brief, field: &Text) -> Result<Option<i64>, KeyFault>
    ensures { result ≡ number_of field.now (hash_at (entry_at keys.now key.now)) }
{
    if let Some(field) = Brief::of(field.as_slice()) {
        return keys.hget(key, &field);
    }
    match keys.hget(key, &Brief::new()) {
        Ok(_) => Ok(None),
        Err(fault) => Err(fault),
    }
}

/// The score of a member of a sorted set, if the member is there. `WrongKind` where the key holds
/// another kind of value, however long the member is.
pub(crate) fn score_in(keys: &KeySpace, key: &Brief, member: &Text) -> Result<Option<u64>, KeyFault>
    ensures { result ≡ score_in member.now (zset_at (entry_at keys.now key.now)) }
{
    if let Some(member) = Brief::of(member.as_slice()) {
        return keys.zscore(key, &member);
    }
    match keys.zscore(key, &Brief::new()) {
        Ok(_) => Ok(None),
        Err(fault) => Err(fault),
    }
}
