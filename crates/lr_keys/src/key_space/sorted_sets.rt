//! Calls on sorted sets.
ghost use Rattle.std.specs.Prelude.{◌≡◌, ◌≢◌, [], None, true, false, not, length, IsTrue, IfOk, IfErr, IfSome, OnOk, OnErr};
ghost use Rattle.lr_lists.specs.Places.{item_at, range_of};
ghost use Rattle.lr_keys.specs.KeySpace.{Answers, ChangesEntry, IsPrepared, UsesPlan, WritesMember, entry_at, plan_at, zset_at, score_at, seen, found_in, has_member, is_new_member, entry_without_member};

use super::KeySpace;
use crate::addition::Addition;
use crate::fault::KeyFault;
use crate::value_kind::ValueKind;
use lr_sorted::{Members, SortedSet};
use lr_text::Brief;
use std::alloc::Global;

// A member with its score.
fn scored(member: &Brief, score: u64) -> Addition
    ensures { result ≡ Addition.Member member.now score }
{
    Addition::Member {
        member: *member,
        score,
    }
}

impl KeySpace {
    /// Gives a member of the sorted set this score, and says whether it is new. A key that isn't
    /// there becomes a sorted set with no expiry.
    ///
    /// `WrongKind` where the key holds another kind, `TooMany` where a new member would be one more
    /// than a key may have. `NoMemory` comes only for a new member that isn't prepared. After an
    /// error nothing has changed.
    pub fn zadd(
        &mut self,
        alloc: Global,
        key: &Brief,
        member: &Brief,
        score: u64,
    ) -> Result<bool, KeyFault>
        ensures answer { Answers (λ new. new) result
            (is_new_member member.now (zset_at (entry_at self.old key.now))) }
        ensures there { IsTrue (has_member self.old key.now member.now)
            → result ≢ Err KeyFault.NoMemory }
        ensures prepared { IsPrepared self.old key.now ValueKind.Zset member.now
            → result ≢ Err KeyFault.NoMemory }
        ensures written { OnOk result (WritesMember self.old self.new key.now member.now score) }
        ensures plans { let was_there = has_member self.old key.now member.now in
            OnOk result (UsesPlan self.old self.new was_there key.now ValueKind.Zset member.now) }
        ensures moment { self.new.moment ≡ self.old.moment }
        ensures refused { OnErr result (self.new ≡ self.old) }
    {
        if self.zscore(key, member)?.is_some() {
            self.write_member(key, &scored(member, score));
            return Ok(false);
        }
        if !self.takes_member(key) {
            return Err(KeyFault::TooMany);
        }
        self.new_member(alloc, key, &scored(member, score))?;
        Ok(true)
    }

    /// The score of a member of the sorted set, if the member is there. `WrongKind` where the key
    /// holds another kind.
    pub fn zscore(&self, key: &Brief, member: &Brief) -> Result<Option<u64>, KeyFault>
        ensures { result ≡ score_at member.now (entry_at self.now key.now) }
    {
        match self.zset(key)? {
            Some(set) => Ok(set.score(member)),
            None => Ok(None),
        }
    }

    /// The member at a place of the sorted set with its score, if there is one: places count from 0
    /// at the least score, and from -1 at the greatest. `WrongKind` where the key holds another
    /// kind.
    pub fn zindex(&self, key: &Brief, at: i64) -> Result<Option<(Brief, u64)>, KeyFault>
        ensures { result ≡ seen (item_at at) (zset_at (entry_at self.now key.now)) }
    {
        match self.zset(key)? {
            Some(set) => Ok(set.get(at)),
            None => Ok(None),
        }
    }

    /// How many members the sorted set has. `WrongKind` where the key holds another kind.
    pub fn zcard(&self, key: &Brief) -> Result<u64, KeyFault>
        ensures { result ≡ seen length (zset_at (entry_at self.now key.now)) }
    {
        match self.zset(key)? {
            Some(set) => Ok(set.len() as u64),
            None => Ok(0),
        }
    }

    /// The members of the sorted set from one place to another, both in, with their scores. Places
    /// are those of [`zindex`](KeySpace::zindex), and what lies past the ends is cut off.
    /// `WrongKind` where the key holds another kind, `NoMemory` where there is no memory for them.
    pub fn zrange(
        &self,
        alloc: Global,
        key: &Brief,
        start: i64,
        stop: i64,
    ) -> Result<Members, KeyFault>
        ensures { Answers (λ members. members.items) result
            (seen (range_of start stop) (zset_at (entry_at self.now key.now))) }
    {
        match self.zset(key)? {
            Some(set) => Ok(set.range(alloc, start, stop)?),
            None => Ok(Vec::new(alloc)),
        }
    }

    /// Removes a member of the sorted set, and says whether it was there. A sorted set that becomes
    /// empty is removed. `WrongKind` where the key holds another kind.
    pub fn zrem(&mut self, key: &Brief, member: &Brief) -> Result<bool, KeyFault>
        ensures answer { result ≡ found_in (score_at member.now (entry_at self.old key.now)) }
        ensures removed { result ≡ Ok true
            → ChangesEntry self.old self.new key.now (entry_without_member member.now) }
        ensures moment { self.new.moment ≡ self.old.moment }
        ensures prepared { plan_at self.new ≡ plan_at self.old }
        ensures absent { result ≢ Ok true → self.new ≡ self.old }
    {
        if self.zscore(key, member)?.is_none() {
            return Ok(false);
        }
        self.remove_member(key, ValueKind::Zset, member);
        Ok(true)
    }

    // The sorted set at the key, if the key is there.
    fn zset(&self, key: &Brief) -> Result<Option<&SortedSet>, KeyFault>
        ensures some { IfOk result (λ found. IfSome found
            (λ set. zset_at (entry_at self.now key.now) ≡ Ok set.now.members)) }
        ensures none { result ≡ Ok None → zset_at (entry_at self.now key.now) ≡ Ok [] }
        ensures err { IfErr result (λ fault. zset_at (entry_at self.now key.now) ≡ Err fault) }
    {
        match self.slot(key) {
            Some(slot) => Ok(Some(slot.value.zset()?)),
            None => Ok(None),
        }
    }
}
