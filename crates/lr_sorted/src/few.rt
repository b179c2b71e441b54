//! A few members, in a list in order.
ghost use Rattle.std.specs.Prelude.{◌≡◌, [], ◌+◌, ◌<◌, ◌≤◌, length, true, None, Some, is_some, is_none, if◌then◌else◌, IsTrue, ◌↔◌, IfOk, OnOk, IfSome, IfNone};
ghost use Rattle.lr_lists.specs.Places.{item_at, range_of};
ghost use Rattle.lr_sorted.specs.Places.{IsPlaceOf, IsPlaceFor};
ghost use Rattle.lr_sorted.specs.Members.{is_in_order, inserted, score_of, with_score, without_member};

use super::limits::FEW_MEMBERS;
use super::listed::{Members, cut};
use super::order::comes_before;
use lr_lists::place_in;
use lr_text::Brief;
use std::alloc::{AllocError, Global};
use std::marker::Model;

/// A few members and their scores, in order.
#[derive(Drop)]
pub(crate) struct FewMembers {
    members: Vec<(Brief, u64)>,
}

impl Model for FewMembers {
    ghost use Rattle.lr_sorted.specs.Members.{MemberTable};

    ghost Value = { MemberTable };

    ghost use Rattle.lr_sorted.specs.Inside.{few_inside, IsFew};

    ghost view = { few_inside };

    ghost invariant = { IsFew };
}

// The place of a member, if it is there.
fn place_of(members: &[(Brief, u64)], member: &Brief) -> Option<usize>
    ensures some { IfSome result (λ place. IsPlaceOf member.now members.now place) }
    ensures none { IfNone result (score_of member.now members.now ≡ None) }
{
    for (place, other) in members.iter().enumerate() {
        if *member == other.0 {
            return Some(place);
        }
    }
    None
}

// The place where a new member belongs.
fn place_for(members: &[(Brief, u64)], new: &(Brief, u64)) -> usize
    ensures { IsPlaceFor new.now members.now result }
{
    for (place, other) in members.iter().enumerate() {
        if comes_before(&new.0, new.1, &other.0, other.1) {
            return place;
        }
    }
    members.len()
}

impl FewMembers {
    /// No members. It takes no memory yet.
    pub(crate) fn new(alloc: Global) -> Self
        ensures { result.members ≡ [] }
    {
        FewMembers {
            members: Vec::new(alloc),
        }
    }

    /// Makes room for so many more members, with which they are few still.
    pub(crate) fn reserve(&mut self, more: usize) -> Result<(), AllocError>
        requires { length self.old.members + more ≤ FEW_MEMBERS }
        ensures members { self.new.members ≡ self.old.members }
        ensures room { OnOk result (more ≤ self.new.room) }
        ensures kept { self.old.room ≤ self.new.room }
    {
        if self.members.capacity().saturating_sub(self.members.len()) >= more {
            return Ok(());
        }
        let wanted = self.members.len().max(more);
        self.members.reserve_exact(wanted)
    }

    /// The members in order.
    pub(crate) fn as_slice(&self) -> &[(Brief, u64)]
        ensures members { result.now ≡ self.now.members }
        ensures order { is_in_order self.now.members ≡ true }
        ensures few { length self.now.members ≤ FEW_MEMBERS }
    {
        self.members.as_slice()
    }

    /// The member at a place with its score.
    pub(crate) fn get(&self, place: i64) -> Option<(Brief, u64)>
        ensures member { result ≡ item_at place self.now.members }
        ensures order { is_in_order self.now.members ≡ true }
    {
        let place = place_in(place, self.members.len())?;
        Some(self.members[place])
    }

    /// The members from one place to another, both in, with their scores.
    pub(crate) fn range(&self, alloc: Global, start: i64, stop: i64) -> Result<Members, AllocError>
        ensures members { IfOk result (λ m. m.items ≡ range_of start stop self.now.members) }
        ensures order { is_in_order self.now.members ≡ true }
    {
        cut(alloc, self.members.as_slice(), start, stop)
    }

    /// The allocator of the list.
    pub(crate) fn allocator(&self) -> Global {
        *self.members.allocator()
    }

    /// The score of a member.
    pub(crate) fn score(&self, member: &Brief) -> Option<u64>
        ensures score { result ≡ score_of member.now self.now.members }
        ensures order { is_in_order self.now.members ≡ true }
    {
        let place = place_of(self.members.as_slice(), member)?;
        Some(self.members[place].1)
    }

    /// Removes a member, and says whether it was there.
    pub(crate) fn remove(&mut self, member: &Brief) -> bool
        ensures found { result ≡ is_some (score_of member.now self.old.members) }
        ensures members { self.new.members ≡ without_member member.now self.old.members }
        ensures room { self.old.room + (if result then 1 else 0) ≤ self.new.room }
        ensures order { is_in_order self.old.members ≡ true }
    {
        let Some(place) = place_of(self.members.as_slice(), member) else {
            return false;
        };
        self.members.remove(place);
        true
    }

    /// Gives a member this score, and says whether it is new. A new one needs room.
    pub(crate) fn put(&mut self, member: &Brief, score: u64) -> bool
        requires { score_of member.now self.old.members ≡ None → 0 < self.old.room }
        ensures new { result ≡ is_none (score_of member.now self.old.members) }
        ensures members { self.new.members ≡ with_score member.now score self.old.members }
        ensures room { self.old.room ≤ self.new.room + (if result then 1 else 0) }
        ensures order { is_in_order self.old.members ≡ true }
    {
        let was = self.remove(member);
        self.insert((*member, score));
        !was
    }

    // Puts a new member where it belongs, for which there is room.
    fn insert(&mut self, new: (Brief, u64))
        requires room { 0 < self.old.room }
        requires absent { score_of new.0 self.old.members ≡ None }
        ensures members { self.new.members ≡ inserted new self.old.members }
        ensures room { self.old.room ≤ self.new.room + 1 }
    {
        let place = place_for(self.members.as_slice(), &new);
        self.members.insert(place, new).unwrap();
    }
}
