//! Many members, in a table, with tournaments for the first and the last.
ghost use Rattle.std.specs.Prelude.{◌≡◌, [], ◌+◌, ◌<◌, ◌≤◌, length, true, None, is_some, is_none, if◌then◌else◌, slice_get, pos, negsuc, IfOk, OnOk};
ghost use Rattle.lr_lists.specs.Places.{item_at, range_of};
ghost use Rattle.lr_sorted.specs.Members.{is_in_order, score_of, with_score, without_member};

use super::limits::{FEW_MEMBERS, MOST_PLACES};
use super::listed::{Members, cut, in_order};
use super::scores::{Scores, entry, put_score, take_score};
use super::select::nth;
use super::tournament::{final_winner, mend, tournament};
use indexmap::IndexMap;
use lr_lists::place_in;
use lr_text::Brief;
use std::alloc::{AllocError, Global};
use std::marker::Model;

/// Members and their scores in any order, with a tournament for each end.
#[derive(Drop)]
pub(crate) struct ManyMembers {
    scores: Scores,
    least: Vec<u32>,
    greatest: Vec<u32>,
}

impl Model for ManyMembers {
    ghost use Rattle.lr_sorted.specs.Members.{MemberTable};

    ghost Value = { MemberTable };

    ghost use Rattle.lr_sorted.specs.Inside.{many_inside, IsMany};

    ghost view = { many_inside };

    ghost invariant = { IsMany };
}

impl ManyMembers {
    /// No members, and room for so many.
    pub(crate) fn with_room(alloc: Global, places: usize) -> Result<Self, AllocError>
        requires some { 1 ≤ places }
        requires few { places ≤ MOST_PLACES }
        ensures none { IfOk result (λ m. m.members ≡ []) }
        ensures room { IfOk result (λ m. places ≤ m.room) }
    {
        let scores = IndexMap::with_capacity(alloc, places)?;
        let least = tournament(alloc, &scores, false, places)?;
        let greatest = tournament(alloc, &scores, true, places)?;
        Ok(ManyMembers {
            scores,
            least,
            greatest,
        })
    }

    /// These members, and room for one more.
    pub(crate) fn of(alloc: Global, members: &[(Brief, u64)]) -> Result<Self, AllocError>
        requires order { is_in_order members.now ≡ true }
        requires few { length members.now ≤ FEW_MEMBERS }
        ensures members { IfOk result (λ m. m.members ≡ members.now) }
        ensures room { IfOk result (λ m. 0 < m.room) }
    {
        let mut many = ManyMembers::with_room(alloc, 2 * FEW_MEMBERS)?;
        for place in 0..members.len() {
            let (member, score) = &members[place];
            many.put(member, *score);
        }
        Ok(many)
    }

    /// Makes room for so many more members. A growth gives half as many places as there are.
    pub(crate) fn reserve(&mut self, more: usize) -> Result<(), AllocError>
        ensures members { self.new.members ≡ self.old.members }
        ensures room { OnOk result (more ≤ self.new.room) }
        ensures kept { self.old.room ≤ self.new.room }
    {
        self.scores.reserve(more)?;
        let len = self.scores.len();
        if more <= self.least.len() - len && more <= self.greatest.len() - len {
            return Ok(());
        }
        if len >= MOST_PLACES / 2 || more >= MOST_PLACES / 2 {
            return Err(AllocError);
        }
        let places = len + (len / 2 + 1).max(more);
        let alloc = *self.least.allocator();
        let least = tournament(alloc, &self.scores, false, places)?;
        let greatest = tournament(alloc, &self.scores, true, places)?;
        self.least = least;
        self.greatest = greatest;
        Ok(())
    }

    /// How many members there are.
    pub(crate) fn len(&self) -> usize
        ensures len { result ≡ length self.now.members }
        ensures order { is_in_order self.now.members ≡ true }
    {
        self.scores.len()
    }

    /// The score of a member.
    pub(crate) fn score(&self, member: &Brief) -> Option<u64>
        ensures score { result ≡ score_of member.now self.now.members }
        ensures order { is_in_order self.now.members ≡ true }
    {
        let _count = self.scores.len();
        self.scores.get(member).copied()
    }

    /// Gives a member this score, and says whether it is new. A new one needs room.
    pub(crate) fn put(&mut self, member: &Brief, score: u64) -> bool
        requires { score_of member.now self.old.members ≡ None → 0 < self.old.room }
        ensures new { result ≡ is_none (score_of member.now self.old.members) }
        ensures members { self.new.members ≡ with_score member.now score self.old.members }
        ensures room { self.old.room ≤ self.new.room + (if result then 1 else 0) }
        ensures order { is_in_order self.old.members ≡ true }
    {
        let _count = self.scores.len();
        let (place, new) = put_score(&mut self.scores, member, score);
        mend(&mut self.least, &self.scores, false, place, place);
        mend(&mut self.greatest, &self.scores, true, place, place);
        new
    }

    /// Removes a member, and says whether it was there. The last of the table takes its place.
    pub(crate) fn remove(&mut self, member: &Brief) -> bool
        ensures found { result ≡ is_some (score_of member.now self.old.members) }
        ensures members { self.new.members ≡ without_member member.now self.old.members }
        ensures room { self.old.room ≤ self.new.room }
        ensures order { is_in_order self.old.members ≡ true }
    {
        let Some(place) = take_score(&mut self.scores, member) else {
            return false;
        };
        let last = self.scores.len();
        mend(&mut self.least, &self.scores, false, place, last);
        mend(&mut self.greatest, &self.scores, true, place, last);
        true
    }

    /// The member at a place with its score. The two ends are at hand, and others cost several
    /// times the number of members.
    pub(crate) fn get(&self, place: i64) -> Option<(Brief, u64)>
        ensures member { result ≡ item_at place self.now.members }
        ensures order { is_in_order self.now.members ≡ true }
    {
        let place = place_in(place, self.len())?;
        self.at(place)
    }

    // The member at a place that is counted from the front.
    fn at(&self, place: usize) -> Option<(Brief, u64)>
        requires { place < length self.now.members }
        ensures { result ≡ slice_get self.now.members place }
    {
        if place == 0 {
            return self.first();
        }
        let end = self.len() - 1;
        if place == end {
            return self.last();
        }
        self.middle(place)
    }

    // The same, by a search of the table.
    fn middle(&self, place: usize) -> Option<(Brief, u64)>
        requires { place < length self.now.members }
        ensures { result ≡ slice_get self.now.members place }
    {
        entry(&self.scores, nth(&self.scores, place))
    }

    /// The members from one place to another, both in, with their scores.
    pub(crate) fn range(&self, alloc: Global, start: i64, stop: i64) -> Result<Members, AllocError>
        ensures members { IfOk result (λ m. m.items ≡ range_of start stop self.now.members) }
        ensures order { is_in_order self.now.members ≡ true }
    {
        let _count = self.len();
        let members = in_order(alloc, &self.scores)?;
        cut(alloc, members.as_slice(), start, stop)
    }

    /// The first member with its score.
    pub(crate) fn first(&self) -> Option<(Brief, u64)>
        ensures { result ≡ item_at (pos 0) self.now.members }
    {
        entry(&self.scores, final_winner(&self.least))
    }

    /// The last member with its score.
    pub(crate) fn last(&self) -> Option<(Brief, u64)>
        ensures { result ≡ item_at (negsuc 0) self.now.members }
    {
        entry(&self.scores, final_winner(&self.greatest))
    }
}
