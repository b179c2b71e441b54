ghost use Rattle.std.specs.Prelude.{◌≡◌, [], ◌+◌, ◌<◌, ◌≤◌, length, pos, negsuc, true, None, is_some, is_none, if◌then◌else◌, IsTrue, ◌↔◌, IfOk, OnOk};
ghost use Rattle.lr_lists.specs.Places.{item_at, range_of};
ghost use Rattle.lr_sorted.specs.Members.{is_in_order, score_of, with_score, without_member};

use super::few::FewMembers;
use super::limits::FEW_MEMBERS;
use super::listed::Members;
use super::many::ManyMembers;
use lr_text::Brief;
use std::alloc::{AllocError, Global};
use std::marker::Model;

/// How the members are kept.
#[derive(Drop)]
enum Form {
    Few(FewMembers),
    /// Once there were more than a few.
    Many(Box<ManyMembers>),
}

/// Members with scores, of which the first, the last and each score are at hand.
#[derive(Drop)]
pub struct SortedSet {
    form: Form,
}

impl Model for SortedSet {
    ghost use Rattle.lr_sorted.specs.Members.{MemberTable};

    ghost Value = { MemberTable };

    ghost use Rattle.lr_sorted.specs.Set.{set_inside};

    ghost view = { set_inside };
}

impl SortedSet {
    /// No members. It takes no memory yet.
    pub fn new(alloc: Global) -> Self
        ensures { result.members ≡ [] }
    {
        SortedSet {
            form: Form::Few(FewMembers::new(alloc)),
        }
    }

    /// Makes room for so many more members. After an error the members and the room are as they
    /// were.
    pub fn reserve(&mut self, more: usize) -> Result<(), AllocError>
        ensures members { self.new.members ≡ self.old.members }
        ensures room { OnOk result (more ≤ self.new.room) }
        ensures kept { self.old.room ≤ self.new.room }
    {
        match &mut self.form {
            Form::Many(many) => many.reserve(more),
            Form::Few(few) => {
                if more <= FEW_MEMBERS - few.as_slice().len() {
                    return few.reserve(more);
                }
                let alloc = few.allocator();
                let mut many = ManyMembers::of(alloc, few.as_slice())?;
                many.reserve(more)?;
                self.form = Form::Many(Box::new(alloc, many)?);
                Ok(())
            }
        }
    }

    /// How many members there are.
    pub fn len(&self) -> usize
        ensures len { result ≡ length self.now.members }
        ensures order { is_in_order self.now.members ≡ true }
    {
        match &self.form {
            Form::Few(few) => few.as_slice().len(),
            Form::Many(many) => many.len(),
        }
    }

    /// Whether there are none.
    pub fn is_empty(&self) -> bool
        ensures { IsTrue result ↔ (self.now.members ≡ []) }
    {
        self.len() == 0
    }

    /// The score of a member.
    pub fn score(&self, member: &Brief) -> Option<u64>
        ensures score { result ≡ score_of member.now self.now.members }
        ensures order { is_in_order self.now.members ≡ true }
    {
        match &self.form {
            Form::Few(few) => few.score(member),
            Form::Many(many) => many.score(member),
        }
    }

    /// Gives a member this score, and says whether it is new. A new one needs room. It takes no
    /// memory.
    pub fn put(&mut self, member: &Brief, score: u64) -> bool
        requires { score_of member.now self.old.members ≡ None → 0 < self.old.room }
        ensures new { result ≡ is_none (score_of member.now self.old.members) }
        ensures members { self.new.members ≡ with_score member.now score self.old.members }
        ensures room { self.old.room ≤ self.new.room + (if result then 1 else 0) }
        ensures order { is_in_order self.old.members ≡ true }
    {
        match &mut self.form {
            Form::Few(few) => few.put(member, score),
            Form::Many(many) => many.put(member, score),
        }
    }

    /// Removes a member, and says whether it was there. It takes no memory.
    pub fn remove(&mut self, member: &Brief) -> bool
        ensures found { result ≡ is_some (score_of member.now self.old.members) }
        ensures members { self.new.members ≡ without_member member.now self.old.members }
        ensures room { self.old.room ≤ self.new.room }
        ensures order { is_in_order self.old.members ≡ true }
    {
        match &mut self.form {
            Form::Few(few) => few.remove(member),
            Form::Many(many) => many.remove(member),
        }
    }

    /// The first member with its score.
    pub fn first(&self) -> Option<(Brief, u64)>
        ensures first { result ≡ item_at (pos 0) self.now.members }
        ensures order { is_in_order self.now.members ≡ true }
    {
        self.get(0)
    }

    /// The last member with its score.
    pub fn last(&self) -> Option<(Brief, u64)>
        ensures last { result ≡ item_at (negsuc 0) self.now.members }
        ensures order { is_in_order self.now.members ≡ true }
    {
        self.get(-1)
    }

    /// The member at a place with its score: from 0 at the front, and from -1 at the end. The two
    /// ends are at hand. It takes no memory.
    pub fn get(&self, place: i64) -> Option<(Brief, u64)>
        ensures member { result ≡ item_at place self.now.members }
        ensures order { is_in_order self.now.members ≡ true }
    {
        match &self.form {
            Form::Few(few) => few.get(place),
            Form::Many(many) => many.get(place),
        }
    }

    /// The members from one place to another, both in, with their scores. Places are those of
    /// `get`, and what lies past the ends is cut off.
    pub fn range(&self, alloc: Global, start: i64, stop: i64) -> Result<Members, AllocError>
        ensures members { IfOk result (λ m. m.items ≡ range_of start stop self.now.members) }
        ensures order { is_in_order self.now.members ≡ true }
    {
        match &self.form {
            Form::Few(few) => few.range(alloc, start, stop),
            Form::Many(many) => many.range(alloc, start, stop),
        }
    }
}
