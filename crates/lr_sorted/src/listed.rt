//! Members as lists: in order, and a range of them.
ghost use Rattle.std.specs.Prelude.{◌≡◌, IfOk};
ghost use Rattle.std.specs.Ordering.{is_lt};
ghost use Rattle.lr_lists.specs.Places.{range_of};
ghost use Rattle.lr_sorted.specs.Members.{comes_before};
ghost use Rattle.lr_sorted.specs.Sorted.{AreDistinct, sorted};

use super::order::compare;
use super::scores::Scores;
use lr_lists::{before_start, up_to_stop};
use lr_text::Brief;
use std::alloc::{AllocError, Global};
use std::cmp::Ordering;

/// Members and their scores, in order of score, and of bytes where scores are equal.
pub type Members = Vec<(Brief, u64)>;

// The members of a table, in its order.
fn entries(alloc: Global, scores: &Scores) -> Result<Members, AllocError>
    ensures entries { IfOk result (λ members. members.items ≡ scores.now.entries) }
    ensures distinct { AreDistinct scores.now.entries }
{
    let _count = scores.len();
    scores
        .iter()
        .map(|(member, score)| (*member, *score))
        .collect(alloc)
}

// Puts members in order.
fn sort(members: &mut Members)
    requires { AreDistinct members.old.items }
    ensures { members.new.items ≡ sorted members.old.items }
{
    members.sort_unstable_by(
        |one: &(Brief, u64), other: &(Brief, u64)| -> Ordering
            ensures { is_lt result ≡ comes_before one.now other.now }
        { compare(&one.0, one.1, &other.0, other.1) },
    );
}

/// The members of a table in order.
pub(crate) fn in_order(alloc: Global, scores: &Scores) -> Result<Members, AllocError>
    ensures { IfOk result (λ members. members.items ≡ sorted scores.now.entries) }
{
    let mut members = entries(alloc, scores)?;
    sort(&mut members);
    Ok(members)
}

/// A copy of the members from one place to another, both in.
pub(crate) fn cut(
    alloc: Global,
    members: &[(Brief, u64)],
    start: i64,
    stop: i64,
) -> Result<Members, AllocError>
    ensures { IfOk result (λ cut. cut.items ≡ range_of start stop members.now) }
{
    let first = before_start(start, members.len());
    let end = up_to_stop(stop, members.len());
    if first >= end {
        return Ok(Vec::new(alloc));
    }
    Vec::from_slice(alloc, &members[first..end])
}
