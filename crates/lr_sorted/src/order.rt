//! The order of members.
ghost use Rattle.std.specs.Prelude.{◌≡◌};
ghost use Rattle.std.specs.Ordering.{is_lt};
ghost use Rattle.lr_sorted.specs.Members.{comes_before};

use lr_text::Brief;
use std::cmp::Ordering;

/// How two members with their scores compare: by score, and by bytes where scores are equal.
pub(crate) fn compare(one: &Brief, score: u64, other: &Brief, other_score: u64) -> Ordering
    ensures { is_lt result ≡ comes_before (one.now, score) (other.now, other_score) }
{
    match score.cmp(&other_score) {
        Ordering::Less => Ordering::Less,
        Ordering::Equal => one.as_slice().cmp(other.as_slice()),
        Ordering::Greater => Ordering::Greater,
    }
}

/// Whether a member with its score comes before another with its score.
pub(crate) fn comes_before(one: &Brief, score: u64, other: &Brief, other_score: u64) -> bool
    ensures { result ≡ comes_before (one.now, score) (other.now, other_score) }
{
    compare(one, score, other, other_score).is_lt()
}
