//! The table of many members and their scores.
ghost use Rattle.std.specs.Prelude.{◌≡◌, ◌+◌, ◌<◌, ◌≤◌, length, None, true, false, is_some, is_none, if◌then◌else◌, slice_get, IfSome, IfNone};
ghost use Rattle.std.specs.Str.{bytes_eq};
ghost use Rattle.indexmap.specs.IndexMap.{index_map_len, spare, with_value_at};
ghost use Rattle.lr_sorted.specs.Members.{score_of};
ghost use Rattle.lr_sorted.specs.Sorted.{AreDistinct, IsPut, IsTaken};
ghost use Rattle.lr_sorted.specs.Tournament.{wins};

use super::order::comes_before;
use indexmap::IndexMap;
use lr_text::Brief;

/// Members and their scores, in any order.
pub(crate) type Scores = IndexMap<Brief, u64>;

/// The member at a place with its score.
pub(crate) fn entry(scores: &Scores, place: usize) -> Option<(Brief, u64)>
    ensures entry { result ≡ slice_get scores.now.entries place }
    ensures distinct { AreDistinct scores.now.entries }
{
    let _count = scores.len();
    let (member, score) = scores.get_index(place)?;
    Some((*member, *score))
}

// Writes the score at a place.
fn write_score(scores: &mut Scores, place: usize, score: u64)
    requires { place < index_map_len scores.old }
    ensures { scores.new ≡ with_value_at scores.old place score }
{
    *scores.get_index_mut(place).unwrap() = score;
}

// Puts a new member, for which there is room, and gives its place.
fn add_score(scores: &mut Scores, member: &Brief, score: u64) -> usize
    requires room { 0 < spare scores.old }
    requires absent { score_of member.now scores.old.entries ≡ None }
    ensures within { result < index_map_len scores.new }
    ensures put { IsPut member.now score result scores.old.entries scores.new.entries }
    ensures len { index_map_len scores.new ≡ index_map_len scores.old + 1 }
    ensures room { spare scores.old ≤ spare scores.new + 1 }
{
    let _count = scores.len();
    let (place, _) = scores.insert_full(*member, score).unwrap();
    place
}

/// Gives a member this score, and gives its place, and whether it is new. A new one needs room.
pub(crate) fn put_score(scores: &mut Scores, member: &Brief, score: u64) -> (usize, bool)
    requires { score_of member.now scores.old.entries ≡ None → 0 < spare scores.old }
    ensures within { result.0 < index_map_len scores.new }
    ensures put { IsPut member.now score result.0 scores.old.entries scores.new.entries }
    ensures new { result.1 ≡ is_none (score_of member.now scores.old.entries) }
    ensures len { index_map_len scores.new
        ≡ index_map_len scores.old + (if result.1 then 1 else 0) }
    ensures room { spare scores.old ≤ spare scores.new + (if result.1 then 1 else 0) }
{
    let Some(place) = scores.get_index_of(member) else {
        return (add_score(scores, member, score), true);
    };
    write_score(scores, place, score);
    (place, false)
}

/// Takes a member out, if it is there, and gives the place that it had. The last one stands there
/// now.
pub(crate) fn take_score(scores: &mut Scores, member: &Brief) -> Option<usize>
    ensures found { is_some result ≡ is_some (score_of member.now scores.old.entries) }
    ensures within { IfSome result (λ place. place ≤ index_map_len scores.new) }
    ensures some { IfSome result (λ place.
        IsTaken member.now place scores.old.entries scores.new.entries) }
    ensures len { IfSome result (λ place. index_map_len scores.new + 1 ≡ index_map_len scores.old) }
    ensures none { IfNone result (scores.new.entries ≡ scores.old.entries) }
    ensures distinct { AreDistinct scores.old.entries }
    ensures room { spare scores.old ≤ spare scores.new }
{
    let _count = scores.len();
    let (place, _, _) = scores.swap_remove_full(member)?;
    Some(place)
}

/// Whether the member at one place wins against that at another: the one that comes first, or else
/// the one that comes last. Where there is nobody, anybody wins.
pub(crate) fn wins(scores: &Scores, last: bool, one: usize, other: usize) -> bool
    ensures { let entries = scores.now.entries in
        result ≡ wins last (slice_get entries one) (slice_get entries other) }
{
    match (scores.get_index(one), scores.get_index(other)) {
        (Some((one, score)), Some((other, other_score))) => {
            if last {
                comes_before(other, *other_score, one, *score)
            } else {
                comes_before(one, *score, other, *other_score)
            }
        }
        (Some(_), None) => true,
        (None, _) => false,
    }
}
