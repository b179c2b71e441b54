//! The member at a place of the order, in a table that is in any order.
ghost use Rattle.std.specs.Prelude.{◌≡◌, ℕ, ◌<◌, ◌≤◌, true, false, length, slice_get, IfSome, IfNone};
ghost use Rattle.indexmap.specs.IndexMap.{index_map_len};
ghost use Rattle.lr_sorted.specs.Select.{rank_at, is_behind, is_ahead, is_between};
ghost use Rattle.lr_sorted.specs.Sorted.{sorted};

use super::scores::{Scores, wins};

// Whether the member at a place comes behind that at the bound, as far as there is one.
fn is_behind(scores: &Scores, low: Option<usize>, place: usize) -> bool
    ensures { result ≡ is_behind scores.now.entries low place }
{
    match low {
        Some(low) => wins(scores, false, low, place),
        None => true,
    }
}

// Whether it comes before that at the bound.
fn is_ahead(scores: &Scores, high: Option<usize>, place: usize) -> bool
    ensures { result ≡ is_ahead scores.now.entries high place }
{
    match high {
        Some(high) => wins(scores, false, place, high),
        None => true,
    }
}

// Whether it comes between the two.
fn is_between(scores: &Scores, low: Option<usize>, high: Option<usize>, place: usize) -> bool
    ensures { result ≡ is_between scores.now.entries low high place }
{
    is_behind(scores, low, place) && is_ahead(scores, high, place)
}

// How many come between the two. It says how long the search goes on, and no more.
fn count_between(scores: &Scores, low: Option<usize>, high: Option<usize>) -> usize
    ensures { result ≤ index_map_len scores.now }
{
    let mut count = 0;
    for place in 0..scores.len() {
        if is_between(scores, low, high, place) {
            count += 1;
        }
    }
    count
}

// The place of one that comes between the two, after so many others of the table, or of the last.
fn pick(scores: &Scores, low: Option<usize>, high: Option<usize>, skip: usize) -> Option<usize>
    ensures within { IfSome result (λ p. p < length scores.now.entries) }
    ensures some { IfSome result (λ p. is_between scores.now.entries low high p ≡ true) }
    ensures none { IfNone result ((p : ℕ) → p < length scores.now.entries
        → is_between scores.now.entries low high p ≡ false) }
{
    let mut found = None;
    let mut left = skip;
    for place in 0..scores.len() {
        if is_between(scores, low, high, place) {
            if left == 0 {
                return Some(place);
            }
            left -= 1;
            found = Some(place);
        }
    }
    found
}

// How many members come before the one at a place.
fn rank(scores: &Scores, place: usize) -> usize
    ensures { result ≡ rank_at scores.now.entries place }
{
    let mut count = 0;
    for other in 0..scores.len() {
        if wins(scores, false, other, place) {
            count += 1;
        }
    }
    count
}

/// The place in the table of the member at a place of the order. Each turn halves those that may be
/// the one, and goes through the table three times.
pub(crate) fn nth(scores: &Scores, at: usize) -> usize
    requires { at < length scores.now.entries }
    ensures { slice_get scores.now.entries result ≡ slice_get (sorted scores.now.entries) at }
{
    let mut low = None;
    let mut high = None;
    let mut least = 0;
    let mut past = scores.len();
    'halve: while least < past {
        let half = count_between(scores, low, high) / 2;
        let Some(place) = pick(scores, low, high, half) else {
            return at;
        };
        let rank = rank(scores, place);
        if rank == at {
            return place;
        }
        if rank < at {
            low = Some(place);
            least = rank + 1;
        } else {
            high = Some(place);
            past = rank;
        }
    }
    at
}
