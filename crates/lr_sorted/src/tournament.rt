//! Tournaments of places: who comes first or last of many members is at hand.
ghost use Rattle.std.specs.Prelude.{◌≡◌, ◌+◌, ◌*◌, ◌<◌, ◌≤◌, ◌/◌, ◌==◌, length, slice_get, if◌then◌else◌, IfOk, IfSome};
ghost use Rattle.lr_sorted.specs.Tournament.{winner, won_at, IsRightBut, IsTournament};
ghost use Rattle.lr_sorted.specs.declared.limits.TheConstants.{MOST_PLACES};

use super::limits::MOST_PLACES;
use super::scores::{Scores, wins};
use std::alloc::{AllocError, Global};

// Who of two places wins.
fn winner(scores: &Scores, last: bool, one: usize, other: usize) -> usize
    ensures { result ≡ winner last scores.now.entries one other }
{
    if wins(scores, last, other, one) {
        other
    } else {
        one
    }
}

// Who has won at a node.
fn won_at(nodes: &Vec<u32>, node: usize) -> usize
    ensures { result ≡ won_at nodes.now.items node }
{
    if node < nodes.len() {
        nodes[node] as usize
    } else {
        node - nodes.len()
    }
}

/// Who has won the final.
pub(crate) fn final_winner(nodes: &Vec<u32>) -> usize
    ensures { result ≡ won_at nodes.now.items 1 }
{
    won_at(nodes, 1)
}

// The next node of a way up, if the way is at this node.
fn step_up(way: usize, highest: usize) -> usize
    ensures { result ≡ if way == highest then highest / 2 else way }
{
    if way == highest { highest / 2 } else { way }
}

/// Mends the nodes above two places, whose members have changed.
pub(crate) fn mend(nodes: &mut Vec<u32>, scores: &Scores, last: bool, first: usize, second: usize)
    requires right { let places = length nodes.old.items in
        IsRightBut (places + first) (places + second) last scores.now.entries nodes.old.items }
    requires first { first < length nodes.old.items }
    requires second { second < length nodes.old.items }
    requires few { length nodes.old.items ≤ MOST_PLACES }
    ensures tournament { IsTournament last scores.now.entries nodes.new.items }
    ensures len { length nodes.new.items ≡ length nodes.old.items }
{
    let mut one = nodes.len() + first;
    let mut other = nodes.len() + second;
    'up: while one.max(other) > 1 {
        let highest = one.max(other);
        let node = highest / 2;
        let won = winner(
            scores,
            last,
            won_at(nodes, 2 * node),
            won_at(nodes, 2 * node + 1),
        );
        nodes[node] = won as u32;
        one = step_up(one, highest);
        other = step_up(other, highest);
    }
}

/// A tournament of so many places.
pub(crate) fn tournament(
    alloc: Global,
    scores: &Scores,
    last: bool,
    places: usize,
) -> Result<Vec<u32>, AllocError>
    requires some { 1 ≤ places }
    requires few { places ≤ MOST_PLACES }
    ensures tournament { IfOk result (λ nodes. IsTournament last scores.now.entries nodes.items) }
    ensures len { IfOk result (λ nodes. length nodes.items ≡ places) }
{
    let mut nodes = vec![in alloc; 0; places]?;
    let mut node = places;
    'down: while node > 1 {
        node -= 1;
        let won = winner(
            scores,
            last,
            won_at(&nodes, 2 * node),
            won_at(&nodes, 2 * node + 1),
        );
        nodes[node] = won as u32;
    }
    Ok(nodes)
}
