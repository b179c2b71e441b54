//! What is kept of one hold.
ghost use Rattle.std.specs.Prelude.{◌≡◌, ◌≤◌};
ghost use Rattle.lr_limits.specs.Limits.{last_moment, longest_lease};
ghost use Rattle.lr_waiting.specs.Latch.{next_count};
ghost use Rattle.lr_waiting.specs.Watchdog.{due_from, is_of, renewal_told, unless_due, watch_after};
ghost use Rattle.lr_watchdog.specs.Value.{due_in, is_kept, no_slot};

use lr_expiry::NO_EXPIRY;
use lr_waiting::{RenewFault, RenewTaken, Renewal, Watch};

/// What a watchdog keeps of a hold: a watch, a renewal whose reply wasn't taken, or both.
#[derive(Clone, Copy)]
pub(crate) struct Slot {
    pub(crate) watch: Option<Watch>,
    pub(crate) renewal: Option<Renewal>,
}

/// Of a hold that isn't watched.
pub(crate) fn no_slot() -> Slot
    ensures { result ≡ no_slot }
{
    Slot {
        watch: None,
        renewal: None,
    }
}

/// Whether there is anything to keep.
pub(crate) fn is_kept(slot: &Slot) -> bool
    ensures { result ≡ is_kept slot.now }
{
    slot.watch.is_some() || slot.renewal.is_some()
}

/// When a renewal is to be asked for, in milliseconds, or `NO_EXPIRY`.
pub(crate) fn due_in(slot: &Slot) -> u64
    ensures { result ≡ due_in slot.now }
{
    match (slot.watch, slot.renewal) {
        (Some(watch), None) => watch.due,
        _ => NO_EXPIRY,
    }
}

// When a hold falls due that was asked for at this moment.
fn due_from(at: u64, lease: u64) -> u64
    requires at { at ≤ last_moment }
    requires lease { lease ≤ longest_lease }
    ensures { result ≡ due_from at lease }
{
    at + lease / 3
}

/// The number of the next watched grant, after that of the last: numbers go on from 0 where they
/// would leave 64 bits.
pub(crate) fn next_generation(last: u64) -> u64
    ensures { result ≡ next_count last }
{
    last.wrapping_add(1)
}

/// The watch of a hold that was granted.
pub(crate) fn granted(at: u64, lease: u64, generation: u64) -> Watch
    requires at { at ≤ last_moment }
    requires lease { lease ≤ longest_lease }
    ensures due { result.due ≡ due_from at lease }
    ensures generation { result.generation ≡ generation }
{
    Watch {
        due: due_from(at, lease),
        generation,
    }
}

// Whether a renewal was asked for this watch, and for none that ended before it began.
fn is_of(watch: &Watch, renewal: &Renewal) -> bool
    ensures { result ≡ is_of watch.now renewal.now }
{
    watch.generation == renewal.generation
}

/// Why no renewal of a watch can be asked for at this moment: it falls due later.
pub(crate) fn unless_due(moment: u64, watch: &Watch) -> Option<RenewFault>
    ensures { result ≡ unless_due moment watch.now }
{
    if watch.due <= moment {
        None
    } else {
        Some(RenewFault::NotDue(watch.due))
    }
}

/// What comes of the reply to a renewal.
pub(crate) fn told(renewed: bool, lease: u64, watch: Option<Watch>, renewal: Renewal) -> RenewTaken
    requires at { renewal.at ≤ last_moment }
    requires lease { lease ≤ longest_lease }
    ensures { result ≡ renewal_told renewed lease watch renewal }
{
    match watch {
        Some(watch) if is_of(&watch, &renewal) => {
            if renewed {
                RenewTaken::Due(due_from(renewal.at, lease))
            } else {
                RenewTaken::Ended
            }
        }
        _ => RenewTaken::Stale,
    }
}

/// The watch after the reply to a renewal.
pub(crate) fn watch_after(
    renewed: bool,
    lease: u64,
    watch: Option<Watch>,
    renewal: Renewal,
) -> Option<Watch>
    requires at { renewal.at ≤ last_moment }
    requires lease { lease ≤ longest_lease }
    ensures { result ≡ watch_after renewed lease watch renewal }
{
    let before = watch?;
    if !is_of(&before, &renewal) {
        return watch;
    }
    if !renewed {
        return None;
    }
    Some(granted(renewal.at, lease, before.generation))
}
