//! The changes of one entry.
ghost use Rattle.std.specs.Prelude.{◌≡◌, ◌<◌, ◌-◌, ◌^◌, false};
ghost use Rattle.lr_waiting.specs.Latch.{no_entry, is_kept, if_kept, is_subscribed, register_in, hand_on, leave_last, leave_more, leave_in, acknowledge_in, deliver_to, deliver_in, take_permit, is_due, checked_in, woken_in};
ghost use Rattle.lr_latch.specs.Value.{IsEntry};

use lr_names::{Due, Wakes};
use lr_waiting::{Checked, LatchEntry, Woken};

/// A channel on which nobody waits, and for which nothing is outstanding.
pub(crate) fn no_entry() -> LatchEntry
    ensures { result ≡ no_entry }
{
    LatchEntry {
        sent: 0,
        acknowledged: 0,
        registered: 0,
        permits: 0,
        broadcast: 0,
    }
}

/// Whether threads wait, or an acknowledgement is still to come.
pub(crate) fn is_kept(entry: &LatchEntry) -> bool
    ensures { result ≡ is_kept entry.now }
{
    entry.registered > 0 || entry.acknowledged != entry.sent
}

/// Whether the client hears what is sent on the channel.
pub(crate) fn is_subscribed(entry: &LatchEntry) -> bool
    ensures { result ≡ is_subscribed entry.now }
{
    entry.registered > 0 && entry.acknowledged == entry.sent
}

/// The entry with one more thread.
pub(crate) fn registered(entry: LatchEntry) -> LatchEntry
    requires { entry.registered < 2 ^ 64 - 1 }
    ensures entry { result ≡ register_in entry }
    ensures valid { IsEntry entry → IsEntry result }
{
    match entry.registered {
        0 => LatchEntry {
            registered: 1,
            sent: entry.sent.wrapping_add(1),
            ..entry
        },
        before => LatchEntry {
            registered: before + 1,
            ..entry
        },
    }
}

/// The entry with one thread less.
pub(crate) fn left(wakes: Wakes, entry: LatchEntry) -> LatchEntry
    ensures entry { result ≡ leave_in wakes entry }
    ensures valid { IsEntry entry → IsEntry result }
{
    if entry.registered == 1 {
        return left_by_last(entry);
    }
    let fewer = LatchEntry {
        registered: entry.registered.saturating_sub(1),
        ..entry
    };
    match wakes {
        Wakes::One => handed_on(fewer),
        Wakes::All => fewer,
    }
}

// The entry without threads.
fn left_by_last(entry: LatchEntry) -> LatchEntry
    ensures entry { result ≡ leave_last entry }
    ensures valid { IsEntry result }
{
    if_kept(LatchEntry {
        registered: 0,
        permits: 0,
        ..entry
    })
}

// The entry, or none where it isn't needed any longer.
fn if_kept(entry: LatchEntry) -> LatchEntry
    ensures entry { result ≡ if_kept entry }
    ensures valid { (0 < entry.permits → 0 < entry.registered) → IsEntry result }
{
    if is_kept(&entry) { entry } else { no_entry() }
}

// The entry with a permit more, but with no more permits than threads.
fn handed_on(entry: LatchEntry) -> LatchEntry
    ensures entry { result ≡ hand_on entry }
    ensures valid { (is_kept entry ≡ false → entry ≡ no_entry) → IsEntry result }
{
    let permits = if entry.permits < entry.registered {
        entry.permits + 1
    } else {
        entry.registered
    };
    LatchEntry { permits, ..entry }
}

/// The entry after an order to subscribe was acknowledged.
pub(crate) fn acknowledged(entry: LatchEntry) -> LatchEntry
    ensures entry { result ≡ acknowledge_in entry }
    ensures valid { IsEntry entry → IsEntry result }
{
    if !is_kept(&entry) {
        return entry;
    }
    if_kept(LatchEntry {
        acknowledged: entry.acknowledged.wrapping_add(1),
        ..entry
    })
}

/// The entry after a message.
pub(crate) fn delivered(wakes: Wakes, entry: LatchEntry) -> LatchEntry
    ensures entry { result ≡ deliver_in wakes entry }
    ensures valid { IsEntry entry → IsEntry result }
{
    if entry.registered == 0 {
        return entry;
    }
    match wakes {
        Wakes::One => handed_on(entry),
        Wakes::All => LatchEntry {
            broadcast: entry.broadcast.wrapping_add(1),
            ..entry
        },
    }
}

/// The entry with a permit less.
pub(crate) fn permit_taken(entry: LatchEntry) -> LatchEntry
    requires { 0 < entry.permits }
    ensures entry { result ≡ take_permit entry }
    ensures valid { IsEntry entry → IsEntry result }
{
    LatchEntry {
        permits: entry.permits - 1,
        ..entry
    }
}

// Whether a due moment has come.
fn is_due(due: Due, now: u64) -> bool
    ensures { result ≡ is_due due now }
{
    match due {
        Due::At(moment) => moment <= now,
        Due::Never => false,
    }
}

/// What a thread finds that looks before it sleeps.
pub(crate) fn checked(entry: &LatchEntry, seen: u64, due: Due, now: u64) -> Checked
    ensures { result ≡ checked_in entry.now seen due now }
{
    if entry.permits > 0 {
        Checked::Permit
    } else if entry.broadcast != seen {
        Checked::Broadcast
    } else if is_due(due, now) {
        Checked::Timer
    } else {
        Checked::Sleep
    }
}

/// What a sleeping thread finds.
pub(crate) fn woken(entry: &LatchEntry, seen: u64) -> Woken
    ensures { result ≡ woken_in entry.now seen }
{
    if entry.permits > 0 {
        Woken::Permit
    } else if entry.broadcast != seen {
        Woken::Broadcast
    } else {
        Woken::NotYet
    }
}
