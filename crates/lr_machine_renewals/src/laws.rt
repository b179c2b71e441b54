ghost use Rattle.std.specs.Prelude.{ℕ, suc, ◌<◌, ◌^◌};
ghost use Rattle.lr_machine.specs.declared.event.Event.{Event};
ghost use Rattle.lr_machine.specs.Renewals.{RenewsInTime};
ghost use Rattle.lr_machine.specs.Sound.{IsInOrder};
ghost use Rattle.lr_machine.specs.Within.{IsWithin};
ghost use Rattle.lr_machine.specs.World.{World, first_world, next};
ghost use Rattle.lr_machine_wakeups.specs.Throughout.{ThroughoutEverySchedule};
ghost use Rattle.lr_machine_renewals.specs.Kept.{KeepsHolds, GivesDeadlines, HoldsStayApart};
ghost use Rattle.lr_machine_renewals.specs.WatchFacts.{HaveWatches};

/// A call keeps the deadline of each hold that it doesn't end, or gives the hold that it is about a
/// new one: its moment and its lease. So it is where the holds of each read-write lock are apart,
/// of one owner with one access each, and a call leaves them so.
pub fn a_call_keeps_or_gives_deadlines()
    ensures { KeepsHolds × GivesDeadlines × HoldsStayApart }
{}

/// Before the first event no client watches a hold, and no grant was watched.
pub fn the_watches_hold_before_the_first_event()
    ensures { HaveWatches 0 first_world }
{}

/// An event within the limits keeps what is so of the watches, the renewals and the calls of all
/// clients. A client gets one grant more at most that is watched.
pub fn an_event_keeps_the_watches()
    ensures { (n : ℕ) (world : World) (event : Event) → suc n < 2 ^ 64 → IsWithin event
        → IsInOrder world → HaveWatches n world → HaveWatches (suc n) (next world event) }
{}

/// Where that is so, a hold that is watched and live falls due two thirds of the watchdog's lease
/// before its end.
pub fn watched_holds_are_renewed_in_time()
    ensures { (n : ℕ) (world : World) → HaveWatches n world → RenewsInTime world }
{}

/// So it is after each event of every schedule within the limits, and before the first: what a
/// watchdog renews falls due two thirds of the lease before the hold ends.
pub fn renewals_are_due_in_time()
    ensures { ThroughoutEverySchedule (λ n world. RenewsInTime world) }
{}
