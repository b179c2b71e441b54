ghost use Rattle.std.specs.Prelude.{ℕ, suc, ◌<◌, ◌^◌};
ghost use Rattle.lr_machine.specs.declared.event.Event.{Event};
ghost use Rattle.lr_machine.specs.Sound.{IsInOrder};
ghost use Rattle.lr_machine.specs.Within.{IsWithin};
ghost use Rattle.lr_machine.specs.World.{World, first_world, next};
ghost use Rattle.lr_machine_wakeups.specs.Deadlines.{LiveDeadlinesStayBelowThePeak};
ghost use Rattle.lr_machine_wakeups.specs.WorldFacts.{HaveFacts};
ghost use Rattle.lr_machine_wakeups.specs.Throughout.{NoWakeupIsLost, ThroughoutEverySchedule};

/// After every legal history, from a server that has just started, no live hold of a lock lasts
/// beyond the lock's peak.
pub fn live_deadlines_stay_below_the_peak()
    ensures { LiveDeadlinesStayBelowThePeak }
{}

/// After each event of every schedule within the limits, and before the first, all facts are so of
/// each client and of the connection by which it subscribes. Among them is that who was refused a
/// permit, and whom no message has reached since, is due no later than any lease that is live ends,
/// or by now; and that who was refused a fair lock has a place in its queue for longer than it
/// sleeps.
pub fn the_facts_hold_throughout()
    ensures { ThroughoutEverySchedule HaveFacts }
{}

/// And what is told to stand for a thread that sleeps is never nothing, and no timer that is too
/// late: later than the peak of a lock, later than now where permits are waited for, or too late
/// for its place where it sleeps for a fair lock. That place is in the queue until it goes stale,
/// and a message that was sent to the thread since it asked is on its way or has left a permit.
pub fn no_wakeup_is_lost_in_any_schedule()
    ensures { ThroughoutEverySchedule (λ n world. NoWakeupIsLost world) }
{}

/// Before the first event the facts are so, and no order was made.
pub fn the_facts_hold_before_the_first_event()
    ensures { HaveFacts 0 first_world }
{}

/// An event within the limits keeps the facts. A client makes one order more at most, or one message
/// more comes.
pub fn an_event_keeps_the_facts()
    ensures { (n : ℕ) (world : World) (event : Event) → suc n < 2 ^ 64 → IsWithin event
        → IsInOrder world → HaveFacts n world → HaveFacts (suc n) (next world event) }
{}

/// Where the facts are so, no wakeup is lost.
pub fn no_wakeup_is_lost_where_the_facts_hold()
    ensures { (n : ℕ) (world : World) → HaveFacts n world → NoWakeupIsLost world }
{}
