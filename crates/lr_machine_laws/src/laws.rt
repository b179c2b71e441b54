ghost use Rattle.std.specs.Prelude.{ℕ, ◌*◌, ◌+◌, ◌≤◌, List, length};
ghost use Rattle.std.specs.List.{AllByRecursion};
ghost use Rattle.lr_limits.specs.Limits.{client_limit};
ghost use Rattle.lr_machine.specs.declared.event.Event.{Event};
ghost use Rattle.lr_machine.specs.Within.{IsWithin};
ghost use Rattle.lr_machine.specs.World.{World, next};
ghost use Rattle.lr_machine.specs.Sound.{GoesWell, GoesWellThroughout, IsInOrder, clients_left};

/// After every schedule within the limits, of threads that wait, deliveries and cuts, the history is
/// legal, no two claims that conflict are held at once, and what is promised of the replies of each
/// kind of object is so (`IsSound` names it). What each caller did stands in the history once, in
/// the order of the events.
pub fn every_schedule_goes_well()
    ensures { (events : List Event) → AllByRecursion IsWithin events → GoesWell events }
{}

/// The same after each event of such a schedule, and before the first.
pub fn every_schedule_goes_well_throughout()
    ensures { (events : List Event) → AllByRecursion IsWithin events → GoesWellThroughout events }
{}

/// An event makes one entry of the history at most, beside the two closes of each client that it
/// cuts off. A client is cut off once.
pub fn histories_grow_by_events()
    ensures { (world : World) (event : Event) → IsWithin event → IsInOrder world
        → length (next world event).entries + 2 * clients_left client_limit (next world event).clients
        ≤ length world.entries + 2 * clients_left client_limit world.clients + 1 }
{}
