ghost use Rattle.std.specs.Prelude.{ℕ};
ghost use Rattle.lr_waiting.specs.declared.watch.WatchKey.{WatchKey};
ghost use Rattle.lr_waiting.specs.Session.{renew_row};
ghost use Rattle.lr_waiting.specs.Client.{client_row, take_renewed};
ghost use Rattle.lr_wakeups.specs.Keeps.{KeepsFacts, RenewalsKeepFacts, RenewedKeepsFacts};

/// No fact tells of a client's watchdog, or of the replies to its renewals: with any other all facts
/// stay.
pub fn renewals_keep_the_facts()
    ensures { RenewalsKeepFacts }
{}

/// So does a renewal that is asked for leave them as they are.
pub fn asking_for_a_renewal_keeps_the_facts()
    ensures { (key : WatchKey) (moment : ℕ) → KeepsFacts (client_row (renew_row key moment)) }
{}

/// And the reply to one, which comes.
pub fn a_reply_to_a_renewal_keeps_the_facts()
    ensures { RenewedKeepsFacts }
{}

/// And that reply once it is taken.
pub fn taking_a_renewal_keeps_the_facts()
    ensures { (key : WatchKey) → KeepsFacts (take_renewed key) }
{}
