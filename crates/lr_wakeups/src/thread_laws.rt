ghost use Rattle.std.specs.Prelude.{ℕ};
ghost use Rattle.lr_objects.specs.declared.want.Mode.{Mode};
ghost use Rattle.lr_objects.specs.declared.want.Want.{Want};
ghost use Rattle.lr_waiting.specs.Session.{begin_row, ask_row, check_row, wake_row, fire_row, quit_row};
ghost use Rattle.lr_waiting.specs.Client.{client_row, take_reply};
ghost use Rattle.lr_wakeups.specs.Keeps.{KeepsFacts, KeepsFactsByOrder, OfEachThread};

/// A request that begins leaves all facts as they are.
pub fn beginning_keeps_the_facts()
    ensures { (mode : Mode) (want : Want)
        → OfEachThread (λ thread. KeepsFacts (client_row (begin_row thread mode want))) }
{}

/// So does a call that is sent.
pub fn asking_keeps_the_facts()
    ensures { (moment : ℕ)
        → OfEachThread (λ thread. KeepsFacts (client_row (ask_row thread moment))) }
{}

/// And a reply that is taken, by which the thread ends, registers, or was refused once more.
pub fn taking_keeps_the_facts()
    ensures { OfEachThread (λ thread. KeepsFactsByOrder (take_reply thread)) }
{}

/// And a look before sleep.
pub fn checking_keeps_the_facts()
    ensures { (now : ℕ) → OfEachThread (λ thread. KeepsFacts (client_row (check_row thread now))) }
{}

/// And a wakeup by a permit or a message.
pub fn waking_keeps_the_facts()
    ensures { OfEachThread (λ thread. KeepsFacts (client_row (wake_row thread))) }
{}

/// And a timer that has come.
pub fn firing_keeps_the_facts()
    ensures { (now : ℕ) → OfEachThread (λ thread. KeepsFacts (client_row (fire_row thread now))) }
{}

/// And a thread that gives up.
pub fn quitting_keeps_the_facts()
    ensures { OfEachThread (λ thread. KeepsFacts (client_row (quit_row thread))) }
{}
