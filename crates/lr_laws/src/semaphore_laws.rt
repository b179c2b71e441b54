ghost use Rattle.std.specs.Prelude.{ℕ, List};
ghost use Rattle.lr_model.specs.declared.entry.Entry.{Entry};
ghost use Rattle.lr_model.specs.History.{state_at_start, IsLegal};
ghost use Rattle.lr_model.specs.SemaphoreCounts.{NeverOvergranted};

/// In no legal history are more permits of a semaphore granted than were given before, by setting
/// its number and by releases. Both sums are told from the replies alone, and a permit that is
/// given back counts as given.
pub fn semaphores_never_grant_more_than_there_is()
    ensures { (last : ℕ) (entries : List Entry)
        → IsLegal (state_at_start last) entries → NeverOvergranted (state_at_start last) entries }
{}
