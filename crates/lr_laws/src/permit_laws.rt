ghost use Rattle.std.specs.Prelude.{ℕ, List};
ghost use Rattle.lr_model.specs.declared.entry.Entry.{Entry};
ghost use Rattle.lr_model.specs.History.{state_at_start, IsLegal};
ghost use Rattle.lr_model.specs.PermitCounts.{NeverMoreThanSet};

/// In every legal history the tenures of expirable permits that are live at once are never more than
/// the number that was set. The tenure of an id lasts from its grant to the end of the lease, or to
/// the release of the id. Tenures and number are told from the replies alone.
pub fn no_more_permits_are_live_than_were_set()
    ensures { (last : ℕ) (entries : List Entry)
        → IsLegal (state_at_start last) entries
        → NeverMoreThanSet (state_at_start last) entries }
{}
