ghost use Rattle.std.specs.Prelude.{ℕ, List};
ghost use Rattle.lr_model.specs.declared.entry.Entry.{Entry};
ghost use Rattle.lr_model.specs.History.{state_at_start, IsLegal};
ghost use Rattle.lr_model.specs.CountdownCounts.{CountsDown};

/// In every legal history each count of a latch that is answered is the number to which the latch
/// was set last, less the times it was counted down since, and never below 0. The answer to a
/// countdown counts that one too. A latch that was never set is at 0.
pub fn latches_count_down()
    ensures { (last : ℕ) (entries : List Entry)
        → IsLegal (state_at_start last) entries → CountsDown (state_at_start last) entries }
{}
