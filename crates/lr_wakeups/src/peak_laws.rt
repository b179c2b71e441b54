ghost use Rattle.std.specs.Prelude.{ℕ, List};
ghost use Rattle.lr_model.specs.declared.entry.Entry.{Entry};
ghost use Rattle.lr_model.specs.History.{state_at_start, IsLegal};
ghost use Rattle.lr_wakeups.specs.Peaks.{EndByThePeak, RefusedUntilThePeak};

/// In every legal history no live hold of a plain or a fenced lock lasts longer than the lock's peak,
/// which is told from the history alone.
pub fn live_holds_end_by_the_peak()
    ensures { (last : ℕ) (entries : List Entry)
        → IsLegal (state_at_start last) entries → EndByThePeak (state_at_start last) entries }
{}

/// So a call on such a lock that is refused is told to wait until the peak at most.
pub fn refused_calls_wait_until_the_peak()
    ensures { (last : ℕ) (entries : List Entry)
        → IsLegal (state_at_start last) entries → RefusedUntilThePeak (state_at_start last) entries }
{}
