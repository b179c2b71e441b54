ghost use Rattle.std.specs.Prelude.{ℕ, List};
ghost use Rattle.lr_model.specs.declared.entry.Entry.{Entry};
ghost use Rattle.lr_model.specs.History.{state_at_start, IsLegal};
ghost use Rattle.lr_model.specs.Tenure.{NoConflict};

/// In no legal history are two claims that conflict held at the same time. A claim is what an owner
/// can hold: an object of a kind, by its name, in a mode. Two claims conflict where they are of one
/// object and of two owners, and one of them is exclusive.
pub fn tenures_never_conflict()
    ensures { (last : ℕ) (entries : List Entry)
        → IsLegal (state_at_start last) entries → NoConflict (state_at_start last) entries }
{}
