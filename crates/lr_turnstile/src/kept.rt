ghost use Rattle.std.specs.Prelude.{ℕ, List};
ghost use Rattle.lr_model.specs.declared.entry.Entry.{Entry};

/// A value that a gate keeps. It stands for a history.
pub trait Kept {
    /// Whether the value stands for these entries, which are the whole history, where it stores
    /// those from this place on. A gate asks for those from the place 0 on.
    ghost stands: { Self → ℕ → List Entry → Type 0 };
}
