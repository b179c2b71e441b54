ghost use Rattle.std.specs.Prelude.{ℕ, List};
ghost use Rattle.lr_model.specs.declared.entry.Entry.{Entry};
ghost use Rattle.lr_model.specs.History.{state_at_start, IsLegal};
ghost use Rattle.lr_model.specs.Tokens.{TokensGrow};

/// In every legal history the tokens of a fenced lock strictly grow: an owner that doesn't hold the
/// lock and is granted it gets a token that is one more than the last of this lock, and one that
/// holds it and takes it once more gets the last again. Before the first token the last is 0. Who
/// holds and which token was last is told from the replies alone.
pub fn tokens_strictly_grow()
    ensures { (last : ℕ) (entries : List Entry)
        → IsLegal (state_at_start last) entries → TokensGrow (state_at_start last) entries }
{}
