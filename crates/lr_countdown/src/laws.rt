ghost use Rattle.std.specs.Prelude.{◌≡◌, ◌≤◌, ℕ, List, None};
ghost use Rattle.lr_names.specs.Key.{key_text};
ghost use Rattle.lr_names.specs.Name.{IsName};
ghost use Rattle.lr_keys.specs.KeySpace.{Keys, entry_at, live_entry};
ghost use Rattle.lr_limits.specs.Limits.{last_moment};
ghost use Rattle.lr_model.specs.Answer.{Objects, no_objects};
ghost use Rattle.lr_countdown.specs.Stands.{CountdownsStand};
ghost use Rattle.lr_names.specs.declared.part.Part.TheVariants.{Countdown};

/// A key space without keys, as a new one, stands for latches that are all at 0.
pub fn no_keys_stand_for_no_countdowns()
    ensures { (keys : Keys) → entry_at keys ≡ (λ _. None) → CountdownsStand keys no_objects }
{}

/// Where the key of each latch goes on to hold what is live of it, as in a call of another kind,
/// the keys stand for the same latches.
pub fn countdowns_stand_later()
    ensures { (old new : Keys) (objects : Objects) → CountdownsStand old objects
        → old.moment ≤ new.moment → new.moment ≤ last_moment
        → ((name : List ℕ) → IsName name
        → entry_at new (key_text Countdown name)
        ≡ live_entry new.moment (entry_at old (key_text Countdown name)))
        → CountdownsStand new objects }
{}
