ghost use Rattle.std.specs.Prelude.{◌≡◌, ◌≤◌, ℕ, List, None};
ghost use Rattle.lr_names.specs.Key.{key_text};
ghost use Rattle.lr_names.specs.Name.{IsName};
ghost use Rattle.lr_keys.specs.KeySpace.{Keys, entry_at, live_entry};
ghost use Rattle.lr_limits.specs.Limits.{last_moment};
ghost use Rattle.lr_model.specs.Answer.{Objects, no_objects};
ghost use Rattle.lr_semaphore.specs.Stands.{SemaphoresStand};
ghost use Rattle.lr_names.specs.declared.part.Part.TheVariants.{Semaphore};

/// A key space without keys, as a new one, stands for no semaphores.
pub fn no_keys_stand_for_no_semaphores()
    ensures { (keys : Keys) → entry_at keys ≡ (λ _. None) → SemaphoresStand keys no_objects }
{}

/// Where the key of each semaphore goes on to hold what is live of it, as in a call of another
/// kind, the keys stand for the same semaphores.
pub fn semaphores_stand_later()
    ensures { (old new : Keys) (objects : Objects) → SemaphoresStand old objects
        → old.moment ≤ new.moment → new.moment ≤ last_moment
        → ((name : List ℕ) → IsName name
        → entry_at new (key_text Semaphore name)
        ≡ live_entry new.moment (entry_at old (key_text Semaphore name)))
        → SemaphoresStand new objects }
{}
