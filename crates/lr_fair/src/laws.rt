ghost use Rattle.std.specs.Prelude.{◌≡◌, ◌≤◌, ℕ, List, None};
ghost use Rattle.lr_names.specs.Key.{key_text};
ghost use Rattle.lr_names.specs.Name.{IsName};
ghost use Rattle.lr_keys.specs.KeySpace.{Keys, entry_at, live_entry};
ghost use Rattle.lr_limits.specs.Limits.{last_moment};
ghost use Rattle.lr_model.specs.Answer.{Objects, no_objects};
ghost use Rattle.lr_fair.specs.Stands.{FairLocksStand};
ghost use Rattle.lr_names.specs.declared.part.Part.TheVariants.{Fair, FairQueue, FairStale};

/// A key space without keys, as a new one, stands for no locks.
pub fn no_keys_stand_for_no_fair_locks()
    ensures { (keys : Keys) → entry_at keys ≡ (λ _. None) → FairLocksStand keys no_objects }
{}

/// Where the three keys of each lock go on to hold what is live of them, as in a call of another
/// kind, the keys stand for the same locks.
pub fn fair_locks_stand_later()
    ensures { (old new : Keys) (objects : Objects) → FairLocksStand old objects
        → old.moment ≤ new.moment → new.moment ≤ last_moment
        → ((name : List ℕ) → IsName name
        → entry_at new (key_text Fair name)
        ≡ live_entry new.moment (entry_at old (key_text Fair name)))
        → ((name : List ℕ) → IsName name
        → entry_at new (key_text FairQueue name)
        ≡ live_entry new.moment (entry_at old (key_text FairQueue name)))
        → ((name : List ℕ) → IsName name
        → entry_at new (key_text FairStale name)
        ≡ live_entry new.moment (entry_at old (key_text FairStale name)))
        → FairLocksStand new objects }
{}
