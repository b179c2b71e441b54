ghost use Rattle.std.specs.Prelude.{◌≡◌, ℕ, List, None};
ghost use Rattle.lr_names.specs.Key.{key_text};
ghost use Rattle.lr_names.specs.Name.{IsName};
ghost use Rattle.lr_keys.specs.KeySpace.{Keys, entry_at, live_entry};
ghost use Rattle.lr_model.specs.Answer.{Objects, no_objects};
ghost use Rattle.lr_rw.specs.Stands.{ReadWriteLocksStand};
ghost use Rattle.lr_names.specs.declared.part.Part.TheVariants.{Rw, RwDeadlines};

/// A key space without keys, as a new one, stands for no locks.
pub fn no_keys_stand_for_no_read_write_locks()
    ensures { (keys : Keys) → entry_at keys ≡ (λ _. None) → ReadWriteLocksStand keys no_objects }
{}

/// Where the two keys of each lock go on to hold what is live of them, as in a call of another
/// kind, the keys stand for the same locks.
pub fn read_write_locks_stand_later()
    ensures { (old new : Keys) (objects : Objects) → ReadWriteLocksStand old objects
        → ((name : List ℕ) → IsName name
        → entry_at new (key_text Rw name)
        ≡ live_entry new.moment (entry_at old (key_text Rw name)))
        → ((name : List ℕ) → IsName name
        → entry_at new (key_text RwDeadlines name)
        ≡ live_entry new.moment (entry_at old (key_text RwDeadlines name)))
        → ReadWriteLocksStand new objects }
{}
