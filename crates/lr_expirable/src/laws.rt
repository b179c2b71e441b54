ghost use Rattle.std.specs.Prelude.{◌≡◌, ℕ, List, None};
ghost use Rattle.lr_names.specs.Key.{key_text};
ghost use Rattle.lr_names.specs.Name.{IsName};
ghost use Rattle.lr_keys.specs.KeySpace.{Keys, entry_at, live_entry};
ghost use Rattle.lr_model.specs.Answer.{Objects, no_objects};
ghost use Rattle.lr_expirable.specs.Stands.{PermitsStand};
ghost use Rattle.lr_names.specs.declared.part.Part.TheVariants.{Permits, PermitLeases};

/// A key space without keys, as a new one, stands for no permits.
pub fn no_keys_stand_for_no_permits()
    ensures { (keys : Keys) → entry_at keys ≡ (λ _. None) → PermitsStand keys no_objects }
{}

/// Where the two keys of each name go on to hold what is live of them, as in a call of another
/// kind, the keys stand for the same permits.
pub fn permits_stand_later()
    ensures { (old new : Keys) (objects : Objects) → PermitsStand old objects
        → ((name : List ℕ) → IsName name
        → entry_at new (key_text Permits name)
        ≡ live_entry new.moment (entry_at old (key_text Permits name)))
        → ((name : List ℕ) → IsName name
        → entry_at new (key_text PermitLeases name)
        ≡ live_entry new.moment (entry_at old (key_text PermitLeases name)))
        → PermitsStand new objects }
{}
