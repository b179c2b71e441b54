ghost use Rattle.std.specs.Prelude.{◌≡◌, ℕ, ◌+◌, ◌<◌, List, Bool, true, Some};
ghost use Rattle.lr_names.specs.Owner.{ThreadOfClient};
ghost use Rattle.lr_objects.specs.Op.{call_on};
ghost use Rattle.lr_objects.specs.declared.op.Op.{Op};
ghost use Rattle.lr_objects.specs.declared.fair.FairCall.TheVariants.{Try};
ghost use Rattle.lr_objects.specs.declared.kinds.Call.TheVariants.{Fair};
ghost use Rattle.lr_objects.specs.declared.reply.Reply.TheVariants.{Granted, Busy};
ghost use Rattle.lr_model.specs.Answer.{Objects, reply_of, objects_after};
ghost use Rattle.lr_model.specs.Fair.{FairPlace, place_wait, place_of};
ghost use Rattle.lr_laws.specs.FairTurns.{HasTurn, IsFairCallOf, HasPlaceUntil};

/// Nobody is granted a fair lock past another who is first in its queue. Where a try of an owner is
/// granted, the owner holds the lock already, or nobody does and no place is before the owner's: of
/// the places that aren't stale at that moment the first is the owner's, or there is none. This is
/// so over whatever objects, and so over those after any legal history, as the laws below are.
pub fn fair_tries_never_overtake()
    ensures { (objects : Objects) (moment : ℕ) (name : List ℕ) (owner : ThreadOfClient)
        (lease : ℕ) (queues : Bool)
        → reply_of objects moment (call_on name (Fair (Try owner lease queues))) ≡ Granted
        → HasTurn moment owner (objects.fair_locks name) }
{}

/// A place in the queue of a fair lock stays as it is until it is stale, but for the calls of its
/// own owner on that lock. No other call takes it away, or changes when it goes stale.
pub fn fair_places_stay()
    ensures { (objects : Objects) (moment : ℕ) (op : Op) (name : List ℕ) (owner : ThreadOfClient)
        (place : FairPlace)
        → place_of owner (objects.fair_locks name).queue ≡ Some place
        → moment < place.stale
        → (IsFairCallOf name owner op → ⊥)
        → place_of owner ((objects_after objects moment op).fair_locks name).queue ≡ Some place }
{}

/// Whoever asks for a place in the queue of a fair lock and is told how long to wait has one. It
/// lasts at least five seconds longer than that.
pub fn fair_waits_have_places()
    ensures { (objects : Objects) (moment : ℕ) (name : List ℕ) (owner : ThreadOfClient)
        (lease : ℕ) (millis : ℕ)
        → reply_of objects moment (call_on name (Fair (Try owner lease true))) ≡ Busy millis
        → HasPlaceUntil owner (moment + millis + place_wait)
        ((objects_after objects moment (call_on name (Fair (Try owner lease true)))).fair_locks name) }
{}
