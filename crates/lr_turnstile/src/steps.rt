//! The rule of the gate, and the kinds of single steps under it.
use crate::home::Home;
use crate::kept::Kept;
use crate::view::View;
use atomic_table::{Join, Play, Split, TableRule};
use std::marker::{Brand, PhantomData};

/// What is true of the word, the place behind the gate and all passes, between any two steps.
pub struct GateRule;

impl<V: Kept> TableRule<Home<V>, View, ()> for GateRule {
    ghost use Rattle.lr_turnstile.specs.Rule.{IsGate};
    ghost use Rattle.lr_turnstile.specs.Views.{first_view};

    ghost holds = { λ _. IsGate V.stands };

    ghost first = { λ _. first_view };
}

/// A load of the word.
pub struct Look;

impl<V> Play<Home<V>, View> for Look {
    ghost use Rattle.lr_turnstile.specs.Steps.{LookTells};

    ghost then = { LookTells };
}

/// An exchange of an even word for the next odd one, which takes the turn, or fails.
pub struct TakeTurn;

impl<V: Kept> Play<Home<V>, View> for TakeTurn {
    ghost use Rattle.lr_turnstile.specs.Steps.{TakeTells};

    ghost then = { TakeTells V.stands };
}

/// The entry that a step adds. Each call of a function that is generic in it picks one.
pub trait Addition {
    ghost use Rattle.lr_model.specs.declared.entry.Entry.{Entry};

    ghost entry: { Entry };
}

impl Addition for Brand {
    ghost use Rattle.lr_model.specs.declared.entry.Act.TheVariants.{Open};

    ghost entry = { record { moment = 0; caller = 0; conn = 0; act = Open } };
}

/// An addition of 1 to the word, which gives the turn up with an entry.
pub struct LeaveWith<E> {
    entry: PhantomData<E>,
}

impl<V, E: Addition> Play<Home<V>, View> for LeaveWith<E> {
    ghost use Rattle.lr_turnstile.specs.Steps.{LeaveWithTells};

    ghost then = { LeaveWithTells E.entry };
}

/// A subtraction of 1 from the word, which gives the turn up and makes no entry.
pub struct LeaveSame;

impl<V> Play<Home<V>, View> for LeaveSame {
    ghost use Rattle.lr_turnstile.specs.Steps.{LeaveSameTells};

    ghost then = { LeaveSameTells };
}

/// How a pass is split off the first one, and joined into it.
pub struct Parting;

impl Split<View> for Parting {
    ghost use Rattle.lr_turnstile.specs.Views.{after_split, split_off};

    ghost left = { after_split };

    ghost right = { split_off };
}

impl Join<View> for Parting {
    ghost use Rattle.lr_turnstile.specs.Views.{after_join, spent_view};

    ghost both = { after_join };

    ghost spent = { spent_view };
}
