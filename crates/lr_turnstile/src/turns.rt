ghost use Rattle.std.specs.Prelude.{◌≡◌, ◌+◌, ◌^◌, ◌<◌, true, [], ◌∷◌, ◌++◌, length, IsOk, IfOk, IfErr, OnOk, OnErr};
ghost use Rattle.lr_turnstile.specs.Rule.{occupied};
ghost use Rattle.lr_turnstile.specs.Steps.{HasLooked};
ghost use Rattle.lr_turnstile.specs.Views.{HasOwn, IsAlone, left_with, left_same};
ghost use Rattle.lr_turnstile.specs.Passes.{view, IsOf, IsSamePass, HasTurn, HasNoTurn, WasBusy, HasEntered, HasWaited};

use crate::busy::Busy;
use crate::gate::Gate;
use crate::home::Home;
use crate::kept::Kept;
use crate::pass::Pass;
use crate::steps::{Addition, LeaveSame, LeaveWith, Look, TakeTurn};
use lr_model::Entry;
use std::marker::Brand;
use std::sync::Wait;

impl<V: Kept> Gate<V> {
    /// Looks how many entries the history has, of which the pass has then seen all. One load.
    pub fn front(&self, pass: &mut Pass<V>) -> u64
        requires { IsOf self.now pass.old }
        ensures pass { IsSamePass pass.old pass.new }
        ensures slots { pass.new.seat.me.1 ≡ pass.old.seat.me.1 }
        ensures looked { HasLooked (view pass.old) (view pass.new).last_word (view pass.new) }
        ensures front { result ≡ length (view pass.new).seen }
    {
        self.table.shared.load::<Look>(&mut pass.seat, 0) / 2
    }

    /// Takes the turn and the value, if nobody has the turn. One load, and an exchange where the
    /// word is even. It waits for nobody. After either answer the pass may have seen more than
    /// before.
    pub fn try_enter(&self, pass: &mut Pass<V>) -> Result<V, Busy>
        requires of { IsOf self.now pass.old }
        requires free { HasNoTurn pass.old }
        ensures pass { IsSamePass pass.old pass.new }
        ensures ok { IfOk result (λ value. HasEntered V.stands (view pass.old) value (view pass.new)) }
        ensures turn { OnOk result (HasTurn pass.new) }
        ensures busy { IfErr result (λ busy. WasBusy (view pass.old) busy.0 (view pass.new)) }
        ensures none { OnErr result (HasNoTurn pass.new) }

        // It isn't busy where no other pass is out.
        ensures alone { IsAlone (view pass.old) → IsOk result }
    {
        let shared = &self.table.shared;
        let word = shared.load::<Look>(&mut pass.seat, 0);
        if word % 2 == 1 {
            return Err(Busy(word));
        }
        let found = shared.compare_exchange::<TakeTurn>(&mut pass.seat, 0, word, word + 1);
        if found != word {
            return Err(Busy(found));
        }
        match shared
            .exchange(&mut pass.seat, 0, Home { value: None })
            .value
        {
            Some(value) => Ok(value),
            None => unreachable!(),
        }
    }

    /// Waits until nobody has the turn, and takes it with the value. While it waits it naps.
    pub fn enter<R: Wait>(&self, rt: &R, pass: &mut Pass<V>) -> V
        requires of { IsOf self.now pass.old }
        requires free { HasNoTurn pass.old }
        ensures pass { IsSamePass pass.old pass.new }
        ensures turn { HasTurn pass.new }
        ensures entered { HasWaited V.stands (view pass.old) result (view pass.new) }
    {
        let mut tries = 0u32;
        for _ in rt.forever() {
            match self.try_enter(pass) {
                Ok(value) => return value,
                Err(_) => self.naps.pause(rt, tries),
            }
            tries = tries.saturating_add(1);
        }
        unreachable!()
    }

    /// Gives the value back and the turn up, with an entry of the pass's number, with which the
    /// value stands for the history. The pass has then seen the entry.
    pub fn leave_with(&self, pass: &mut Pass<V>, value: V, entry: Entry)
        requires of { IsOf self.now pass.old }
        requires turn { HasTurn pass.old }
        requires caller { entry.caller ≡ (view pass.old).caller }
        requires room { length (view pass.old).seen + 1 < 2 ^ 63 }
        requires value { V.stands value 0 ((view pass.old).seen ++ entry ∷ []) }
        ensures pass { IsSamePass pass.old pass.new }
        ensures free { HasNoTurn pass.new }
        ensures left { view pass.new ≡ left_with entry (view pass.old) }
        ensures own { HasOwn (view pass.new) }
    {
        self.put(pass, value);
        self.add::<Brand>(pass, &entry);
    }

    /// Gives the value back and the turn up, with no entry. It takes no memory.
    pub fn leave_same(&self, pass: &mut Pass<V>, value: V)
        requires of { IsOf self.now pass.old }
        requires turn { HasTurn pass.old }
        requires value { V.stands value 0 (view pass.old).seen }
        ensures pass { IsSamePass pass.old pass.new }
        ensures free { HasNoTurn pass.new }
        ensures left { view pass.new ≡ left_same (view pass.old) }
    {
        self.put(pass, value);
        self.table
            .shared
            .fetch_sub::<LeaveSame>(&mut pass.seat, 0, 1);
    }

    // Puts the value into the place behind the gate, which is still the pass's.
    fn put(&self, pass: &mut Pass<V>, value: V)
        requires of { IsOf self.now pass.old }
        requires turn { HasTurn pass.old }
        ensures pass { IsSamePass pass.old pass.new }
        ensures home { pass.new.seat.me ≡ (view pass.old, (0, occupied value) ∷ []) }
    {
        let home = Home { value: Some(value) };
        let Home { value } = self.table.shared.exchange(&mut pass.seat, 0, home);
        match value {
            None => {}
            Some(_) => unreachable!(),
        }
    }

    // Gives the turn up with the entry. The step itself has no way to be told of it but by `E`.
    fn add<E: Addition>(&self, pass: &mut Pass<V>, entry: &Entry)
        requires entry { entry.now ≡ E.entry }
        requires of { IsOf self.now pass.old }
        requires turn { (view pass.old).has_turn ≡ true }
        requires caller { E.entry.caller ≡ (view pass.old).caller }
        requires room { length (view pass.old).seen + 1 < 2 ^ 63 }
        requires value { (value : V) × (pass.old.seat.me.1 ≡ (0, occupied value) ∷ [])
            × V.stands value 0 ((view pass.old).seen ++ E.entry ∷ []) }
        ensures pass { IsSamePass pass.old pass.new }
        ensures free { HasNoTurn pass.new }
        ensures left { view pass.new ≡ left_with E.entry (view pass.old) }
        ensures own { HasOwn (view pass.new) }
    {
        let _named = entry;
        self.table
            .shared
            .fetch_add::<LeaveWith<E>>(&mut pass.seat, 0, 1);
    }
}
