ghost use Rattle.std.specs.Prelude.{◌≡◌, ◌+◌, ◌<◌, true, false, [], length, All, IfOk};
ghost use Rattle.lr_turnstile.specs.Views.{entries_by, first_view, HasOwn, IsAlone, after_split, split_off, after_join};
ghost use Rattle.lr_turnstile.specs.Passes.{view, IsOf, IsSamePass, HasNoTurn};

use crate::gate::Gate;
use crate::home::Home;
use crate::kept::Kept;
use crate::naps::Naps;
use crate::pass::Pass;
use crate::steps::Parting;
use atomic_table::Table;
use std::alloc::{AllocError, Global};

/// More passes than this are never made of one gate.
const MOST_PASSES: u64 = 9_007_199_254_740_991;

impl<V: Kept> Gate<V> {
    /// A gate before this value, with its first pass. The value stands for a history with no
    /// entries.
    pub fn new(alloc: Global, value: V) -> Result<(Gate<V>, Pass<V>), AllocError>
    where
        V: Drop,
        requires { V.stands value 0 [] }
        ensures of { IfOk result (λ made. IsOf made.0 made.1) }
        ensures free { IfOk result (λ made. HasNoTurn made.1) }
        ensures first { IfOk result (λ made. view made.1 ≡ first_view) }
    {
        let mut homes = Vec::new(alloc);
        homes.reserve(1)?;
        homes.push_reserved(Home { value: Some(value) });
        match Table::new(alloc, &[0], homes, &()) {
            Ok((table, seat)) => Ok((
                Gate {
                    table,
                    naps: Naps::new(),
                },
                Pass {
                    seat,
                    caller: 0,
                    made: 1,
                },
            )),
            Err(_) => Err(AllocError),
        }
    }

    /// Makes another pass, from the first one. Its number is how many were made before, and it has
    /// seen what the first one has. It takes no memory, and waits for nobody.
    pub fn split(&self, pass: &mut Pass<V>) -> Pass<V>
        requires of { IsOf self.now pass.old }
        requires free { HasNoTurn pass.old }
        requires first { (view pass.old).is_first ≡ true }
        requires room { (view pass.old).made < MOST_PASSES }
        ensures pass { IsSamePass pass.old pass.new }
        ensures same { HasNoTurn pass.new }
        ensures made { view pass.new ≡ after_split (view pass.old) }
        ensures other_of { IsOf self.entry.now result }
        ensures other_free { HasNoTurn result }
        ensures other { view result ≡ split_off (view pass.old) }
    {
        let other = self.table.shared.split_seat::<Parting>(&mut pass.seat);
        let caller = pass.made;
        pass.made = caller + 1;
        Pass {
            seat: other,
            caller,
            made: 0,
        }
    }

    /// Takes another pass into the first one, which then has seen what both had, and keeps the
    /// number of the other and the entries that it made. It waits for nobody.
    pub fn join(&self, pass: &mut Pass<V>, other: Pass<V>)
        requires of { IsOf self.now pass.old }
        requires free { HasNoTurn pass.old }
        requires first { (view pass.old).is_first ≡ true }
        requires other_of { IsOf self.now other }
        requires other_free { HasNoTurn other }
        requires other { (view other).is_first ≡ false }
        ensures pass { IsSamePass pass.old pass.new }
        ensures same { HasNoTurn pass.new }
        ensures joined { view pass.new ≡ after_join (view pass.old) (view other) }
    {
        let Pass { seat: other, .. } = other;
        self.table
            .shared
            .join_seat::<Parting>(&mut pass.seat, other);
    }

    /// Takes the gate down, once every other pass was joined. The value stands for the whole
    /// history, which the first pass has seen.
    pub fn close(self, pass: Pass<V>) -> V
        requires of { IsOf self pass }
        requires free { HasNoTurn pass }
        requires alone { IsAlone (view pass) }
        ensures value { V.stands result 0 (view pass).seen }

        // All passes that were made but the first one were joined, no entry is of another, and each
        // has the entries that it made.
        ensures counted { (view pass).made ≡ length (view pass).joined + 1 }
        ensures made { All (λ entry. entry.caller < (view pass).made) (view pass).seen }
        ensures own { HasOwn (view pass) }
        ensures joined { All (λ other. entries_by other.0 (view pass).seen ≡ other.1)
            (view pass).joined }
    {
        let Gate { table, naps: _ } = self;
        let Pass { seat, .. } = pass;
        let mut closed = table.close_with(seat);
        let Home { value } = closed.take(0);
        closed.free();
        match value {
            Some(value) => value,
            None => unreachable!(),
        }
    }
}
