ghost use Rattle.std.specs.Prelude.{◌≡◌, ◌+◌, ◌<◌, true, false, [], length, All, IfOk};
ghost use Rattle.lr_model.specs.History.{IsLegal, state_at_start};
ghost use Rattle.lr_turnstile.specs.Views.{entries_by, first_view, HasOwn, IsAlone, after_split, split_off, after_join};
ghost use Rattle.lr_turnstile.specs.Steps.{HasLooked};
ghost use Rattle.lr_turnstile.specs.Passes.{view, IsSamePass, HasNoTurn};
ghost use Rattle.lr_service.specs.Served.{server_at};
ghost use Rattle.lr_service.specs.Passes.{IsPassOf};

use crate::served::Served;
use crate::service::Service;
use lr_server::ServerState;
use lr_turnstile::{Gate, Pass};
use std::alloc::{AllocError, Global};

/// More passes than this are never made of one service.
const MOST_PASSES: u64 = 9_007_199_254_740_991;

impl Service {
    /// A server that has just started, with connection 0 open, and the first pass.
    pub fn new(alloc: Global) -> Result<(Service, Pass<Served>), AllocError>
        ensures of { IfOk result (λ made. IsPassOf made.0 made.1) }
        ensures free { IfOk result (λ made. HasNoTurn made.1) }
        ensures first { IfOk result (λ made. view made.1 ≡ first_view) }
    {
        let state = ServerState::new(alloc, 0)?;
        let (gate, pass) = Gate::new(alloc, Served { state })?;
        Ok((Service { gate }, pass))
    }

    /// Makes another pass, from the first one. Its number is how many were made before, and it has
    /// seen what the first one has. It takes no memory, and waits for nobody.
    pub fn split(&self, pass: &mut Pass<Served>) -> Pass<Served>
        requires of { IsPassOf self.now pass.old }
        requires free { HasNoTurn pass.old }
        requires first { (view pass.old).is_first ≡ true }
        requires room { (view pass.old).made < MOST_PASSES }
        ensures pass { IsSamePass pass.old pass.new }
        ensures no_turn { HasNoTurn pass.new }
        ensures made { view pass.new ≡ after_split (view pass.old) }
        ensures other_of { IsPassOf self.entry.now result }
        ensures other_free { HasNoTurn result }
        ensures other { view result ≡ split_off (view pass.old) }
    {
        self.gate.split(pass)
    }

    /// Takes another pass into the first one, which then has seen what both had, and keeps the
    /// number of the other and the entries that it made. It waits for nobody.
    pub fn join(&self, pass: &mut Pass<Served>, other: Pass<Served>)
        requires of { IsPassOf self.now pass.old }
        requires free { HasNoTurn pass.old }
        requires first { (view pass.old).is_first ≡ true }
        requires other_of { IsPassOf self.now other }
        requires other_free { HasNoTurn other }
        requires other { (view other).is_first ≡ false }
        ensures pass { IsSamePass pass.old pass.new }
        ensures no_turn { HasNoTurn pass.new }
        ensures joined { view pass.new ≡ after_join (view pass.old) (view other) }
    {
        self.gate.join(pass, other);
    }

    /// Looks how many entries the history has, of which the pass has then seen all.
    pub fn front(&self, pass: &mut Pass<Served>) -> u64
        requires of { IsPassOf self.now pass.old }
        requires free { HasNoTurn pass.old }
        ensures pass { IsSamePass pass.old pass.new }
        ensures no_turn { HasNoTurn pass.new }
        ensures looked { HasLooked (view pass.old) (view pass.new).last_word (view pass.new) }
        ensures front { result ≡ length (view pass.new).seen }
    {
        self.gate.front(pass)
    }

    /// Ends the service, once every other pass was joined, and gives the server. Its history is all
    /// that the first pass has seen: the calls of all passes.
    pub fn finish(self, pass: Pass<Served>) -> ServerState
        requires of { IsPassOf self pass }
        requires free { HasNoTurn pass }
        requires alone { IsAlone (view pass) }
        ensures server { result ≡ server_at (view pass).seen }
        ensures legal { IsLegal (state_at_start 0) (view pass).seen }

        // All passes that were made but the first one were joined, no entry is of another, and each
        // has the entries that it made.
        ensures counted { (view pass).made ≡ length (view pass).joined + 1 }
        ensures made { All (λ entry. entry.caller < (view pass).made) (view pass).seen }
        ensures own { HasOwn (view pass) }
        ensures joined { All (λ other. entries_by other.0 (view pass).seen ≡ other.1)
            (view pass).joined }
    {
        let Service { gate } = self;
        let Served { state } = gate.close(pass);
        state
    }
}
