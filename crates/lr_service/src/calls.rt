ghost use Rattle.std.specs.Prelude.{◌≡◌, ◌≢◌, ℕ, Some, IsTrue, IfOk};
ghost use Rattle.lr_model.specs.declared.entry.Act.{Act};
ghost use Rattle.lr_turnstile.specs.Views.{IsAlone, IsSame};
ghost use Rattle.lr_turnstile.specs.Passes.{view, IsSamePass, HasNoTurn};
ghost use Rattle.lr_server.specs.Server.{act_of};
ghost use Rattle.lr_server.specs.Looked.{is_quiet, is_step};
ghost use Rattle.lr_service.specs.Passes.{IsPassOf, IsOwnConnection, CanUse, CanClose, KeepsConnections};
ghost use Rattle.lr_service.specs.Calls.{IsServedTo, IsShownTo, IsTried, IsTriedShown, IsOpened, IsDrained, IsClosed};

use crate::fault::TryFault;
use crate::served::Served;
use crate::service::Service;
use lr_server::{Answered, Pushes, Request, StepFault};
use lr_turnstile::{Busy, Pass};
use std::sync::Wait;

impl Service {
    /// Does what a request asks, on connection 0 or one of the pass's own. It is a call, or one
    /// channel is subscribed to or left, or a look at the keys, or a ping.
    ///
    /// Whatever is answered, the pass may have seen more than before. The answer and each fault are
    /// the server's at what the pass has then seen, up to the entry of this call, which is the last
    /// that it has seen. After a fault no entry was made, and a look or a ping makes none.
    pub fn call<R: Wait>(
        &self,
        rt: &R,
        pass: &mut Pass<Served>,
        reading: u64,
        conn: u32,
        request: &Request,
    ) -> Result<Answered, StepFault>
        requires of { IsPassOf self.now pass.old }
        requires free { HasNoTurn pass.old }
        requires conn { CanUse (view pass.old) conn }
        requires request { IsTrue (is_step request.now) }
        ensures pass { IsSamePass pass.old pass.new }
        ensures free { HasNoTurn pass.new }
        ensures same { IsSame (view pass.old) (view pass.new) }
        ensures served { (act : Act) → act_of request.now ≡ Some act
            → IsServedTo (view pass.old) reading conn act result (view pass.new) }
        ensures shown { IsTrue (is_quiet request.now)
            → IsShownTo (view pass.old) reading conn request.now result (view pass.new) }
        ensures keeps { KeepsConnections (view pass.old) (view pass.new) }
    {
        let served = self.gate.enter(rt, pass);
        self.serve(pass, served, reading, conn, request)
    }

    /// The same, but it waits for nobody: where another pass has the turn, or comes first, it
    /// answers `Busy`, and the pass may have seen more. That never comes where no other pass is
    /// out.
    pub fn try_call(
        &self,
        pass: &mut Pass<Served>,
        reading: u64,
        conn: u32,
        request: &Request,
    ) -> Result<Answered, TryFault>
        requires of { IsPassOf self.now pass.old }
        requires free { HasNoTurn pass.old }
        requires conn { CanUse (view pass.old) conn }
        requires request { IsTrue (is_step request.now) }
        ensures pass { IsSamePass pass.old pass.new }
        ensures free { HasNoTurn pass.new }
        ensures same { IsSame (view pass.old) (view pass.new) }
        ensures tried { (act : Act) → act_of request.now ≡ Some act
            → IsTried (view pass.old) reading conn act result (view pass.new) }
        ensures tried_shown { IsTrue (is_quiet request.now)
            → IsTriedShown (view pass.old) reading conn request.now result (view pass.new) }
        ensures keeps { KeepsConnections (view pass.old) (view pass.new) }
        ensures alone { IsAlone (view pass.old) → (word : ℕ) → result ≢ Err (TryFault.Busy word) }
    {
        let served = match self.gate.try_enter(pass) {
            Ok(served) => served,
            Err(Busy(word)) => return Err(TryFault::Busy(word)),
        };
        match self.serve(pass, served, reading, conn, request) {
            Ok(answered) => Ok(answered),
            Err(fault) => Err(TryFault::Step(fault)),
        }
    }

    /// Opens a connection, which is then the pass's own, and gives its number.
    pub fn open<R: Wait>(
        &self,
        rt: &R,
        pass: &mut Pass<Served>,
        reading: u64,
    ) -> Result<u32, StepFault>
        requires of { IsPassOf self.now pass.old }
        requires free { HasNoTurn pass.old }
        ensures pass { IsSamePass pass.old pass.new }
        ensures free { HasNoTurn pass.new }
        ensures same { IsSame (view pass.old) (view pass.new) }
        ensures opened { IsOpened (view pass.old) reading result (view pass.new) }
        ensures own { IfOk result (IsOwnConnection (view pass.new)) }
        ensures not_first { IfOk result (λ conn. conn ≢ 0) }
        ensures keeps { KeepsConnections (view pass.old) (view pass.new) }
    {
        let Served { mut state } = self.gate.enter(rt, pass);
        let before = state.history().len();
        let result = state.open(reading, pass.caller());
        let made = state.history().get(before);
        self.leave(pass, state, made);
        result
    }

    /// Takes the first items of the outbox of connection 0 or one of the pass's own, at most so
    /// many. Where it takes none it makes no entry.
    pub fn drain<R: Wait>(
        &self,
        rt: &R,
        pass: &mut Pass<Served>,
        reading: u64,
        conn: u32,
        most: u32,
    ) -> Result<Pushes, StepFault>
        requires of { IsPassOf self.now pass.old }
        requires free { HasNoTurn pass.old }
        requires conn { CanUse (view pass.old) conn }
        ensures pass { IsSamePass pass.old pass.new }
        ensures free { HasNoTurn pass.new }
        ensures same { IsSame (view pass.old) (view pass.new) }
        ensures drained { IsDrained (view pass.old) reading conn most result (view pass.new) }
        ensures keeps { KeepsConnections (view pass.old) (view pass.new) }
    {
        let Served { mut state } = self.gate.enter(rt, pass);
        let before = state.history().len();
        let result = state.drain(reading, pass.caller(), conn, most);
        let made = state.history().get(before);
        self.leave(pass, state, made);
        result
    }

    /// Closes one of the pass's own connections, but not connection 0. It is never refused.
    pub fn close<R: Wait>(&self, rt: &R, pass: &mut Pass<Served>, reading: u64, conn: u32)
        requires of { IsPassOf self.now pass.old }
        requires free { HasNoTurn pass.old }
        requires conn { CanClose (view pass.old) conn }
        ensures pass { IsSamePass pass.old pass.new }
        ensures free { HasNoTurn pass.new }
        ensures same { IsSame (view pass.old) (view pass.new) }
        ensures closed { IsClosed (view pass.old) reading conn (view pass.new) }
        ensures keeps { (other : ℕ) → other ≢ conn
            → IsOwnConnection (view pass.old) other → IsOwnConnection (view pass.new) other }
    {
        let Served { mut state } = self.gate.enter(rt, pass);
        let before = state.history().len();
        state.close(reading, pass.caller(), conn);
        let made = state.history().get(before);
        self.leave(pass, state, made);
    }
}
