ghost use Rattle.std.specs.Prelude.{◌≡◌, Some, IsTrue};
ghost use Rattle.std.specs.Option.{ForSome};
ghost use Rattle.lr_model.specs.declared.entry.Act.{Act};
ghost use Rattle.lr_turnstile.specs.Views.{HasOwn, IsSame};
ghost use Rattle.lr_turnstile.specs.Passes.{view, IsSamePass, HasTurn, HasNoTurn};
ghost use Rattle.lr_server.specs.Server.{act_of};
ghost use Rattle.lr_server.specs.Looked.{is_quiet, is_step};
ghost use Rattle.lr_service.specs.Served.{IsServed};
ghost use Rattle.lr_service.specs.Passes.{IsPassOf, CanUse};
ghost use Rattle.lr_service.specs.Calls.{entries_with, HadTurn, IsServedTo, IsShownTo};

use crate::served::Served;
use crate::service::Service;
use lr_model::Entry;
use lr_server::{Answered, Request, ServerState, StepFault};
use lr_turnstile::Pass;

impl Service {
    // Does what a request asks, and gives the server back.
    pub(crate) fn serve(
        &self,
        pass: &mut Pass<Served>,
        served: Served,
        reading: u64,
        conn: u32,
        request: &Request,
    ) -> Result<Answered, StepFault>
        requires of { IsPassOf self.now pass.old }
        requires turn { HasTurn pass.old }
        requires own { HasOwn (view pass.old) }
        requires server { IsServed served.state (view pass.old).seen }
        requires conn { CanUse (view pass.old) conn }
        requires request { IsTrue (is_step request.now) }
        ensures pass { IsSamePass pass.old pass.new }
        ensures free { HasNoTurn pass.new }
        ensures same { IsSame (view pass.old) (view pass.new) }
        ensures served { (act : Act) → act_of request.now ≡ Some act
            → IsServedTo (view pass.old) reading conn act result (view pass.new) }
        ensures shown { IsTrue (is_quiet request.now)
            → IsShownTo (view pass.old) reading conn request.now result (view pass.new) }
    {
        let Served { mut state } = served;
        let before = state.history().len();
        let result = state.step(reading, pass.caller(), conn, request);
        let made = state.history().get(before);
        self.leave(pass, state, made);
        result
    }

    // Gives the server back and the turn up, with what was made meanwhile.
    pub(crate) fn leave(&self, pass: &mut Pass<Served>, state: ServerState, made: Option<Entry>)
        requires of { IsPassOf self.now pass.old }
        requires turn { HasTurn pass.old }
        requires own { HasOwn (view pass.old) }
        requires server { IsServed state (entries_with (view pass.old).seen made) }
        requires caller { ForSome made (λ entry. entry.caller ≡ (view pass.old).caller) }
        ensures pass { IsSamePass pass.old pass.new }
        ensures free { HasNoTurn pass.new }
        ensures left { HadTurn (view pass.old) (view pass.old).seen made (view pass.new) }
    {
        let _count = state.history().len();
        match made {
            Some(entry) => self.gate.leave_with(pass, Served { state }, entry),
            None => self.gate.leave_same(pass, Served { state }),
        }
    }
}
