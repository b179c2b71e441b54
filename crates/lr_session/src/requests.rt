//! How a thread begins a request, sends its call and takes the reply.
ghost use Rattle.std.specs.Prelude.{◌≡◌, ◌≤◌, true, false, Some, None, if◌then◌else◌, IsSome, IfOk, IfErr, OnOk, OnErr};
ghost use Rattle.lr_limits.specs.Limits.{last_moment};
ghost use Rattle.lr_names.specs.Owner.{IsThread};
ghost use Rattle.lr_objects.specs.Function.{arguments_of};
ghost use Rattle.lr_objects.specs.Want.{HasAmount};
ghost use Rattle.lr_waiting.specs.declared.told.Taken.TheVariants as takes;
ghost use Rattle.lr_waiting.specs.declared.waiter.Stage.TheVariants as stages;
ghost use Rattle.lr_waiting.specs.Begin.{CanBegin};
ghost use Rattle.lr_waiting.specs.Latch.{is_subscribed, register_in};
ghost use Rattle.lr_waiting.specs.Session.{phase_in, begin_row, take_row, asked, asking_for, may_wait, refused, registered, taken, with_ticket, without_waiter, entry_for};
ghost use Rattle.lr_waiting.specs.Told.{next_ticket, ticket_of, ask_by, taken_by, taken_with, refused_with};
ghost use Rattle.lr_session.specs.Stages.{want_at};
ghost use Rattle.lr_session.specs.Told.{IsFault, IsNotNow, op_noted};
ghost use Rattle.lr_session.specs.Value.{IsAsking, IsRequest, session_of};

use crate::fault::SessionFault;
use crate::stages::{
    asked_at, at_stage, due_after, has_turn, joined, may_wait, new_waiter, phase_at, turn_at,
    waits_for, want_at,
};
use crate::state::SessionState;
use lr_objects::{Mode, Op, Reply, Want};
use lr_waiting::{Ask, Asking, Phase, Refusal, Stage, Taken, Waiter};
use std::alloc::AllocError;

impl SessionState {
    /// A thread without a request begins one, and has a ticket for its call. `NotNow` where it has
    /// one, or the client was cut off; else `NoMemory`. An error changes nothing.
    pub fn begin(&mut self, thread: u32, mode: Mode, want: &Want) -> Result<Ask, SessionFault>
        requires thread { IsThread thread }
        requires begins { CanBegin mode want.now }
        ensures ok { OnOk result (Some (session_of self.new)
            ≡ begin_row thread mode want.now (session_of self.old)) }
        ensures ticket { IfOk result (λ ask. ask ≡ next_ticket thread (session_of self.old)) }
        ensures fault { let session = session_of self.old in IfErr result
            (IsFault (begin_row thread mode want.now session) (phase_in session thread)) }
        ensures err { OnErr result (self.new ≡ self.old) }
        ensures room { self.new.room ≡ self.old.room }
    {
        if self.is_cut {
            return Err(SessionFault::NotNow(Phase::Cut));
        }
        if let Some(waiter) = self.waiters.get(thread) {
            return Err(SessionFault::NotNow(phase_at(waiter)));
        }
        let turn = self.turn.wrapping_add(1);
        self.waiters.add(thread, new_waiter(mode, *want, turn))?;
        self.turn = turn;
        Ok(Ask { thread, turn })
    }

    /// The ticket that a thread has.
    pub fn ticket(&self, thread: u32) -> Option<Ask>
        ensures { result ≡ ticket_of thread (session_of self.now) }
    {
        let Some(waiter) = self.waiters.get(thread) else {
            return None;
        };
        let turn = turn_at(waiter)?;
        Some(Ask { thread, turn })
    }

    /// A thread sends its call by its ticket, at a moment: this is the call, and the session notes
    /// it. One that gives its place in a queue up sends the call for that. `NotNow` where the ticket
    /// isn't the one that the thread has. It takes no memory, and an error changes nothing.
    pub fn ask(&mut self, ask: Ask, moment: u64) -> Result<Op, SessionFault>
        requires { moment ≤ last_moment }
        ensures ok { OnOk result (Some (session_of self.new)
            ≡ ask_by ask moment (session_of self.old)) }
        ensures op { IfOk result (λ op. op_noted ask.thread (session_of self.new) ≡ Some op) }
        ensures fault { let session = session_of self.old in IfErr result
            (IsNotNow (ask_by ask moment session) (phase_in session ask.thread)) }
        ensures err { OnErr result (self.new ≡ self.old) }
        ensures room { self.new.room ≡ self.old.room }
    {
        let Some(waiter) = self.waiters.get(ask.thread) else {
            return Err(self.not_now(ask.thread));
        };
        if !has_turn(waiter, ask.turn) {
            return Err(self.not_now(ask.thread));
        }
        Ok(self.send(ask.thread, waiter, moment))
    }

    // A thread that has a ticket sends its call.
    fn send(&mut self, thread: u32, waiter: Waiter, moment: u64) -> Op
        requires request { IsRequest thread waiter }
        requires begun { (session_of self.old).waiters thread ≡ Some waiter }
        requires early { moment ≤ last_moment }
        ensures session { session_of self.new
            ≡ asked thread moment (want_at waiter waiter.stage) waiter (session_of self.old) }
        ensures op { op_noted thread (session_of self.new) ≡ Some result }
        ensures room { self.new.room ≡ self.old.room }
    {
        let asking = self.asking(thread, &waiter, &want_at(waiter), moment);
        let op = asking.op;
        self.waiters
            .set(thread, at_stage(waiter, Stage::Asked(asking)));
        op
    }

    // The call of a thread that has a ticket, and that wants this now.
    fn asking(&self, thread: u32, waiter: &Waiter, want: &Want, moment: u64) -> Asking
        requires request { IsRequest thread waiter.now }
        requires amount { HasAmount (arguments_of want.now.function) want.now }
        requires early { moment ≤ last_moment }
        ensures asking { result
            ≡ asking_for thread moment want.now waiter.now (session_of self.now) }
        ensures sent { IsAsking result }
    {
        let owner = self.owner(thread);
        let watched = self.asks_watched(thread, want);
        let lease = self.lease_asked(watched, want.lease);
        let channel = self.channel(thread, &waiter.want);
        Asking {
            op: want.op(&owner, lease, may_wait(waiter.mode)),
            at: moment,
            seen: self.latches.seen(&channel),
            watched,
        }
    }

    /// A thread takes the reply to its call: its request ends, or waits. From a grant under the
    /// watchdog's lease on the hold is renewed, until it is given back. `NotNow` where the thread
    /// has sent no call; else `NoMemory`. An error changes nothing.
    pub fn take(&mut self, thread: u32, reply: &Reply) -> Result<Taken, SessionFault>
        ensures ok { OnOk result (Some (session_of self.new)
            ≡ take_row thread reply.now (session_of self.old)) }
        ensures told { IfOk result (λ told. Some told
            ≡ taken_by thread reply.now (session_of self.old)) }
        ensures fault { let session = session_of self.old in IfErr result
            (IsFault (take_row thread reply.now session) (phase_in session thread)) }
        ensures err { OnErr result (self.new ≡ self.old) }
        ensures room { self.new.room ≡ self.old.room }
    {
        let Some(waiter) = self.waiters.get(thread) else {
            return Err(self.not_now(thread));
        };
        let Some(asking) = asked_at(waiter) else {
            return Err(self.not_now(thread));
        };
        Ok(self.answered(thread, waiter, &asking, reply)?)
    }

    // A thread's call was answered. An error changes nothing.
    fn answered(
        &mut self,
        thread: u32,
        waiter: Waiter,
        asking: &Asking,
        reply: &Reply,
    ) -> Result<Taken, AllocError>
        requires request { IsRequest thread waiter }
        requires begun { (session_of self.old).waiters thread ≡ Some waiter }
        requires asking { IsAsking asking.now }
        ensures ok { OnOk result (session_of self.new
            ≡ taken thread waiter asking.now reply.now (session_of self.old)) }
        ensures told { IfOk result (λ told. told
            ≡ taken_with thread waiter asking.now reply.now (session_of self.old)) }
        ensures err { OnErr result (self.new ≡ self.old) }
        ensures room { self.new.room ≡ self.old.room }
    {
        if waits_for(reply, &waiter) {
            return self.refuse(thread, waiter, asking, reply);
        }
        // A watch may want memory, so the request ends after it.
        self.watch(self.key_of(thread, &waiter.want), asking, reply)?;
        self.end(thread, &waiter);
        Ok(Taken::Done(*reply))
    }

    // A thread's call didn't get the object. An error changes nothing.
    fn refuse(
        &mut self,
        thread: u32,
        waiter: Waiter,
        asking: &Asking,
        reply: &Reply,
    ) -> Result<Taken, AllocError>
        requires request { IsRequest thread waiter }
        requires begun { (session_of self.old).waiters thread ≡ Some waiter }
        requires asking { IsAsking asking.now }
        requires waits { may_wait waiter.mode ≡ true }
        ensures ok { OnOk result (session_of self.new
            ≡ refused thread waiter asking.now reply.now (session_of self.old)) }
        ensures told { IfOk result (λ told. told
            ≡ refused_with thread waiter asking.now reply.now (session_of self.old)) }
        ensures err { OnErr result (self.new ≡ self.old) }
        ensures room { self.new.room ≡ self.old.room }
    {
        if !waiter.registered {
            return self.register(thread, waiter);
        }
        let due = due_after(asking.at, reply);
        let refusal = Refusal {
            due,
            seen: asking.seen,
        };
        self.waiters
            .set(thread, at_stage(waiter, Stage::Refused(refusal)));
        Ok(Taken::Refused(due))
    }

    // A thread registers at its channel: it may ask at once where its client hears the channel
    // already. An error changes nothing.
    fn register(&mut self, thread: u32, waiter: Waiter) -> Result<Taken, AllocError>
        requires request { IsRequest thread waiter }
        requires begun { (session_of self.old).waiters thread ≡ Some waiter }
        ensures ok { OnOk result (session_of self.new
            ≡ registered thread waiter (session_of self.old)) }
        ensures told { let session = session_of self.old in IfOk result (λ told. told
            ≡ (if is_subscribed (register_in (entry_for session thread waiter))
            then takes.Ready (next_ticket thread session) else takes.Joining)) }
        ensures err { OnErr result (self.new ≡ self.old) }
        ensures room { self.new.room ≡ self.old.room }
    {
        let channel = self.channel(thread, &waiter.want);
        let hears = self.latches.register(&channel)?;
        if hears {
            return Ok(Taken::Ready(self.make_ready(thread, joined(waiter))));
        }
        self.waiters
            .set(thread, at_stage(joined(waiter), Stage::Joining));
        Ok(Taken::Joining)
    }

    /// The request of a thread gets the next ticket.
    pub(crate) fn make_ready(&mut self, thread: u32, waiter: Waiter) -> Ask
        requires request { IsRequest thread waiter }
        requires begun { IsSome ((session_of self.old).waiters thread) }
        ensures session { session_of self.new
            ≡ with_ticket thread waiter stages.Ready (session_of self.old) }
        ensures ticket { result ≡ next_ticket thread (session_of self.old) }
        ensures room { self.new.room ≡ self.old.room }
    {
        self.turn = self.turn.wrapping_add(1);
        self.waiters
            .set(thread, at_stage(waiter, Stage::Ready(self.turn)));
        Ask {
            thread,
            turn: self.turn,
        }
    }

    /// The request of a thread gets the next ticket, by which it gives its place in a queue up.
    pub(crate) fn make_leaving(&mut self, thread: u32, waiter: Waiter) -> Ask
        requires request { IsRequest thread waiter }
        requires begun { IsSome ((session_of self.old).waiters thread) }
        ensures session { session_of self.new
            ≡ with_ticket thread waiter stages.Leaving (session_of self.old) }
        ensures ticket { result ≡ next_ticket thread (session_of self.old) }
        ensures room { self.new.room ≡ self.old.room }
    {
        self.turn = self.turn.wrapping_add(1);
        self.waiters
            .set(thread, at_stage(waiter, Stage::Leaving(self.turn)));
        Ask {
            thread,
            turn: self.turn,
        }
    }

    /// The request of a thread ends, and the thread leaves its channel where it waits on it.
    pub(crate) fn end(&mut self, thread: u32, waiter: &Waiter)
        requires { IsRequest thread waiter.now }
        ensures session { session_of self.new
            ≡ without_waiter thread waiter.now (session_of self.old) }
        ensures room { self.new.room ≡ self.old.room }
    {
        if waiter.registered {
            let channel = self.channel(thread, &waiter.want);
            self.latches.leave(&channel);
        }
        self.waiters.end(thread);
    }
}
