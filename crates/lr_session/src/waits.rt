//! How a thread waits: it looks before it sleeps, is woken, asks again by its timer, or gives up.
ghost use Rattle.std.specs.Prelude.{◌≡◌, true, Some, None, IfOk, IfErr, IfSome, IfNone, OnOk, OnErr, OnSome};
ghost use Rattle.lr_waiting.specs.Latch.{checked_in, woken_in};
ghost use Rattle.lr_waiting.specs.Session.{phase_in, check_row, checked, wake_row, woken, fire_row, quit, quit_row, entry_for, leaving_function, may_wait};
ghost use Rattle.lr_waiting.specs.Told.{next_ticket, look_by, look_with, wakeup_by, wakeup_with, end_by, end_with};
ghost use Rattle.lr_session.specs.Told.{IsNotNow};
ghost use Rattle.lr_session.specs.Value.{IsRequest, session_of};

use crate::fault::SessionFault;
use crate::stages::{asleep_at, at_stage, is_due, leaving_function, may_give_up, refused_at};
use crate::state::SessionState;
use lr_waiting::{Ask, Checked, CheckedStep, GaveUp, Refusal, Stage, Waiter, Woken, WokenStep};

impl SessionState {
    /// A thread whose call was refused looks, at a moment, whether it is to sleep. `NotNow` where
    /// it wasn't refused. It takes no memory, and an error changes nothing.
    pub fn check(&mut self, thread: u32, moment: u64) -> Result<CheckedStep, SessionFault>
        ensures ok { OnOk result (Some (session_of self.new)
            ≡ check_row thread moment (session_of self.old)) }
        ensures told { IfOk result (λ step. Some step
            ≡ look_by thread moment (session_of self.old)) }
        ensures fault { let session = session_of self.old in IfErr result
            (IsNotNow (check_row thread moment session) (phase_in session thread)) }
        ensures err { OnErr result (self.new ≡ self.old) }
        ensures room { self.new.room ≡ self.old.room }
    {
        let Some(waiter) = self.waiters.get(thread) else {
            return Err(self.not_now(thread));
        };
        let Some(refusal) = refused_at(waiter) else {
            return Err(self.not_now(thread));
        };
        Ok(self.look(thread, waiter, refusal, moment))
    }

    // A thread whose call was refused sleeps, or may ask once more.
    fn look(&mut self, thread: u32, waiter: Waiter, refusal: Refusal, moment: u64) -> CheckedStep
        requires request { IsRequest thread waiter }
        requires begun { (session_of self.old).waiters thread ≡ Some waiter }
        requires waits { may_wait waiter.mode ≡ true }
        ensures session { let session = session_of self.old in session_of self.new
            ≡ checked thread waiter refusal session
            (checked_in (entry_for session thread waiter) refusal.seen refusal.due moment) }
        ensures told { let session = session_of self.old in result
            ≡ look_with thread refusal session
            (checked_in (entry_for session thread waiter) refusal.seen refusal.due moment) }
        ensures room { self.new.room ≡ self.old.room }
    {
        let channel = self.channel(thread, &waiter.want);
        match self
            .latches
            .check(&channel, refusal.seen, refusal.due, moment)
        {
            Checked::Permit => CheckedStep::Permit(self.make_ready(thread, waiter)),
            Checked::Broadcast => CheckedStep::Broadcast(self.make_ready(thread, waiter)),
            Checked::Timer => CheckedStep::Timer(self.make_ready(thread, waiter)),
            Checked::Sleep => {
                self.waiters
                    .set(thread, at_stage(waiter, Stage::Asleep(refusal)));
                CheckedStep::Asleep(refusal.due)
            }
        }
    }

    /// A sleeping thread is woken, where it has a permit or a message has woken all. Else, and where
    /// it doesn't sleep, `NotNow`. It takes no memory, and after an error the session is the same.
    pub fn wake(&mut self, thread: u32) -> Result<WokenStep, SessionFault>
        ensures ok { OnOk result (Some (session_of self.new)
            ≡ wake_row thread (session_of self.old)) }
        ensures told { IfOk result (λ step. Some step ≡ wakeup_by thread (session_of self.old)) }
        ensures fault { let session = session_of self.old in IfErr result
            (IsNotNow (wake_row thread session) (phase_in session thread)) }
        ensures err { OnErr result (session_of self.new ≡ session_of self.old) }
        ensures room { self.new.room ≡ self.old.room }
    {
        let Some(waiter) = self.waiters.get(thread) else {
            return Err(self.not_now(thread));
        };
        let Some(refusal) = asleep_at(waiter) else {
            return Err(self.not_now(thread));
        };
        match self.wake_from(thread, waiter, refusal) {
            Some(step) => Ok(step),
            None => Err(self.not_now(thread)),
        }
    }

    // A sleeping thread is woken: `None` where nothing wakes it.
    fn wake_from(&mut self, thread: u32, waiter: Waiter, refusal: Refusal) -> Option<WokenStep>
        requires request { IsRequest thread waiter }
        requires begun { (session_of self.old).waiters thread ≡ Some waiter }
        ensures session { let session = session_of self.old in OnSome result
            (Some (session_of self.new) ≡ woken thread waiter session
            (woken_in (entry_for session thread waiter) refusal.seen)) }
        ensures none { let session = session_of self.old in IfNone result
            (woken thread waiter session
            (woken_in (entry_for session thread waiter) refusal.seen) ≡ None) }
        ensures same { IfNone result (session_of self.new ≡ session_of self.old) }
        ensures told { let session = session_of self.old in result
            ≡ wakeup_with thread session
            (woken_in (entry_for session thread waiter) refusal.seen) }
        ensures room { self.new.room ≡ self.old.room }
    {
        let channel = self.channel(thread, &waiter.want);
        match self.latches.wake(&channel, refusal.seen) {
            Woken::Permit => Some(WokenStep::Permit(self.make_ready(thread, waiter))),
            Woken::Broadcast => Some(WokenStep::Broadcast(self.make_ready(thread, waiter))),
            Woken::NotYet => None,
        }
    }

    /// A sleeping thread may ask once more, since its due moment has come. Else, and where it
    /// doesn't sleep, `NotNow`. It takes no memory, and an error changes nothing.
    pub fn fire(&mut self, thread: u32, moment: u64) -> Result<Ask, SessionFault>
        ensures ok { OnOk result (Some (session_of self.new)
            ≡ fire_row thread moment (session_of self.old)) }
        ensures ticket { IfOk result (λ ask. ask ≡ next_ticket thread (session_of self.old)) }
        ensures fault { let session = session_of self.old in IfErr result
            (IsNotNow (fire_row thread moment session) (phase_in session thread)) }
        ensures err { OnErr result (self.new ≡ self.old) }
        ensures room { self.new.room ≡ self.old.room }
    {
        let Some(waiter) = self.waiters.get(thread) else {
            return Err(self.not_now(thread));
        };
        let Some(refusal) = asleep_at(waiter) else {
            return Err(self.not_now(thread));
        };
        if !is_due(refusal.due, moment) {
            return Err(self.not_now(thread));
        }
        Ok(self.make_ready(thread, waiter))
    }

    /// A thread that waits, or may ask once more, gives up: its request ends. Where it may have a
    /// place in a queue it gives that up first: it stays registered on its channel, and its request
    /// ends with the reply to the call that it sends by its ticket. `NotNow` where it doesn't wait,
    /// has sent its call, or gives its place up already. It takes no memory, and an error changes
    /// nothing.
    pub fn give_up(&mut self, thread: u32) -> Result<GaveUp, SessionFault>
        ensures ok { OnOk result (Some (session_of self.new)
            ≡ quit_row thread (session_of self.old)) }
        ensures told { IfOk result (λ told. told ≡ end_by thread (session_of self.old)) }
        ensures fault { let session = session_of self.old in IfErr result
            (IsNotNow (quit_row thread session) (phase_in session thread)) }
        ensures err { OnErr result (self.new ≡ self.old) }
        ensures room { self.new.room ≡ self.old.room }
    {
        let Some(waiter) = self.waiters.get(thread) else {
            return Err(self.not_now(thread));
        };
        if !may_give_up(waiter) {
            return Err(self.not_now(thread));
        }
        Ok(self.quit(thread, waiter))
    }

    // A thread that waits ends its request, or first gives its place in a queue up.
    fn quit(&mut self, thread: u32, waiter: Waiter) -> GaveUp
        requires request { IsRequest thread waiter }
        requires begun { (session_of self.old).waiters thread ≡ Some waiter }
        ensures session { session_of self.new ≡ quit thread waiter (session_of self.old) }
        ensures told { result
            ≡ end_with thread (session_of self.old) (leaving_function waiter.want.function) }
        ensures room { self.new.room ≡ self.old.room }
    {
        match leaving_function(waiter.want.function) {
            Some(_) => GaveUp::Leaving(self.make_leaving(thread, waiter)),
            None => {
                self.end(thread, &waiter);
                GaveUp::Done
            }
        }
    }
}
