//! The steps of a client and its threads that nobody else notices.
ghost use Rattle.std.specs.Prelude.{◌≡◌, ◌≤◌, IsSome, IfOk, OnOk, OnErr};
ghost use Rattle.lr_limits.specs.Limits.{last_moment};
ghost use Rattle.lr_names.specs.Owner.{IsThread};
ghost use Rattle.lr_waiting.specs.Begin.{CanBegin};
ghost use Rattle.lr_waiting.specs.Client.{client_row, take_reply};
ghost use Rattle.lr_waiting.specs.Session.{begin_row, ask_row, check_row, wake_row, fire_row, quit_row};
ghost use Rattle.lr_waiting.specs.Told.{look_by, wakeup_by, end_by};
ghost use Rattle.lr_machine.specs.declared.shown.Shown.TheVariants as shows;
ghost use Rattle.lr_machine.specs.Shown.{shown_of, shown_step, shown_taken, taken_from, shown_look, shown_wakeup, shown_end};
ghost use Rattle.lr_machine.specs.Within.{IsWithin, MayBegin};
ghost use Rattle.lr_clients.specs.Client.{client_of};
ghost use Rattle.lr_clients.specs.Rows.{client_alone, found_in, row_by, row_or, shown_by};

use crate::client::ClientState;
use crate::renewals::hold_key;
use lr_machine::{Event, Shown};
use lr_objects::{Mode, Want};
use lr_session::SessionFault;
use lr_waiting::{CheckedStep, GaveUp, Taken, WokenStep};
use std::alloc::AllocError;

impl ClientState {
    /// Makes a step of a thread, or one of a renewal: what is shown and the client afterwards are
    /// those of the step table. An error changes nothing.
    pub(crate) fn step(&mut self, moment: u64, event: &Event) -> Result<Shown, AllocError>
        requires alone { IsSome (client_alone event.now) }
        requires within { IsWithin event.now }
        requires begins { MayBegin event.now }
        requires early { moment ≤ last_moment }
        ensures shown { IfOk result (λ shown. shown
            ≡ shown_by moment event.now (client_of self.old)) }
        ensures next { let client = client_of self.old in
            OnOk result (client_of self.new ≡ row_or client (row_by moment event.now client)) }
        ensures err { OnErr result (self.new ≡ self.old) }
    {
        match *event {
            Event::Begin {
                thread,
                mode,
                want,
                ..
            } => self.begin(thread, mode, &want),
            Event::Ask { thread, .. } => Ok(self.ask(thread, moment)),
            Event::Take { thread, .. } => self.take(thread),
            Event::Check { thread, .. } => Ok(self.check(thread, moment)),
            Event::Wake { thread, .. } => Ok(self.wake(thread)),
            Event::Fire { thread, .. } => Ok(self.fire(thread, moment)),
            Event::Quit { thread, .. } => Ok(self.quit(thread)),
            Event::RenewAsk {
                client,
                thread,
                kind,
                name,
            } => Ok(self.renew_ask(&hold_key(client, thread, kind, name), moment)),
            Event::RenewTake {
                client,
                thread,
                kind,
                name,
            } => Ok(self.renew_take(&hold_key(client, thread, kind, name))),
            _ => unreachable!(),
        }
    }

    // A thread begins a request. An error changes nothing.
    fn begin(&mut self, thread: u32, mode: Mode, want: &Want) -> Result<Shown, AllocError>
        requires thread { IsThread thread }
        requires begins { CanBegin mode want.now }
        ensures shown { let client = client_of self.old in IfOk result (λ shown. shown
            ≡ shown_step shows.Fresh (begin_row thread mode want.now client.session)
            (found_in client thread)) }
        ensures next { let client = client_of self.old in OnOk result (client_of self.new
            ≡ row_or client (client_row (begin_row thread mode want.now) client)) }
        ensures err { OnErr result (self.new ≡ self.old) }
    {
        match self.session.begin(thread, mode, want) {
            Ok(_) => Ok(Shown::Fresh),
            Err(SessionFault::NotNow(_)) => Ok(self.not_now(thread)),
            Err(SessionFault::NoMemory) => Err(AllocError),
        }
    }

    // A thread sends its call.
    fn ask(&mut self, thread: u32, moment: u64) -> Shown
        requires thread { IsThread thread }
        requires early { moment ≤ last_moment }
        ensures shown { let client = client_of self.old in result
            ≡ shown_step shows.Asked (ask_row thread moment client.session)
            (found_in client thread) }
        ensures next { let client = client_of self.old in client_of self.new
            ≡ row_or client (client_row (ask_row thread moment) client) }
    {
        let Some(ask) = self.session.ticket(thread) else {
            return self.not_now(thread);
        };
        match self.session.ask(ask, moment) {
            Ok(_) => Shown::Asked,
            Err(_) => self.not_now(thread),
        }
    }

    // A thread takes the reply that waits for it. An error changes nothing.
    fn take(&mut self, thread: u32) -> Result<Shown, AllocError>
        requires { IsThread thread }
        ensures shown { let client = client_of self.old in IfOk result (λ shown. shown
            ≡ shown_of shown_taken (taken_from thread (client.replies thread) client.session)
            (found_in client thread)) }
        ensures next { let client = client_of self.old in OnOk result (client_of self.new
            ≡ row_or client (take_reply thread client)) }
        ensures err { OnErr result (self.new ≡ self.old) }
    {
        let Some(reply) = self.replies.get(thread) else {
            return Ok(self.not_now(thread));
        };
        match self.session.take(thread, &reply) {
            Ok(taken) => {
                self.replies.set(thread, None);
                Ok(shown_taken(taken))
            }
            Err(SessionFault::NotNow(_)) => Ok(self.not_now(thread)),
            Err(SessionFault::NoMemory) => Err(AllocError),
        }
    }

    // A thread whose call was refused looks whether it is to sleep.
    fn check(&mut self, thread: u32, moment: u64) -> Shown
        requires { IsThread thread }
        ensures shown { let client = client_of self.old in result
            ≡ shown_of shown_look (look_by thread moment client.session)
            (found_in client thread) }
        ensures next { let client = client_of self.old in client_of self.new
            ≡ row_or client (client_row (check_row thread moment) client) }
    {
        match self.session.check(thread, moment) {
            Ok(step) => shown_look(step),
            Err(_) => self.not_now(thread),
        }
    }

    // A sleeping thread is woken.
    fn wake(&mut self, thread: u32) -> Shown
        requires { IsThread thread }
        ensures shown { let client = client_of self.old in result
            ≡ shown_of shown_wakeup (wakeup_by thread client.session) (found_in client thread) }
        ensures next { let client = client_of self.old in client_of self.new
            ≡ row_or client (client_row (wake_row thread) client) }
    {
        match self.session.wake(thread) {
            Ok(step) => shown_wakeup(step),
            Err(_) => self.not_now(thread),
        }
    }

    // The timer of a sleeping thread fires.
    fn fire(&mut self, thread: u32, moment: u64) -> Shown
        requires { IsThread thread }
        ensures shown { let client = client_of self.old in result
            ≡ shown_step shows.ReadyByTimer (fire_row thread moment client.session)
            (found_in client thread) }
        ensures next { let client = client_of self.old in client_of self.new
            ≡ row_or client (client_row (fire_row thread moment) client) }
    {
        match self.session.fire(thread, moment) {
            Ok(_) => Shown::ReadyByTimer,
            Err(_) => self.not_now(thread),
        }
    }

    // A thread gives up.
    fn quit(&mut self, thread: u32) -> Shown
        requires { IsThread thread }
        ensures shown { let client = client_of self.old in result
            ≡ shown_step (shown_end (end_by thread client.session))
            (quit_row thread client.session) (found_in client thread) }
        ensures next { let client = client_of self.old in client_of self.new
            ≡ row_or client (client_row (quit_row thread) client) }
    {
        match self.session.give_up(thread) {
            Ok(told) => shown_end(told),
            Err(_) => self.not_now(thread),
        }
    }
}

// What is shown of a reply that was taken.
fn shown_taken(taken: Taken) -> Shown
    ensures { result ≡ shown_taken taken }
{
    match taken {
        Taken::Done(reply) => Shown::Done(reply),
        Taken::Joining => Shown::Joining,
        Taken::Ready(_) => Shown::Ready,
        Taken::Refused(due) => Shown::Refused(due),
    }
}

// What is shown of a look before sleep.
fn shown_look(step: CheckedStep) -> Shown
    ensures { result ≡ shown_look step }
{
    match step {
        CheckedStep::Permit(_) => Shown::ReadyByPermit,
        CheckedStep::Broadcast(_) => Shown::ReadyByBroadcast,
        CheckedStep::Timer(_) => Shown::ReadyByTimer,
        CheckedStep::Asleep(due) => Shown::Asleep(due),
    }
}

// What is shown of a wakeup.
fn shown_wakeup(step: WokenStep) -> Shown
    ensures { result ≡ shown_wakeup step }
{
    match step {
        WokenStep::Permit(_) => Shown::ReadyByPermit,
        WokenStep::Broadcast(_) => Shown::ReadyByBroadcast,
    }
}

// What is shown of giving up.
fn shown_end(told: GaveUp) -> Shown
    ensures { result ≡ shown_end told }
{
    match told {
        GaveUp::Done => Shown::Quit,
        GaveUp::Leaving(_) => Shown::Leaving,
    }
}
