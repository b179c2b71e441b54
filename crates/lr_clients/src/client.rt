//! A client of a schedule.
ghost use Rattle.std.specs.Prelude.{◌≡◌, IfOk, Some};
ghost use Rattle.lr_names.specs.Owner.{IsThread};
ghost use Rattle.lr_waiting.specs.Client.{asked_at, asked_of, cut_client, client_row, once_answered, phase_of, with_reply};
ghost use Rattle.lr_waiting.specs.Latch.{first_order_of};
ghost use Rattle.lr_waiting.specs.Session.{order_taken};
ghost use Rattle.lr_machine.specs.declared.shown.Shown.TheVariants as shows;
ghost use Rattle.lr_machine.specs.Clients.{client_id};
ghost use Rattle.lr_machine.specs.World.{first_client, unless_cut};
ghost use Rattle.lr_clients.specs.Client.{client_of};
ghost use Rattle.lr_clients.specs.Rows.{found_in};

use crate::renewed::Renewed;
use crate::replies::Replies;
use lr_limits::WATCHDOG_LEASE;
use lr_machine::{Found, Shown};
use lr_objects::Reply;
use lr_session::SessionState;
use lr_waiting::{Asking, Order, Phase, Stage};
use std::alloc::{AllocError, Global};
use std::marker::Model;
use uuid::Uuid;

/// The core of a client, and the replies that the server has given and that weren't taken yet: to
/// the calls of its threads, and to its renewals.
#[derive(Drop)]
pub(crate) struct ClientState {
    pub(crate) session: SessionState,
    pub(crate) replies: Replies,
    pub(crate) renewed: Renewed,
}

impl Model for ClientState {
    ghost use Rattle.lr_clients.specs.Client.{ClientValue};

    ghost Value = { ClientValue };

    ghost view = { λ c. record {
      session = c.session;
      replies = c.replies;
      renewed = c.renewed;
    } };
}

impl ClientState {
    /// The client with this number, before its first request.
    pub(crate) fn new(alloc: Global, client: u32) -> Result<Self, AllocError>
        ensures { IfOk result (λ c. client_of c ≡ first_client client) }
    {
        Ok(ClientState {
            session: SessionState::new(alloc, client_id(client), WATCHDOG_LEASE),
            replies: Replies::new(alloc)?,
            renewed: Renewed::new(alloc),
        })
    }

    /// Whether the client was cut off.
    pub(crate) fn is_cut(&self) -> bool
        ensures { result ≡ (client_of self.now).session.is_cut }
    {
        self.session.is_cut()
    }

    /// The phase of a thread.
    pub(crate) fn phase(&self, thread: u32) -> Phase
        requires { IsThread thread }
        ensures { result ≡ phase_of (client_of self.now) thread }
    {
        once_answered(
            self.session.phase(thread),
            self.replies.get(thread).is_some(),
        )
    }

    /// What is shown where a step of a thread doesn't apply.
    pub(crate) fn not_now(&self, thread: u32) -> Shown
        requires { IsThread thread }
        ensures { result ≡ shows.No (found_in (client_of self.now) thread) }
    {
        Shown::No(Found::Phase(self.phase(thread)))
    }

    /// The call that a thread has sent and the server hasn't run.
    pub(crate) fn asked(&self, thread: u32) -> Option<Asking>
        requires { IsThread thread }
        ensures { let client = client_of self.now in
            result ≡ unless_cut client (asked_of client thread) }
    {
        if self.session.is_cut() {
            return None;
        }
        let Some(waiter) = self.session.waiter(thread) else {
            return None;
        };
        asked_at(waiter.stage, self.replies.get(thread))
    }

    /// From now on a reply waits for a thread.
    pub(crate) fn answer(&mut self, thread: u32, reply: Reply)
        requires { IsThread thread }
        ensures { client_of self.new ≡ with_reply thread (Some reply) (client_of self.old) }
    {
        self.replies.set(thread, Some(reply));
    }

    /// The order that waits longest for the server.
    pub(crate) fn first_order(&self) -> Option<Order>
        ensures { let client = client_of self.now in
            result ≡ unless_cut client (first_order_of client.session.latches) }
    {
        if self.session.is_cut() {
            return None;
        }
        self.session.first_order()
    }

    /// That order is on its way.
    pub(crate) fn take_order(&mut self)
        ensures { Some (client_of self.new)
            ≡ client_row (λ session. Some (order_taken session)) (client_of self.old) }
    {
        let _ = self.session.next_order();
    }

    /// The client was cut off: what it knew is lost.
    pub(crate) fn cut(&mut self)
        ensures { client_of self.new ≡ cut_client (client_of self.old) }
    {
        self.session.cut();
        self.replies.clear();
        self.renewed.clear();
    }
}

/// The id of a client, whose 128-bit number is the client's.
pub(crate) fn client_id(client: u32) -> Uuid
    ensures { result ≡ client_id client }
{
    Uuid::from_u128(u128::from(client))
}

// A call that was sent is answered once its reply is there.
fn once_answered(phase: Phase, answered: bool) -> Phase
    ensures { result ≡ once_answered phase answered }
{
    match phase {
        Phase::Asked => {
            if answered {
                Phase::Answered
            } else {
                Phase::Asked
            }
        }
        Phase::Cut => Phase::Cut,
        Phase::Idle => Phase::Idle,
        Phase::Fresh => Phase::Fresh,
        Phase::Answered => Phase::Answered,
        Phase::Joining => Phase::Joining,
        Phase::Ready => Phase::Ready,
        Phase::Refused => Phase::Refused,
        Phase::Asleep => Phase::Asleep,
        Phase::Leaving => Phase::Leaving,
    }
}

// The call that a thread has sent in this stage, where no reply waits for it.
fn asked_at(stage: Stage, reply: Option<Reply>) -> Option<Asking>
    ensures { result ≡ asked_at stage reply }
{
    match (stage, reply) {
        (Stage::Asked(asking), None) => Some(asking),
        _ => None,
    }
}
