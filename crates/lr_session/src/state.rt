ghost use Rattle.std.specs.Prelude.{◌≡◌, ◌≤◌, IfSome};
ghost use Rattle.lr_limits.specs.Limits.{longest_lease};
ghost use Rattle.lr_names.specs.Owner.{IsThread};
ghost use Rattle.lr_objects.specs.Function.{arguments_of};
ghost use Rattle.lr_objects.specs.Want.{HasAmount};
ghost use Rattle.lr_waiting.specs.Session.{first_session, cut_session, phase_in, owner_in, channel_for, order_taken};
ghost use Rattle.lr_waiting.specs.Latch.{first_order_of};
ghost use Rattle.lr_session.specs.declared.fault.SessionFault.TheVariants.{NotNow};
ghost use Rattle.lr_session.specs.Value.{IsRequest, session_of};

use crate::asks::SpareAsks;
use crate::fault::SessionFault;
use crate::stages::phase_at;
use crate::waiters::Waiters;
use lr_latch::Latches;
use lr_names::{Channel, Owner};
use lr_objects::Want;
use lr_waiting::{LatchEntry, Order, Phase, Waiter};
use lr_watchdog::Watches;
use std::alloc::Global;
use std::marker::Model;
use uuid::Uuid;

/// The core of a client: it knows what each of its threads waits for, and which holds are renewed.
/// It has no clock and no connection: who uses it sends its calls and orders, and hands it the
/// replies and what the server pushes. A thread is 1 to 256, and moments are in milliseconds. No call but `push` and `tick`
/// touches another thread than its own.
#[derive(Drop)]
pub struct SessionState {
    pub(crate) client: Uuid,
    pub(crate) waiters: Waiters,
    pub(crate) latches: Latches,
    pub(crate) turn: u64,
    pub(crate) watches: Watches,
    pub(crate) is_cut: bool,
    pub(crate) spare: SpareAsks,
    pub(crate) alloc: Global,
}

impl Model for SessionState {
    ghost use Rattle.lr_session.specs.Value.{SessionValue};

    ghost Value = { SessionValue };

    ghost view = { λ s. record {
      client = s.client;
      waiters = s.waiters;
      latches = s.latches;
      turn = s.turn;
      watches = s.watches;
      is_cut = s.is_cut;
      room = s.spare;
    } };
}

impl SessionState {
    /// The core of a client with this id, before its first request. The watchdog's lease is in
    /// milliseconds, at least 3, since a hold is renewed each third of it. It takes no memory.
    pub fn new(alloc: Global, client: Uuid, lease: u64) -> Self
        requires lease { 3 ≤ lease }
        requires longest { lease ≤ longest_lease }
        ensures { session_of result ≡ first_session client lease }
    {
        SessionState {
            client,
            waiters: Waiters::new(alloc),
            latches: Latches::new(alloc),
            turn: 0,
            watches: Watches::new(lease, alloc),
            is_cut: false,
            spare: SpareAsks::new(alloc),
            alloc,
        }
    }

    /// The id of the client.
    pub fn client(&self) -> Uuid
        ensures { result ≡ self.now.client }
    {
        self.client
    }

    /// The phase of a thread.
    pub fn phase(&self, thread: u32) -> Phase
        ensures { result ≡ phase_in (session_of self.now) thread }
    {
        if self.is_cut {
            return Phase::Cut;
        }
        match self.waiters.get(thread) {
            Some(waiter) => phase_at(waiter),
            None => Phase::Idle,
        }
    }

    /// Whether the client was cut off.
    pub fn is_cut(&self) -> bool
        ensures { result ≡ (session_of self.now).is_cut }
    {
        self.is_cut
    }

    /// The request of a thread: `None` where it has none.
    pub fn waiter(&self, thread: u32) -> Option<Waiter>
        ensures value { result ≡ (session_of self.now).waiters thread }
        ensures request { IfSome result (IsRequest thread) }
    {
        self.waiters.get(thread)
    }

    /// What the client keeps of a channel: all zeros where no thread waits on it and nothing is
    /// outstanding.
    pub fn entry(&self, channel: &Channel) -> LatchEntry
        ensures { result ≡ (session_of self.now).latches.entries channel.now }
    {
        self.latches.entry(channel)
    }

    /// How many messages have come that wake all who wait on the channel: 0 where the client keeps
    /// nothing of it.
    pub fn seen(&self, channel: &Channel) -> u64
        ensures { result ≡ ((session_of self.now).latches.entries channel.now).broadcast }
    {
        self.latches.seen(channel)
    }

    /// How many threads may ask once more by a message on the channel: 0 where nobody waits.
    pub fn permits(&self, channel: &Channel) -> u64
        ensures { result ≡ ((session_of self.now).latches.entries channel.now).permits }
    {
        self.latches.permits(channel)
    }

    /// The oldest order for the server, which stays.
    pub fn first_order(&self) -> Option<Order>
        ensures { result ≡ first_order_of (session_of self.now).latches }
    {
        self.latches.first_order()
    }

    /// Takes the oldest order, to send it to the server.
    pub fn next_order(&mut self) -> Option<Order>
        ensures first { result ≡ first_order_of (session_of self.old).latches }
        ensures rest { session_of self.new ≡ order_taken (session_of self.old) }
        ensures room { self.new.room ≡ self.old.room }
    {
        self.latches.next_order()
    }

    /// The client was cut off: its requests, its latches, its orders and its watches are gone, and
    /// every later step of a thread is refused. It takes no memory.
    pub fn cut(&mut self)
        ensures session { session_of self.new ≡ cut_session (session_of self.old) }
        ensures room { self.new.room ≡ self.old.room }
    {
        self.waiters = Waiters::new(self.alloc);
        self.latches = Latches::new(self.alloc);
        self.watches.cut();
        self.is_cut = true;
    }

    /// Why a step of a thread doesn't apply.
    pub(crate) fn not_now(&self, thread: u32) -> SessionFault
        ensures { result ≡ NotNow (phase_in (session_of self.now) thread) }
    {
        SessionFault::NotNow(self.phase(thread))
    }

    /// A thread of the client as an owner.
    pub fn owner(&self, thread: u32) -> Owner
        requires { IsThread thread }
        ensures { result ≡ owner_in (session_of self.now) thread }
    {
        Owner::new(self.client, thread)
    }

    /// The channel on which a thread waits that wants this.
    pub fn channel(&self, thread: u32, want: &Want) -> Channel
        requires thread { IsThread thread }
        requires amount { HasAmount (arguments_of want.now.function) want.now }
        ensures { result ≡ channel_for (owner_in (session_of self.now) thread) want.now }
    {
        want.op(&self.owner(thread), 0, false).channel()
    }
}
