//! What the server pushes to a client, and the threads whose timers have come.
ghost use Rattle.std.specs.Prelude.{◌≡◌, ◌≢◌, ◌≤◌, List, [], ◌∷◌, ◌++◌, Some, None, Ok, Err, IfOk, IfErr, OnOk, OnErr, vec_len, vec_capacity};
ghost use Rattle.lr_limits.specs.Limits.{thread_limit};
ghost use Rattle.lr_waiting.specs.declared.waiter.Phase.TheVariants as phases;
ghost use Rattle.lr_waiting.specs.Latch.{deliver_at, told_of_message};
ghost use Rattle.lr_waiting.specs.Session.{acknowledged, with_latches, due_threads};
ghost use Rattle.lr_waiting.specs.Told.{tickets_given};
ghost use Rattle.lr_session.specs.declared.fault.SessionFault.TheVariants.{NoMemory};
ghost use Rattle.lr_session.specs.Told.{IsFault};
ghost use Rattle.lr_session.specs.Pushed.{push_row, pushed_by, told_at};
ghost use Rattle.lr_session.specs.Value.{session_of};

use crate::asks::Asks;
use crate::fault::SessionFault;
use crate::stages::has_timer;
use crate::state::SessionState;
use crate::threads::Threads;
use lr_limits::MOST_THREADS;
use lr_names::{Channel, Push, Wakes};
use lr_waiting::{LatchEntry, Phase};
use std::alloc::AllocError;

/// What comes of an item that the server has pushed.
#[derive(Drop)]
pub enum Pushed {
    /// An order to subscribe to the channel was acknowledged, and these threads may ask once more.
    Acked(Channel, Asks),
    /// An end of a subscription was acknowledged.
    Unacked(Option<Channel>),
    /// A message came on the channel: how many threads may ask once more now, or how many messages
    /// that wake all have come. 0 where nobody waits.
    Message(Channel, u64),
}

impl SessionState {
    /// Hands an item on that the server has pushed. `NotNow(Cut)` where the client was cut off;
    /// else `NoMemory`, but not after `reserve`. An error changes nothing.
    pub fn push(&mut self, push: &Push) -> Result<Pushed, SessionFault>
        ensures ok { OnOk result (Some (session_of self.new)
            ≡ push_row push.now (session_of self.old)) }
        ensures told { IfOk result (λ told. told ≡ pushed_by push.now (session_of self.old)) }
        ensures fault { IfErr result
            (IsFault (push_row push.now (session_of self.old)) phases.Cut) }
        ensures reserved { thread_limit ≤ self.old.room → result ≢ Err NoMemory }
        ensures err { OnErr result (self.new ≡ self.old) }
    {
        if self.is_cut {
            return Err(SessionFault::NotNow(Phase::Cut));
        }
        match push {
            Push::Subscribed(channel, _) => {
                Ok(Pushed::Acked(*channel, self.acknowledge(channel)?))
            }
            Push::Unsubscribed(channel, _) => Ok(Pushed::Unacked(*channel)),
            Push::Message(channel, _) => Ok(Pushed::Message(*channel, self.deliver(channel))),
        }
    }

    /// Takes memory for the tickets of one acknowledgement, so that the next `push` doesn't answer
    /// `NoMemory`, whatever other steps come before it. An error changes nothing.
    pub fn reserve(&mut self) -> Result<(), AllocError>
        ensures ok { OnOk result (thread_limit ≤ self.new.room) }
        ensures session { session_of self.new ≡ session_of self.old }
        ensures enough { thread_limit ≤ self.old.room → result ≡ Ok tt }
        ensures err { OnErr result (self.new ≡ self.old) }
    {
        self.spare.reserve(MOST_THREADS as usize)
    }

    // An order to subscribe was acknowledged. An error changes nothing.
    fn acknowledge(&mut self, channel: &Channel) -> Result<Asks, AllocError>
        ensures ok { OnOk result (session_of self.new
            ≡ acknowledged channel.now (session_of self.old)) }
        ensures told { IfOk result (λ asks. asks
            ≡ tickets_given channel.now (session_of self.old)) }
        ensures reserved { thread_limit ≤ self.old.room → OnErr result ⊥ }
        ensures err { OnErr result (self.new ≡ self.old) }
    {
        self.spare.reserve(MOST_THREADS as usize)?;
        if !self.latches.acked(channel) {
            return Ok(Asks::new(self.alloc));
        }
        let mut asks = self.spare.take();
        self.wake_joined(channel, &mut asks);
        Ok(Asks::of(asks))
    }

    // A message has come: what it left for those who wait.
    fn deliver(&mut self, channel: &Channel) -> u64
        ensures session { session_of self.new
            ≡ with_latches (deliver_at channel.now (session_of self.old).latches)
            (session_of self.old) }
        ensures told { result ≡ told_at channel.now (session_of self.new) }
    {
        self.latches.deliver(channel);
        told(channel.wakes(), &self.latches.entry(channel))
    }

    /// The threads that sleep and whose due moment has come at this one, in order.
    pub fn tick(&self, moment: u64) -> Result<Threads, AllocError>
        ensures { IfOk result (λ threads. threads
            ≡ due_threads moment (session_of self.now)) }
    {
        self.check_requests();
        let mut due = Vec::new(self.alloc);
        for looked in 0..MOST_THREADS {
            let thread = looked + 1;
            if has_timer(moment, self.waiters.get(thread)) {
                due.push(thread)?;
            }
        }
        Ok(Threads::of(due))
    }
}

// What a message left for those who wait.
fn told(wakes: Wakes, entry: &LatchEntry) -> u64
    ensures { result ≡ told_of_message wakes entry.now }
{
    match wakes {
        Wakes::One => entry.permits,
        Wakes::All => {
            if entry.registered == 0 {
                0
            } else {
                entry.broadcast
            }
        }
    }
}
