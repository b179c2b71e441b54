//! How the threads of a client that wait until it hears a channel are told that it does.
ghost use Rattle.std.specs.Prelude.{◌≡◌, ◌<◌, ◌≤◌, ◌^◌, ◌==◌, [], map, Some, None, if◌then◌else◌, vec_capacity};
ghost use Rattle.lr_limits.specs.Limits.{thread_limit};
ghost use Rattle.lr_names.specs.Owner.{IsThread};
ghost use Rattle.lr_model.specs.Board.{same_channel};
ghost use Rattle.lr_model.specs.Table.{put};
ghost use Rattle.lr_objects.specs.Function.{arguments_of};
ghost use Rattle.lr_objects.specs.Want.{HasAmount};
ghost use Rattle.lr_waiting.specs.Latch.{next_count};
ghost use Rattle.lr_waiting.specs.Session.{channel_for, is_joining, joins, joining_threads, joining_ticket, owner_in, with_joined};
ghost use Rattle.lr_waiting.specs.Told.{next_ticket};
ghost use Rattle.lr_session.specs.Stages.{ready_if};
ghost use Rattle.lr_session.specs.Value.{AreRequests, IsRequest, session_of};

use crate::stages::is_joining_at;
use crate::state::SessionState;
use lr_limits::MOST_THREADS;
use lr_names::Channel;
use lr_objects::Want;
use lr_waiting::{Ask, Waiter};

impl SessionState {
    /// The threads that wait until the client hears a channel may ask once more, with the next
    /// tickets in order of their numbers. It takes no memory.
    pub(crate) fn wake_joined(&mut self, channel: &Channel, asks: &mut Vec<Ask>)
        requires none { asks.old.items ≡ [] }
        requires room { thread_limit ≤ vec_capacity asks.old }
        ensures session { session_of self.new ≡ with_joined channel.now (session_of self.old) }
        ensures asks { let session = session_of self.old in asks.new.items
            ≡ map
            (λ t. record { thread = t; turn = joining_ticket channel.now session t })
            (joining_threads channel.now session) }
    {
        self.check_requests();
        for told in 0..MOST_THREADS {
            if let Some(ask) = self.wake_thread(channel, told + 1) {
                asks.push_reserved(ask);
            }
        }
    }

    // A thread may ask once more, where it waits until the client hears the channel.
    fn wake_thread(&mut self, channel: &Channel, thread: u32) -> Option<Ask>
        ensures session { let session = session_of self.old in
            let joining = is_joining channel.now session thread in
            session_of self.new ≡ record session {
              waiters = put ◌==◌ session.waiters thread
                  (ready_if joining (next_count session.turn) (session.waiters thread));
              turn = if joining then next_count session.turn else session.turn;
            } }
        ensures ask { let session = session_of self.old in
            let joining = is_joining channel.now session thread in
            result ≡ (if joining then Some (next_ticket thread session) else None) }
    {
        let Some(waiter) = self.waiters.get(thread) else {
            return None;
        };
        if !self.joins(channel, thread, &waiter) {
            return None;
        }
        Some(self.make_ready(thread, waiter))
    }

    // Whether a thread waits until the client hears the channel.
    fn joins(&self, channel: &Channel, thread: u32, waiter: &Waiter) -> bool
        requires { IsRequest thread waiter.now }
        ensures { result ≡ joins channel.now (session_of self.now) thread (Some waiter.now) }
    {
        is_joining_at(*waiter) && self.waits_on(channel, thread, &waiter.want)
    }

    /// Whether a thread that wants this waits on this channel.
    pub fn waits_on(&self, channel: &Channel, thread: u32, want: &Want) -> bool
        requires thread { IsThread thread }
        requires amount { HasAmount (arguments_of want.now.function) want.now }
        ensures { let owner = owner_in (session_of self.now) thread in
            result ≡ same_channel channel.now (channel_for owner want.now) }
    {
        is_same_channel(channel, &self.channel(thread, want))
    }

    /// What the types say of the requests and of the last ticket.
    pub(crate) fn check_requests(&self)
        ensures requests { AreRequests self.now.waiters }
        ensures turn { self.now.turn < 2 ^ 64 }
    {
        let _turn = self.turn;
        self.waiters.check();
    }
}

// Whether two channels are one.
fn is_same_channel(a: &Channel, b: &Channel) -> bool
    ensures { result ≡ same_channel a.now b.now }
{
    *a == *b
}
