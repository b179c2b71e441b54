//! What stands for the threads of a client that sleep.
ghost use Rattle.std.specs.Prelude.{◌≡◌, true, IfSome};
ghost use Rattle.std.specs.List.{list_any};
ghost use Rattle.lr_objects.specs.Function.{arguments_of};
ghost use Rattle.lr_objects.specs.Want.{HasAmount};
ghost use Rattle.lr_waiting.specs.Session.{channel_for};
ghost use Rattle.lr_waiting.specs.Stand.{due_at, due_of, gets_on, is_awake, is_awake_at, least_due, lesser, moment_due, threads_with, timer_or_nobody, waits_at};
ghost use Rattle.lr_session.specs.Value.{IsRequest, IsStage};
ghost use Rattle.lr_clients.specs.Client.{client_of};
ghost use Rattle.lr_clients.specs.Stands.{sleeper_of, stand_where_all, stand_where_one};

use crate::client::ClientState;
use crate::sleeper::Sleeper;
use lr_limits::MOST_THREADS;
use lr_names::{Channel, Due};
use lr_objects::{Function, Reply};
use lr_session::due_after;
use lr_waiting::{Stage, Stand, Waiter};

// Thread 0 never has a request, so that the loops here are over the numbers 0 to 256.
impl ClientState {
    /// A thread that sleeps, with what it waits for.
    pub(crate) fn asleep(&self, thread: u32) -> Option<Sleeper>
        ensures value { result ≡ sleeper_of (client_of self.now) thread }
        ensures channel { IfSome result (λ sleeper. sleeper.channel
            ≡ channel_for sleeper.owner sleeper.want) }
        ensures amount { IfSome result (λ sleeper.
            HasAmount (arguments_of sleeper.want.function) sleeper.want) }
    {
        let Some(waiter) = self.session.waiter(thread) else {
            return None;
        };
        match waiter.stage {
            Stage::Asleep(refusal) => Some(Sleeper {
                channel: self.session.channel(thread, &waiter.want),
                want: waiter.want,
                owner: self.session.owner(thread),
                refusal,
            }),
            _ => None,
        }
    }

    /// What stands for the threads that sleep on a channel whose messages wake one, where it is
    /// known whether a message is in flight.
    pub(crate) fn stand_of_one(&self, channel: &Channel, in_flight: bool) -> Stand
        ensures { result ≡ stand_where_one in_flight channel.now (client_of self.now) }
    {
        if in_flight {
            return Stand::Message;
        }
        if self.session.permits(channel) > 0 {
            return Stand::Permit;
        }
        if self.has_awake(channel) {
            return Stand::Awake;
        }
        timer_or_nobody(self.least_due(channel))
    }

    /// What stands for a thread that sleeps on a channel whose messages wake all, where it is known
    /// whether its call would be refused and whether a message is in flight.
    pub(crate) fn stand_of_all(&self, sleeper: &Sleeper, held: bool, in_flight: bool) -> Stand
        ensures { result ≡ stand_where_all held in_flight sleeper.now (client_of self.now) }
    {
        if held {
            return Stand::Held;
        }
        if in_flight {
            return Stand::Message;
        }
        if self.session.seen(&sleeper.channel) != sleeper.refusal.seen {
            return Stand::Broadcast;
        }
        timer_or_nobody(moment_due(sleeper.refusal.due))
    }

    // Whether a thread is awake that waits at the latch of a channel.
    fn has_awake(&self, channel: &Channel) -> bool
        ensures { result
            ≡ list_any (is_awake channel.now (client_of self.now)) (threads_with (λ thread. true)) }
    {
        for thread in 0..MOST_THREADS + 1 {
            if self.is_awake(channel, thread) {
                return true;
            }
        }
        false
    }

    // The least due moment at the latch of a channel.
    fn least_due(&self, channel: &Channel) -> Option<u64>
        ensures { result ≡ least_due channel.now (client_of self.now) }
    {
        let mut least = None;
        for thread in 0..MOST_THREADS + 1 {
            least = lesser(least, self.due_of(channel, thread));
        }
        least
    }

    // Whether a thread waits at the latch of a channel, and is awake.
    fn is_awake(&self, channel: &Channel, thread: u32) -> bool
        ensures { result ≡ is_awake channel.now (client_of self.now) thread }
    {
        let Some(waiter) = self.session.waiter(thread) else {
            return false;
        };
        self.waits_at(channel, thread, &waiter)
            && is_awake_at(waiter.stage, self.replies.get(thread), waiter.want.function)
    }

    // When a thread that waits at the latch of a channel asks again by itself.
    fn due_of(&self, channel: &Channel, thread: u32) -> Option<u64>
        ensures { result ≡ due_of channel.now (client_of self.now) thread }
    {
        let Some(waiter) = self.session.waiter(thread) else {
            return None;
        };
        if !self.waits_at(channel, thread, &waiter) {
            return None;
        }
        due_at(&waiter, self.replies.get(thread))
    }

    // Whether a request waits at the latch of a channel.
    fn waits_at(&self, channel: &Channel, thread: u32, waiter: &Waiter) -> bool
        requires { IsRequest thread waiter.now }
        ensures { result ≡ waits_at channel.now (client_of self.now) thread waiter.now }
    {
        waiter.registered && self.session.waits_on(channel, thread, &waiter.want)
    }
}

// Whether a thread must send a call, or end and hand a permit on, before it can sleep again.
fn is_awake_at(stage: Stage, reply: Option<Reply>, function: Function) -> bool
    ensures { result ≡ is_awake_at stage reply function }
{
    match stage {
        Stage::Ready(_) => true,
        Stage::Asked(_) => gets_on(reply, function),
        Stage::Fresh(_)
        | Stage::Joining
        | Stage::Refused(_)
        | Stage::Asleep(_)
        | Stage::Leaving(_) => false,
    }
}

// Whether a call that was sent gets its thread on.
fn gets_on(reply: Option<Reply>, function: Function) -> bool
    ensures { result ≡ gets_on reply function }
{
    match reply {
        None => true,
        Some(reply) => !reply.blocks(function),
    }
}

// When a thread whose call was refused asks again by itself.
fn due_at(waiter: &Waiter, reply: Option<Reply>) -> Option<u64>
    requires { IsStage waiter.now.mode waiter.now.stage }
    ensures { result ≡ due_at waiter.now.stage reply }
{
    match waiter.stage {
        Stage::Asked(asking) => match reply {
            None => None,
            Some(reply) => moment_due(due_after(asking.at, &reply)),
        },
        Stage::Refused(refusal) | Stage::Asleep(refusal) => moment_due(refusal.due),
        Stage::Fresh(_) | Stage::Joining | Stage::Ready(_) | Stage::Leaving(_) => None,
    }
}

// A due moment, unless it is never.
fn moment_due(due: Due) -> Option<u64>
    ensures { result ≡ moment_due due }
{
    match due {
        Due::At(moment) => Some(moment),
        Due::Never => None,
    }
}

// A timer at a moment, or nothing where there is none.
fn timer_or_nobody(moment: Option<u64>) -> Stand
    ensures { result ≡ timer_or_nobody moment }
{
    match moment {
        Some(moment) => Stand::Timer(moment),
        None => Stand::Nobody,
    }
}

// The lesser of two moments, of which each may be missing.
fn lesser(a: Option<u64>, b: Option<u64>) -> Option<u64>
    ensures { result ≡ lesser a b }
{
    match (a, b) {
        (None, other) => other,
        (Some(moment), None) => Some(moment),
        (Some(moment), Some(other)) => Some(moment.min(other)),
    }
}
