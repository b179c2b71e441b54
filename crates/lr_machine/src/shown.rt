use crate::clients::Clients;
use crate::standings::Standings;
use lr_names::{Channel, Due};
use lr_objects::Reply;
use lr_waiting::{Order, Phase, RenewTaken};
use std::marker::Model;

/// A message, and how many connections it reached.
#[derive(Clone, Copy, PartialEq, Eq)]
pub struct Reached {
    /// The channel on which it was sent.
    pub channel: Channel,
    /// The number of subscribed connections.
    pub connections: u32,
}

/// What an executed call answered, and the message that it sent, if any.
#[derive(Drop)]
pub struct Replied {
    /// The reply.
    pub reply: Reply,
    /// The message.
    pub post: Option<Reached>,
    /// The clients that read too slowly for the message, which were cut off by it.
    pub cut: Clients,
}

impl Model for Replied {
    ghost use Rattle.lr_machine.specs.RepliedValue.{RepliedValue};

    ghost Value = { RepliedValue };

    ghost view = { λ v. record { reply = v.reply; post = v.post; cut = v.cut } };
}

/// An order that the server got.
#[derive(Clone, Copy, PartialEq, Eq)]
pub struct Ordered {
    /// The order.
    pub order: Order,
    /// How many channels the connection then has: 0 where it takes no more.
    pub channels: u32,
    /// The client, where it was cut off, since its connection takes no more.
    pub cut: Option<u32>,
}

/// What was found where an event doesn't apply.
#[derive(Clone, Copy, Debug, PartialEq, Eq)]
pub enum Found {
    /// The thread is in this phase.
    Phase(Phase),
    /// The client has no orders.
    Orders,
    /// Nothing waits that the server has sent.
    Pushes,
    /// The client doesn't watch the hold.
    Watch,
    /// A renewal of the hold was asked for, and its reply wasn't taken.
    Renewing,
    /// The hold falls due later.
    Due,
    /// No renewal of the hold was asked for that isn't executed, or executed that isn't taken.
    Renewal,
}

/// What a transcript shows of an event.
#[derive(Drop)]
pub enum Shown {
    /// A request has begun.
    Fresh,
    /// A call was sent.
    Asked,
    /// A call was executed.
    Replied(Replied),
    /// A request has ended with this reply.
    Done(Reply),
    /// A thread waits until its client hears its channel.
    Joining,
    /// A thread may ask once more, since its client hears its channel already.
    Ready,
    /// A call was refused: the thread sleeps next, until this moment.
    Refused(Due),
    /// A thread has taken a permit, and may ask once more.
    ReadyByPermit,
    /// A message has woken all, and the thread may ask once more.
    ReadyByBroadcast,
    /// A thread's timer has come, and it may ask once more.
    ReadyByTimer,
    /// A thread sleeps, until this moment at most.
    Asleep(Due),
    /// A request has ended, since its thread gave up.
    Quit,
    /// A thread gives its place in a queue back.
    Leaving,
    /// The server got an order.
    Ordered(Ordered),
    /// A subscription was acknowledged, and so many threads that waited for it may ask once more.
    Acknowledged(Channel, u32),
    /// It was acknowledged that a channel was left.
    Left(Option<Channel>),
    /// A message has come, and this is the number of permits, or of messages, since then.
    Delivered(Channel, u64),
    /// The moment now, in milliseconds.
    Moment(u64),
    /// A renewal was asked for.
    RenewAsked,
    /// The reply to a renewal was taken, and this came of it.
    RenewTaken(RenewTaken),
    /// A client was cut off.
    Cut,
    /// What stands for the threads that sleep.
    Standings(Standings),
    /// The event doesn't apply, and nothing changed.
    No(Found),
}
