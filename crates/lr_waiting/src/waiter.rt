use lr_names::Due;
use lr_objects::{Mode, Op, Want};
use std::marker::Model;

/// A call that was sent.
#[derive(Clone, Copy, PartialEq, Eq)]
pub struct Asking {
    /// The call.
    pub op: Op,
    /// When it was sent, in milliseconds.
    pub at: u64,
    /// How many messages had woken all who wait on its channel, when it was sent.
    pub seen: u64,
    /// Whether the watchdog's lease was taken, since its owner has the object renewed.
    pub watched: bool,
}

/// What a thread knows whose call was refused, while it waits.
#[derive(Clone, Copy, Debug, PartialEq, Eq)]
pub struct Refusal {
    /// When it asks again, even if nobody wakes it.
    pub due: Due,
    /// How many messages had woken all who wait on its channel, when its call was sent.
    pub seen: u64,
}

/// How far a request has come. A ticket lets it send its call once.
#[derive(Clone, Copy, PartialEq, Eq)]
pub enum Stage {
    /// It has begun, and has this ticket.
    Fresh(u64),
    /// Its call was sent.
    Asked(Asking),
    /// It waits until its client hears what is sent on its channel.
    Joining,
    /// It may ask once more, with this ticket.
    Ready(u64),
    /// Its call was refused, and it hasn't looked yet whether it is to sleep.
    Refused(Refusal),
    /// It sleeps.
    Asleep(Refusal),
    /// It gives up its place in a queue, with this ticket.
    Leaving(u64),
}

/// In which phase a thread of a client is.
#[derive(Clone, Copy, Debug, PartialEq, Eq)]
pub enum Phase {
    /// The client was cut off.
    Cut,
    /// The thread has no request.
    Idle,
    /// Its request has begun.
    Fresh,
    /// Its call was sent.
    Asked,
    /// Its call was executed.
    Answered,
    /// It waits until its client hears its channel.
    Joining,
    /// It may ask once more.
    Ready,
    /// Its call was refused.
    Refused,
    /// It sleeps.
    Asleep,
    /// It gives up its place in a queue.
    Leaving,
}

/// A ticket: it lets a thread send one call.
#[derive(Clone, Copy, Debug, PartialEq, Eq)]
pub struct Ask {
    /// The thread.
    pub thread: u32,
    /// How many tickets the client had given, this one counted: from 2^64 - 1 it goes on to 0.
    pub turn: u64,
}

/// A request of a thread that hasn't ended.
#[derive(Clone, Copy)]
pub struct Waiter {
    /// How long it may wait.
    pub mode: Mode,
    /// What it wants.
    pub want: Want,
    /// How far it has come.
    pub stage: Stage,
    /// Whether it counts among those that wait on its channel.
    pub registered: bool,
}

impl Model for Waiter {
    ghost use Rattle.lr_waiting.specs.WaiterValue.{WaiterValue};

    ghost Value = { WaiterValue };

    ghost view = { λ v. record {
      mode = v.mode;
      want = v.want;
      stage = v.stage;
      registered = v.registered;
    } };

    ghost inverse = { λ v. record {
      mode = v.mode;
      want = v.want;
      stage = v.stage;
      registered = v.registered;
    } };
}
