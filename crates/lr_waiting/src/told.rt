use crate::waiter::Ask;
use lr_names::Due;
use lr_objects::Reply;

/// What comes of a reply that a thread takes.
#[derive(Clone, Copy, PartialEq, Eq)]
pub enum Taken {
    /// The request has ended with this reply.
    Done(Reply),
    /// The thread waits until its client hears the channel.
    Joining,
    /// Its client hears the channel already: it may ask once more.
    Ready(Ask),
    /// The call was refused: the thread looks next whether it is to sleep, until this moment.
    Refused(Due),
}

/// What comes of the look of a thread whose call was refused.
#[derive(Clone, Copy, Debug, PartialEq, Eq)]
pub enum CheckedStep {
    /// It has taken a permit, and may ask once more.
    Permit(Ask),
    /// A message has woken all since it asked: it may ask once more.
    Broadcast(Ask),
    /// Its due moment has come: it may ask once more.
    Timer(Ask),
    /// It sleeps, until this moment at most.
    Asleep(Due),
}

/// By what a sleeping thread was woken.
#[derive(Clone, Copy, Debug, PartialEq, Eq)]
pub enum WokenStep {
    /// It has taken a permit, and may ask once more.
    Permit(Ask),
    /// A message has woken all since it asked: it may ask once more.
    Broadcast(Ask),
}

/// What comes of a thread's giving up.
#[derive(Clone, Copy, Debug, PartialEq, Eq)]
pub enum GaveUp {
    /// Its request has ended.
    Done,
    /// It gives its place in a queue back first, with this ticket.
    Leaving(Ask),
}
