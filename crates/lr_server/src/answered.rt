ghost use Rattle.std.specs.Prelude.{◌≡◌, None, []};

use lr_names::Post;
use lr_objects::Reply;
use lr_pubsub::Conns;
use lr_resp::Frame;
use std::alloc::Global;

/// What a request was answered.
#[derive(Drop)]
pub enum Answer {
    /// The reply to a call.
    Reply(Reply),
    /// What a look at the keys shows, or the answer of a ping. Nothing was done.
    Look(Frame),
    /// The acknowledgement waits in the outbox of the connection, which now has so many channels.
    Queued(u32),
    /// A connection that has a channel only subscribes, leaves channels, and ends. Nothing was
    /// done.
    OnlySubscribed,
}

/// What a step did.
#[derive(Drop)]
pub struct Answered {
    /// The answer to the request.
    pub answer: Answer,
    /// The message that a call sent, if it sent one.
    pub post: Option<Post>,
    /// How many connections the message reached.
    pub reached: u32,
    /// The connections that it dropped, since their outboxes were full, in order of their numbers.
    pub dropped: Conns,
}

impl Answered {
    /// An answer without a message.
    pub(crate) fn without_post(alloc: Global, answer: Answer) -> Self
        ensures answer { result.answer ≡ answer }
        ensures post { result.post ≡ None }
        ensures reached { result.reached ≡ 0 }
        ensures dropping { result.dropped ≡ [] }
    {
        Answered {
            answer,
            post: None,
            reached: 0,
            dropped: Conns::new(alloc),
        }
    }
}
