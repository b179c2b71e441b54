ghost use Rattle.std.specs.Prelude.{◌≡◌};
ghost use Rattle.lr_names.specs.Post.{post_to};

use crate::channel::Channel;
use crate::kind::Wakes;

/// A message to the subscribers of a channel, sent where an object may have come free.
#[derive(Clone, Copy, Debug, PartialEq, Eq)]
pub struct Post {
    /// Where it is sent.
    pub channel: Channel,
    /// How many of a client's waiting threads it wakes.
    pub wakes: Wakes,
}

impl Post {
    /// The message that tells those who wait on this channel.
    pub fn to(channel: Channel) -> Post
        ensures { result ≡ post_to channel }
    {
        Post {
            channel,
            wakes: channel.wakes(),
        }
    }
}

/// What a subscribed connection is sent.
#[derive(Clone, Copy, Debug, PartialEq, Eq)]
pub enum Push {
    /// A subscription was acknowledged, with the number of the connection's channels afterwards.
    Subscribed(Channel, u32),
    /// An end of a subscription was acknowledged, with the number of channels left. The channel is
    /// absent where there was none to leave.
    Unsubscribed(Option<Channel>, u32),
    /// A message on a channel.
    Message(Channel, Wakes),
}

/// When something falls due.
#[derive(Clone, Copy, Debug, PartialEq, Eq)]
pub enum Due {
    /// At a moment, in milliseconds.
    At(u64),
    /// Never.
    Never,
}
