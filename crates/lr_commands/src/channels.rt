ghost use Rattle.std.specs.Prelude.{◌≡◌, ◌↔◌, [], ◌∷◌, ◌++◌, length, IsTrue, OnOk, OnErr};

use lr_names::Channel;
use std::alloc::{AllocError, Global};
use std::marker::Model;

/// A list of channels.
#[derive(Drop)]
pub struct Channels {
    channels: Vec<Channel>,
}

impl Model for Channels {
    ghost use Rattle.std.specs.Prelude.{List};
    ghost use Rattle.lr_names.specs.Channel.{ChannelOf};

    ghost Value = { List ChannelOf };

    ghost view = { λ c. c.channels.items };
}

impl Channels {
    /// No channels. It takes no memory yet.
    pub fn new(alloc: Global) -> Self
        ensures { result ≡ [] }
    {
        Channels {
            channels: Vec::new(alloc),
        }
    }

    /// Appends a channel. An error leaves the list as it was.
    pub fn push(&mut self, channel: Channel) -> Result<(), AllocError>
        ensures ok { OnOk result (self.new ≡ self.old ++ channel ∷ []) }
        ensures err { OnErr result (self.new ≡ self.old) }
    {
        self.channels.push(channel)?;
        Ok(())
    }

    /// How many channels there are.
    pub fn len(&self) -> usize
        ensures { result ≡ length self.now }
    {
        self.channels.len()
    }

    /// Whether there are none.
    pub fn is_empty(&self) -> bool
        ensures { IsTrue result ↔ (self.now ≡ []) }
    {
        self.channels.is_empty()
    }

    /// The channels.
    pub fn as_slice(&self) -> &[Channel]
        ensures { result.now ≡ self.now }
    {
        self.channels.as_slice()
    }
}
