ghost use Rattle.std.specs.Prelude.{◌≡◌, ℕ, ◌==◌, ◌<◌, ◌≤◌, [], true, false, if◌then◌else◌, OnOk, IsOk};
ghost use Rattle.indexmap.specs.IndexMap.{spare};
ghost use Rattle.lr_names.specs.Channel.{ChannelOf};
ghost use Rattle.lr_model.specs.Board.{same_channel};
ghost use Rattle.lr_model.specs.Table.{put};
ghost use Rattle.lr_pubsub.specs.ConnectionSet.{has_number};
ghost use Rattle.lr_pubsub.specs.Subscribers.{listeners};

use crate::connection_set::ConnectionSet;
use indexmap::IndexMap;
use lr_limits::MOST_CONNECTIONS;
use lr_names::Channel;
use std::alloc::{AllocError, Global};

/// For each channel the connections that have it. A channel that nobody has isn't kept.
#[derive(Drop)]
pub(crate) struct Subscribers {
    by_channel: IndexMap<Channel, ConnectionSet>,
}

impl Subscribers {
    /// Nobody has a channel. It takes no memory.
    pub(crate) fn new(alloc: Global) -> Self
        ensures { result.by_channel.entries ≡ [] }
    {
        Subscribers {
            by_channel: IndexMap::new(alloc),
        }
    }

    /// Takes the memory for one channel more.
    pub(crate) fn reserve(&mut self) -> Result<(), AllocError>
        ensures same { self.new.by_channel.entries ≡ self.old.by_channel.entries }
        ensures ok { OnOk result (0 < spare self.new.by_channel) }
    {
        self.by_channel.reserve(1)
    }

    /// The connections that have a channel.
    pub(crate) fn listeners(&self, channel: &Channel) -> ConnectionSet
        ensures { has_number result ≡ listeners channel.now self.now.by_channel.entries }
    {
        match self.by_channel.get(channel) {
            Some(numbers) => *numbers,
            None => ConnectionSet::empty(),
        }
    }

    /// Adds a connection to a channel, for which there is room. It takes no memory.
    pub(crate) fn add(&mut self, channel: &Channel, conn: u32)
        requires number { conn < MOST_CONNECTIONS }
        requires room { 0 < spare self.old.by_channel }
        ensures { (q : ChannelOf) → listeners q self.new.by_channel.entries
            ≡ (if same_channel q channel.now
            then put ◌==◌ (listeners q self.old.by_channel.entries) conn true
            else listeners q self.old.by_channel.entries) }
    {
        match self.by_channel.get_mut(channel) {
            Some(numbers) => numbers.add(conn),
            None => self.add_channel(channel, conn),
        }
    }

    /// Takes a channel from a connection. It takes no memory.
    pub(crate) fn remove(&mut self, channel: &Channel, conn: u32)
        requires { conn < MOST_CONNECTIONS }
        ensures { (q : ChannelOf) → listeners q self.new.by_channel.entries
            ≡ (if same_channel q channel.now
            then put ◌==◌ (listeners q self.old.by_channel.entries) conn false
            else listeners q self.old.by_channel.entries) }
    {
        let Some(numbers) = self.by_channel.get_mut(channel) else {
            return;
        };
        numbers.remove(conn);
        if numbers.is_empty() {
            self.by_channel.swap_remove(channel);
        }
    }

    // Begins a channel that nobody has.
    fn add_channel(&mut self, channel: &Channel, conn: u32)
        requires number { conn < MOST_CONNECTIONS }
        requires room { 0 < spare self.old.by_channel }
        requires nobody { listeners channel.now self.old.by_channel.entries ≡ (λ _. false) }
        ensures { (q : ChannelOf) → listeners q self.new.by_channel.entries
            ≡ (if same_channel q channel.now
            then put ◌==◌ (λ _. false) conn true
            else listeners q self.old.by_channel.entries) }
    {
        let mut numbers = ConnectionSet::empty();
        numbers.add(conn);
        self.by_channel.insert(*channel, numbers).unwrap();
    }
}
