ghost use Rattle.std.specs.Prelude.{◌≡◌, ◌<◌, ◌≤◌, [], ◌∷◌, ◌++◌, Some, IsTrue, false, not, length, filter, take, drop, IfOk, OnOk, OnErr};
ghost use Rattle.lr_names.specs.declared.post.Push.TheVariants.{Subscribed, Unsubscribed, Message};
ghost use Rattle.lr_model.specs.Board.{closed_connection, new_connection, dropped_connection, connection_after_drain, has_room, is_open, same_channel, with_item, without_channel, with_acknowledgement};
ghost use Rattle.lr_pubsub.specs.Connection.{is_shut, is_in_flight, is_message_of};
ghost use Rattle.lr_pubsub.specs.ConnectionSlot.{HasSpare};

use crate::channels::is_same_channel;
use crate::pushes::Pushes;
use lr_limits::MOST_WAITING;
use lr_names::{Channel, Post, Push};
use std::alloc::{AllocError, Global};
use std::collections::VecDeque;
use std::marker::Model;

/// So many channels can be counted in an acknowledgement.
const MOST_CHANNELS: usize = u32::MAX as usize;

/// The place of one connection, open or not.
#[derive(Drop)]
pub(crate) struct ConnectionSlot {
    opener: Option<u64>,
    channels: Vec<Channel>,
    outbox: VecDeque<Push>,
    dropped: bool,
}

impl Model for ConnectionSlot {
    ghost use Rattle.std.specs.Prelude.{◌-◌, min, vec_len, vec_capacity};
    ghost use Rattle.std.specs.VecDeque.{deque_len, deque_capacity};
    ghost use Rattle.lr_pubsub.specs.ConnectionSlot.{ConnectionSlotValue, IsConnectionSlot, most_channels};

    ghost Value = { ConnectionSlotValue };

    ghost view = { λ s. record {
      connection = record {
        opener = s.opener;
        channels = s.channels.items;
        outbox = s.outbox.items;
        dropped = s.dropped;
      };
      room = deque_capacity s.outbox - deque_len s.outbox;
      channel_room = min (vec_capacity s.channels) most_channels - vec_len s.channels;
    } };

    ghost invariant = { λ s. IsConnectionSlot (record {
      opener = s.opener;
      channels = s.channels.items;
      outbox = s.outbox.items;
      dropped = s.dropped;
    }) };
}

impl ConnectionSlot {
    /// A place at which no connection is open. It takes no memory.
    pub(crate) fn closed(alloc: Global) -> Self
        ensures { result.connection ≡ closed_connection }
    {
        ConnectionSlot {
            opener: None,
            channels: Vec::new(alloc),
            outbox: VecDeque::new(alloc),
            dropped: false,
        }
    }

    /// Opens a connection here. It takes no memory.
    pub(crate) fn open(&mut self, caller: u64)
        requires { is_open self.old.connection ≡ false }
        ensures { self.new.connection ≡ new_connection caller }
    {
        self.opener = Some(caller);
    }

    /// Marks the connection as dropped. Its channels and what waited for it are gone, and their
    /// memory is given back.
    pub(crate) fn drop_out(&mut self, alloc: Global)
        requires { IsTrue (is_open self.old.connection) }
        ensures { self.new.connection ≡ dropped_connection self.old.connection }
    {
        self.channels = Vec::new(alloc);
        self.outbox = VecDeque::new(alloc);
        self.dropped = true;
    }

    /// Who opened the connection: `None` where none is open.
    pub(crate) fn opener(&self) -> Option<u64>
        ensures { result ≡ self.now.connection.opener }
    {
        self.opener
    }

    /// Whether the connection was dropped.
    pub(crate) fn is_dropped(&self) -> bool
        ensures { result ≡ self.now.connection.dropped }
    {
        self.dropped
    }

    /// The channels, in order of subscribing.
    pub(crate) fn channels(&self) -> &[Channel]
        ensures { result.now ≡ self.now.connection.channels }
    {
        self.channels.as_slice()
    }

    /// How many items wait.
    pub(crate) fn waiting(&self) -> usize
        ensures { result ≡ length self.now.connection.outbox }
    {
        self.outbox.len()
    }

    /// Whether the outbox takes one more item.
    pub(crate) fn has_room(&self) -> bool
        ensures { result ≡ has_room self.now.connection }
    {
        self.outbox.len() < MOST_WAITING
    }

    /// Whether the connection takes no acknowledgement.
    pub(crate) fn is_shut(&self) -> bool
        ensures { result ≡ is_shut self.now.connection }
    {
        self.dropped || !self.has_room()
    }

    /// Whether a message of a channel waits.
    pub(crate) fn is_in_flight(&self, channel: &Channel) -> bool
        ensures { result ≡ is_in_flight channel.now self.now.connection }
    {
        self.outbox.iter().any(|push| is_message_of(push, channel))
    }

    /// Takes the memory of the spare places, if they are needed. So many channels that one more
    /// can't be counted find no memory.
    pub(crate) fn reserve(&mut self) -> Result<(), AllocError>
        ensures same { self.new.connection ≡ self.old.connection }
        ensures spare { OnOk result (HasSpare self.new) }
    {
        if self.opener.is_none() || self.dropped {
            return Ok(());
        }
        if self.channels.len() >= MOST_CHANNELS {
            return Err(AllocError);
        }
        self.channels.reserve(1)?;
        if self.outbox.len() < MOST_WAITING {
            self.outbox.reserve(1)?;
        }
        Ok(())
    }

    /// Puts a message last, for which there is room.
    pub(crate) fn tell(&mut self, post: &Post)
        requires open { IsTrue (is_open self.old.connection) }
        requires room { 0 < self.old.room }
        ensures { self.new.connection
            ≡ with_item (Message post.now.channel post.now.wakes) self.old.connection }
    {
        self.outbox
            .push_back_reserved(Push::Message(post.channel, post.wakes));
    }

    /// Acknowledges a channel that the connection has, for which there is room, and answers how
    /// many it has.
    pub(crate) fn acknowledge(&mut self, channel: &Channel) -> u32
        requires open { IsTrue (is_open self.old.connection) }
        requires room { 0 < self.old.room }
        ensures told { let channels = self.old.connection.channels in
            self.new.connection ≡ with_acknowledgement channels
            (Subscribed channel.now (length channels)) self.old.connection }
        ensures count { result ≡ length self.old.connection.channels }
    {
        let count = self.channels.len() as u32;
        self.outbox
            .push_back_reserved(Push::Subscribed(*channel, count));
        count
    }

    /// Adds a channel that the connection doesn't have, for which there is room, and acknowledges
    /// it. It answers how many the connection then has.
    pub(crate) fn join(&mut self, channel: &Channel) -> u32
        requires open { IsTrue (is_open self.old.connection) }
        requires room { 0 < self.old.room }
        requires channel { 0 < self.old.channel_room }
        ensures joined { let channels = self.old.connection.channels ++ channel.now ∷ [] in
            self.new.connection ≡ with_acknowledgement channels
            (Subscribed channel.now (length channels)) self.old.connection }
        ensures count { result ≡ length (self.old.connection.channels ++ channel.now ∷ []) }
    {
        self.channels.push_reserved(*channel);
        let count = self.channels.len() as u32;
        self.outbox
            .push_back_reserved(Push::Subscribed(*channel, count));
        count
    }

    /// Takes a channel away, if the connection has it, and acknowledges that, for which there is
    /// room. It answers how many the connection then has.
    pub(crate) fn leave(&mut self, channel: &Channel) -> u32
        requires open { IsTrue (is_open self.old.connection) }
        requires room { 0 < self.old.room }
        ensures left { let channels = without_channel channel.now self.old.connection in
            self.new.connection ≡ with_acknowledgement channels
            (Unsubscribed (Some channel.now) (length channels)) self.old.connection }
        ensures count { result ≡ length (without_channel channel.now self.old.connection) }
    {
        remove_channel(&mut self.channels, channel);
        let count = self.channels.len() as u32;
        self.outbox
            .push_back_reserved(Push::Unsubscribed(Some(*channel), count));
        count
    }

    /// Takes the first items, at most so many. An error changes nothing.
    pub(crate) fn drain(&mut self, alloc: Global, most: u32) -> Result<Pushes, AllocError>
        requires { IsTrue (is_open self.old.connection) }
        ensures ok { OnOk result (self.new.connection
            ≡ connection_after_drain most self.old.connection) }
        ensures items { IfOk result (λ items. items ≡ take most self.old.connection.outbox) }
        ensures err { OnErr result (self.new.connection ≡ self.old.connection) }
    {
        let count = self.outbox.len().min(most as usize);
        let pushes = first_items(alloc, &self.outbox, count)?;
        drop_first(&mut self.outbox, count);
        Ok(Pushes::of(pushes))
    }
}

// Copies the first items.
fn first_items(
    alloc: Global,
    outbox: &VecDeque<Push>,
    count: usize,
) -> Result<Vec<Push>, AllocError>
    requires { count ≤ length outbox.now.items }
    ensures { IfOk result (λ pushes. pushes.items ≡ take count outbox.now.items) }
{
    let (first, second) = outbox.as_slices();
    let mut pushes = Vec::with_capacity(alloc, count)?;
    let cut = count.min(first.len());
    pushes.extend_from_slice(&first[..cut])?;
    pushes.extend_from_slice(&second[..count - cut])?;
    Ok(pushes)
}

// Takes the first items away.
fn drop_first(outbox: &mut VecDeque<Push>, count: usize)
    ensures { outbox.new.items ≡ drop count outbox.old.items }
{
    for _ in 0..count {
        outbox.pop_front();
    }
}

// Whether an item is a message of a channel.
fn is_message_of(push: &Push, channel: &Channel) -> bool
    ensures { result ≡ is_message_of channel.now push.now }
{
    matches!(push, Push::Message(other, _) if is_same_channel(channel, other))
}

// Takes a channel out of a list; the others keep their order.
fn remove_channel(channels: &mut Vec<Channel>, channel: &Channel)
    ensures items { channels.new.items
        ≡ filter (λ other. not (same_channel channel.now other)) channels.old.items }
    ensures fewer { length channels.new.items ≤ length channels.old.items }
{
    channels.retain(|other| !is_same_channel(channel, other));
}
