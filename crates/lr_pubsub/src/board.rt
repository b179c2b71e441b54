ghost use Rattle.std.specs.Prelude.{◌≡◌, ◌≢◌, ℕ, ◌==◌, ◌↔◌, ◌<◌, nat_le, All, None, Some, IsTrue, true, false, length, take, slice_get, option_map, if◌then◌else◌, IfOk, OnOk, OnErr, IsOk, vec_len};
ghost use Rattle.std.specs.List.{list_any};
ghost use Rattle.std.specs.Option.{option_copied};
ghost use Rattle.lr_names.specs.Channel.{ChannelOf};
ghost use Rattle.lr_limits.specs.Limits.{connection_limit};
ghost use Rattle.lr_model.specs.Board.{closed_connection, new_connection, board_after_post, reached_by, dropped_by, connection_after_drain, dropped_connection, has_channel, is_open, same_channel, connection_after_subscribe, connection_after_unsubscribe, with_channel, without_channel, with_connection, free_numbers};
ghost use Rattle.lr_model.specs.History.{state_at_start};
ghost use Rattle.lr_model.specs.Table.{put};
ghost use Rattle.lr_pubsub.specs.BoardValue.{board_of};
ghost use Rattle.lr_pubsub.specs.Connection.{is_shut, is_in_flight};
ghost use Rattle.lr_pubsub.specs.ConnectionSet.{has_number};
ghost use Rattle.lr_pubsub.specs.ConnectionSlot.{HasSpare, connections_of, slot_at};
ghost use Rattle.lr_pubsub.specs.Delivery.{board_after_drops};
ghost use Rattle.lr_pubsub.specs.Subscribers.{listeners};

use crate::connection_set::ConnectionSet;
use crate::connection_slot::ConnectionSlot;
use crate::conns::Conns;
use crate::delivery::{take_numbers, tell_all};
use crate::fault::BoardFault;
use crate::posted::Posted;
use crate::pushes::Pushes;
use crate::subscribers::Subscribers;
use lr_limits::MOST_CONNECTIONS;
use lr_names::{Channel, Post};
use std::alloc::{AllocError, Global};
use std::marker::Model;

/// The connections by their numbers: who opened them, what they subscribe to, and what waits to be
/// sent to them.
#[derive(Drop)]
pub struct Board {
    alloc: Global,
    // one for each number that a connection may have
    slots: Vec<ConnectionSlot>,
    // the numbers at which no connection is open
    free: ConnectionSet,
    // the connections that may have used or lost a spare place
    touched: ConnectionSet,
    subscribers: Subscribers,
    // room for those that the next message drops
    dropping: Vec<u32>,
    // whether the next subscription, leave or message needs no memory
    ready: bool,
}

impl Model for Board {
    ghost use Rattle.std.specs.Prelude.{vec_capacity};
    ghost use Rattle.indexmap.specs.IndexMap.{spare};
    ghost use Rattle.lr_pubsub.specs.BoardValue.{BoardValue};
    ghost use Rattle.lr_pubsub.specs.ConnectionSlot.{connections_of};
    ghost use Rattle.lr_pubsub.specs.BoardParts.{IsBoard};

    ghost Value = { BoardValue };

    ghost view = { λ b. record { connections = connections_of b.slots.items; ready = b.ready } };

    ghost invariant = { λ b. IsBoard (record {
      slots = b.slots.items;
      free = b.free;
      touched = b.touched;
      rows = b.subscribers.by_channel.entries;
      spare_rows = spare b.subscribers.by_channel;
      dropping = b.dropping.items;
      dropping_room = vec_capacity b.dropping;
      ready = b.ready;
    }) };
}

impl Board {
    /// A board with the connections 0 to `last` open, by caller 0.
    pub fn new(alloc: Global, last: u32) -> Result<Self, AllocError>
        requires { last < MOST_CONNECTIONS }
        ensures { IfOk result (λ board. board_of board ≡ (state_at_start last).board) }
    {
        let mut slots = Vec::with_capacity(alloc, MOST_CONNECTIONS as usize)?;
        let mut free = ConnectionSet::empty();
        let mut touched = ConnectionSet::empty();
        for conn in 0..MOST_CONNECTIONS {
            slots.push_reserved(first_slot(alloc, conn, last));
            if conn <= last {
                touched.add(conn);
            } else {
                free.add(conn);
            }
        }
        Ok(Board {
            alloc,
            slots,
            free,
            touched,
            subscribers: Subscribers::new(alloc),
            dropping: Vec::new(alloc),
            ready: false,
        })
    }

    /// Opens a connection at a number below 256 at which none is open. It takes no memory.
    pub fn open(&mut self, conn: u32, caller: u64)
        requires number { conn < MOST_CONNECTIONS }
        requires free { is_open (board_of self.old conn) ≡ false }
        ensures { board_of self.new
            ≡ with_connection (board_of self.old) conn (new_connection caller) }
    {
        self.ready = false;
        self.free.remove(conn);
        self.touched.add(conn);
        self.slots[conn as usize].open(caller);
    }

    /// Closes an open connection. It takes no memory.
    pub fn close(&mut self, conn: u32)
        requires { IsTrue (is_open (board_of self.old conn)) }
        ensures { board_of self.new
            ≡ with_connection (board_of self.old) conn closed_connection }
    {
        self.ready = false;
        self.free.add(conn);
        leave_all(
            &mut self.subscribers,
            self.slots[conn as usize].channels(),
            conn,
        );
        self.slots[conn as usize] = ConnectionSlot::closed(self.alloc);
    }

    /// Takes the memory that the next message, subscription or leave needs, whichever it is, unless
    /// the board changes before it. It touches only the connections that changed since this was
    /// done last. After an error some of the memory may be taken.
    pub fn reserve(&mut self) -> Result<(), AllocError>
        ensures ready { OnOk result (IsTrue self.new.ready) }
        ensures succeeds { IsTrue self.old.ready → IsOk result }
        ensures same { self.new.connections ≡ self.old.connections }
    {
        if self.ready {
            return Ok(());
        }
        self.take_memory()
    }

    /// Subscribes an open connection to a channel, and answers how many channels it then has. The
    /// acknowledgement waits in its outbox; a repeat is acknowledged again. An error changes
    /// nothing.
    pub fn subscribe(&mut self, conn: u32, channel: &Channel) -> Result<u32, BoardFault>
        requires { IsTrue (is_open (board_of self.old conn)) }
        ensures ok { OnOk result (board_of self.new ≡ with_connection (board_of self.old) conn
            (connection_after_subscribe channel.now (board_of self.old conn))) }
        ensures count { IfOk result (λ n. n
            ≡ length (with_channel channel.now (board_of self.old conn))) }
        ensures dropped { (result ≡ Err BoardFault.Dropped)
            ↔ IsTrue (is_shut (board_of self.old conn)) }
        ensures succeeds { IsTrue self.old.ready → result ≢ Err BoardFault.NoMemory }
        ensures err { OnErr result (self.new.connections ≡ self.old.connections) }
    {
        if self.is_shut(conn) {
            return Err(BoardFault::Dropped);
        }
        self.reserve()?;
        Ok(self.join(conn, channel))
    }

    /// Takes a channel from an open connection, whether it has it or not, and answers how many it
    /// then has. The acknowledgement waits in its outbox. An error changes nothing.
    pub fn unsubscribe(&mut self, conn: u32, channel: &Channel) -> Result<u32, BoardFault>
        requires { IsTrue (is_open (board_of self.old conn)) }
        ensures ok { OnOk result (board_of self.new ≡ with_connection (board_of self.old) conn
            (connection_after_unsubscribe channel.now (board_of self.old conn))) }
        ensures count { IfOk result (λ n. n
            ≡ length (without_channel channel.now (board_of self.old conn))) }
        ensures dropped { (result ≡ Err BoardFault.Dropped)
            ↔ IsTrue (is_shut (board_of self.old conn)) }
        ensures succeeds { IsTrue self.old.ready → result ≢ Err BoardFault.NoMemory }
        ensures err { OnErr result (self.new.connections ≡ self.old.connections) }
    {
        if self.is_shut(conn) {
            return Err(BoardFault::Dropped);
        }
        self.reserve()?;
        Ok(self.leave(conn, channel))
    }

    /// Sends a message to those that have its channel. One whose outbox is full is dropped: it
    /// loses its channels and what waited for it, and can only be closed. An error changes nothing.
    pub fn post(&mut self, post: &Post) -> Result<Posted, AllocError>
        ensures ok { OnOk result (board_of self.new
            ≡ board_after_post (Some post.now) (board_of self.old)) }
        ensures reached { IfOk result (λ p. p.reached ≡ reached_by post.now (board_of self.old)) }
        ensures dropped { IfOk result (λ p. p.dropped ≡ dropped_by post.now (board_of self.old)) }
        ensures succeeds { IsTrue self.old.ready → IsOk result }
        ensures err { OnErr result (self.new.connections ≡ self.old.connections) }
    {
        self.reserve()?;
        Ok(self.deliver(post))
    }

    /// Takes the first items of the outbox of an open connection, at most so many. An error changes
    /// nothing.
    pub fn drain(&mut self, conn: u32, most: u32) -> Result<Pushes, BoardFault>
        requires { IsTrue (is_open (board_of self.old conn)) }
        ensures ok { OnOk result (board_of self.new ≡ with_connection (board_of self.old) conn
            (connection_after_drain most (board_of self.old conn))) }
        ensures items { IfOk result (λ items. items ≡ take most (board_of self.old conn).outbox) }
        ensures dropped { (result ≡ Err BoardFault.Dropped)
            ↔ IsTrue (board_of self.old conn).dropped }
        ensures err { OnErr result (self.new.connections ≡ self.old.connections) }
    {
        if self.is_dropped(conn) {
            return Err(BoardFault::Dropped);
        }
        Ok(self.take_first(conn, most)?)
    }

    /// The least number at which no connection is open: `None` where 256 are open.
    pub fn next_free(&self) -> Option<u32>
        ensures { result ≡ slice_get (free_numbers (board_of self.now)) 0 }
    {
        self.free.first()
    }

    /// Who opened a connection: `None` where it isn't open.
    pub fn opener(&self, conn: u32) -> Option<u64>
        ensures { result ≡ (board_of self.now conn).opener }
    {
        self.slot(conn)?.opener()
    }

    /// Whether a connection was dropped, and not closed since.
    pub fn is_dropped(&self, conn: u32) -> bool
        ensures { result ≡ (board_of self.now conn).dropped }
    {
        self.slot(conn).is_some_and(ConnectionSlot::is_dropped)
    }

    /// Whether a connection takes no acknowledgement: it was dropped, or its outbox is full.
    pub fn is_shut(&self, conn: u32) -> bool
        ensures { result ≡ is_shut (board_of self.now conn) }
    {
        self.slot(conn).is_some_and(ConnectionSlot::is_shut)
    }

    /// How many channels a connection has.
    pub fn channel_count(&self, conn: u32) -> usize
        ensures { result ≡ length (board_of self.now conn).channels }
    {
        self.slot(conn).map_or(0, |slot| slot.channels().len())
    }

    /// Whether a connection has a channel.
    pub fn has_channel(&self, conn: u32, channel: &Channel) -> bool
        ensures { result ≡ has_channel channel.now (board_of self.now conn) }
    {
        conn < MOST_CONNECTIONS && self.subscribers.listeners(channel).has(conn)
    }

    /// How many items wait in a connection's outbox.
    pub fn waiting(&self, conn: u32) -> usize
        ensures { result ≡ length (board_of self.now conn).outbox }
    {
        self.slot(conn).map_or(0, ConnectionSlot::waiting)
    }

    /// Whether a message of a channel waits in a connection's outbox.
    pub fn in_flight(&self, conn: u32, channel: &Channel) -> bool
        ensures { result ≡ is_in_flight channel.now (board_of self.now conn) }
    {
        self.slot(conn)
            .is_some_and(|slot| slot.is_in_flight(channel))
    }

    // The place of a connection, if there is one for its number.
    fn slot(&self, conn: u32) -> Option<&ConnectionSlot>
        ensures { option_map (λ slot. slot.connection) (option_copied result)
            ≡ slice_get self.now.connections conn }
    {
        self.slots.get(conn as usize)
    }

    // Takes the memory of all spare places that are wanting.
    fn take_memory(&mut self) -> Result<(), AllocError>
        ensures ready { OnOk result (IsTrue self.new.ready) }
        ensures same { self.new.connections ≡ self.old.connections }
    {
        self.ready = false;
        reserve_touched(&mut self.slots, &mut self.touched)?;
        self.subscribers.reserve()?;
        self.dropping.reserve(MOST_CONNECTIONS as usize)?;
        self.ready = true;
        Ok(())
    }

    // Gives a channel to an open connection, or acknowledges it again where it has it.
    fn join(&mut self, conn: u32, channel: &Channel) -> u32
        requires opened { IsTrue (is_open (board_of self.old conn)) }
        requires takes { is_shut (board_of self.old conn) ≡ false }
        requires ready { IsTrue self.old.ready }
        ensures board { board_of self.new ≡ with_connection (board_of self.old) conn
            (connection_after_subscribe channel.now (board_of self.old conn)) }
        ensures count { result ≡ length (with_channel channel.now (board_of self.old conn)) }
    {
        if self.has_channel(conn, channel) {
            self.acknowledge(conn, channel)
        } else {
            self.add_channel(conn, channel)
        }
    }

    // Acknowledges a channel that the connection has.
    fn acknowledge(&mut self, conn: u32, channel: &Channel) -> u32
        requires opened { IsTrue (is_open (board_of self.old conn)) }
        requires takes { is_shut (board_of self.old conn) ≡ false }
        requires ready { IsTrue self.old.ready }
        requires had { IsTrue (has_channel channel.now (board_of self.old conn)) }
        ensures board { board_of self.new ≡ with_connection (board_of self.old) conn
            (connection_after_subscribe channel.now (board_of self.old conn)) }
        ensures count { result ≡ length (with_channel channel.now (board_of self.old conn)) }
    {
        self.ready = false;
        self.touched.add(conn);
        self.slots[conn as usize].acknowledge(channel)
    }

    // Adds a channel that the connection doesn't have.
    fn add_channel(&mut self, conn: u32, channel: &Channel) -> u32
        requires opened { IsTrue (is_open (board_of self.old conn)) }
        requires takes { is_shut (board_of self.old conn) ≡ false }
        requires ready { IsTrue self.old.ready }
        requires absent { has_channel channel.now (board_of self.old conn) ≡ false }
        ensures board { board_of self.new ≡ with_connection (board_of self.old) conn
            (connection_after_subscribe channel.now (board_of self.old conn)) }
        ensures count { result ≡ length (with_channel channel.now (board_of self.old conn)) }
    {
        self.ready = false;
        self.touched.add(conn);
        self.subscribers.add(channel, conn);
        self.slots[conn as usize].join(channel)
    }

    // Takes a channel from an open connection, whether it has it or not.
    fn leave(&mut self, conn: u32, channel: &Channel) -> u32
        requires opened { IsTrue (is_open (board_of self.old conn)) }
        requires takes { is_shut (board_of self.old conn) ≡ false }
        requires ready { IsTrue self.old.ready }
        ensures board { board_of self.new ≡ with_connection (board_of self.old) conn
            (connection_after_unsubscribe channel.now (board_of self.old conn)) }
        ensures count { result ≡ length (without_channel channel.now (board_of self.old conn)) }
    {
        self.ready = false;
        self.touched.add(conn);
        self.subscribers.remove(channel, conn);
        self.slots[conn as usize].leave(channel)
    }

    // Takes the first items of the outbox of an open connection. An error changes nothing.
    fn take_first(&mut self, conn: u32, most: u32) -> Result<Pushes, AllocError>
        requires { IsTrue (is_open (board_of self.old conn)) }
        ensures ok { OnOk result (board_of self.new ≡ with_connection (board_of self.old) conn
            (connection_after_drain most (board_of self.old conn))) }
        ensures items { IfOk result (λ items. items ≡ take most (board_of self.old conn).outbox) }
        ensures err { OnErr result (self.new.connections ≡ self.old.connections) }
    {
        self.ready = false;
        self.touched.add(conn);
        self.slots[conn as usize].drain(self.alloc, most)
    }

    // Sends a message for which all memory was taken.
    fn deliver(&mut self, post: &Post) -> Posted
        requires { IsTrue self.old.ready }
        ensures board { board_of self.new ≡ board_after_post (Some post.now) (board_of self.old) }
        ensures reached { result.reached ≡ reached_by post.now (board_of self.old) }
        ensures dropped { result.dropped ≡ dropped_by post.now (board_of self.old) }
    {
        self.ready = false;
        let listeners = self.subscribers.listeners(&post.channel);
        // nobody else was touched since all memory was taken
        self.touched = listeners;
        let reached = tell_all(&mut self.slots, listeners, post, &mut self.dropping);
        let dropped = take_numbers(self.alloc, &mut self.dropping);
        self.drop_all(dropped.as_slice());
        Posted {
            reached,
            dropped: Conns::of(dropped),
        }
    }

    // Drops these connections.
    fn drop_all(&mut self, conns: &[u32])
        requires { All (λ conn. IsTrue (is_open (board_of self.old conn))) conns.now }
        ensures { board_of self.new ≡ board_after_drops conns.now (board_of self.old) }
    {
        for conn in conns {
            self.drop_out(*conn);
        }
    }

    // Drops an open connection.
    fn drop_out(&mut self, conn: u32)
        requires { IsTrue (is_open (board_of self.old conn)) }
        ensures { board_of self.new ≡ with_connection (board_of self.old) conn
            (dropped_connection (board_of self.old conn)) }
    {
        self.ready = false;
        leave_all(
            &mut self.subscribers,
            self.slots[conn as usize].channels(),
            conn,
        );
        self.slots[conn as usize].drop_out(self.alloc);
    }
}

// The place of a connection when the board is new.
fn first_slot(alloc: Global, conn: u32, last: u32) -> ConnectionSlot
    ensures { result.connection
        ≡ (if nat_le conn last then new_connection 0 else closed_connection) }
{
    let mut slot = ConnectionSlot::closed(alloc);
    if conn <= last {
        slot.open(0);
    }
    slot
}

// Takes channels from a connection.
fn leave_all(subscribers: &mut Subscribers, channels: &[Channel], conn: u32)
    requires { conn < MOST_CONNECTIONS }
    ensures { (q : ChannelOf) → listeners q subscribers.new.by_channel.entries
        ≡ (if list_any (same_channel q) channels.now
        then put ◌==◌ (listeners q subscribers.old.by_channel.entries) conn false
        else listeners q subscribers.old.by_channel.entries) }
{
    for channel in channels {
        subscribers.remove(channel, conn);
    }
}

// Takes the memory of the spare places of these connections, and takes each that has them out of
// the set. An error leaves the others in it.
fn reserve_touched(
    slots: &mut Vec<ConnectionSlot>,
    touched: &mut ConnectionSet,
) -> Result<(), AllocError>
    requires many { vec_len slots.old ≡ connection_limit }
    requires spare { (conn : ℕ) → has_number touched.old conn ≡ false
        → HasSpare (slot_at slots.old.items conn) }
    ensures same { connections_of slots.new.items ≡ connections_of slots.old.items }
    ensures spare { (conn : ℕ) → has_number touched.new conn ≡ false
        → HasSpare (slot_at slots.new.items conn) }
    ensures done { OnOk result (has_number touched.new ≡ (λ _. false)) }
{
    while let Some(conn) = touched.first() {
        slots[conn as usize].reserve()?;
        touched.remove(conn);
    }
    Ok(())
}
