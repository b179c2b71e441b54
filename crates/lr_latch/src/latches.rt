ghost use Rattle.std.specs.Prelude.{◌≡◌, ◌≢◌, ◌<◌, ◌≤◌, ◌+◌, true, false, length, IfOk, OnOk, OnErr};
ghost use Rattle.lr_model.specs.Board.{same_channel};
ghost use Rattle.lr_waiting.specs.Latch.{no_latches, no_entry, is_kept, is_subscribed, register_at, register_in, leave_at, acknowledge_at, acknowledge_in, deliver_at, after_check, after_waking, checked_in, woken_in, first_order_of, without_first_order};
ghost use Rattle.lr_model.specs.Table.{put};
ghost use Rattle.lr_latch.specs.Value.{AreEntries, IsEntry, latches_of, entry_in, waiting, orders_due};

use crate::entry;
use crate::orders::Orders;
use indexmap::IndexMap;
use lr_names::{Channel, Due};
use lr_waiting::{Checked, LatchEntry, Order, Woken};
use std::alloc::{AllocError, Global};
use std::marker::Model;

/// The entries of a client by their channels, and the orders that wait for the server. No call
/// touches another channel than its own.
#[derive(Drop)]
pub struct Latches {
    entries: IndexMap<Channel, LatchEntry>,
    orders: Orders,
}

impl Model for Latches {
    ghost use Rattle.lr_latch.specs.Value.{LatchesValue, IsLatches};

    ghost Value = { LatchesValue };

    ghost view = { λ l. record { rows = l.entries.entries; orders = l.orders.list } };

    ghost invariant = { λ l. IsLatches l.entries.entries l.orders };
}

impl Latches {
    /// No thread waits. It takes no memory.
    pub fn new(alloc: Global) -> Self
        ensures { latches_of result ≡ no_latches }
    {
        Latches {
            entries: IndexMap::new(alloc),
            orders: Orders::new(alloc),
        }
    }

    /// The entry of a channel: all zeros where no thread waits and nothing is outstanding.
    pub fn entry(&self, channel: &Channel) -> LatchEntry
        ensures { result ≡ (latches_of self.now).entries channel.now }
    {
        find_entry(&self.entries, channel)
    }

    /// One more thread waits on a channel: says whether its client hears the channel already. The
    /// first one makes an order to subscribe. Room for the order by which the channel will be left
    /// is taken here. An error changes nothing.
    pub fn register(&mut self, channel: &Channel) -> Result<bool, AllocError>
        ensures ok { OnOk result (latches_of self.new
            ≡ register_at channel.now (latches_of self.old)) }
        ensures hears { IfOk result (λ hears. hears
            ≡ is_subscribed (register_in ((latches_of self.old).entries channel.now))) }
        ensures err { OnErr result (self.new ≡ self.old) }
    {
        let before = self.entry(channel);
        // A thread that can't be counted wants memory, as far as the caller is told.
        if before.registered == u64::MAX {
            return Err(AllocError);
        }
        self.orders.reserve(self.entries.len() + 2)?;
        let entry = entry::registered(before);
        add_entry(&mut self.entries, channel, entry)?;
        if before.registered == 0 {
            self.orders.push(order(true, channel));
        }
        Ok(entry::is_subscribed(&entry))
    }

    /// A thread that waits on a channel leaves it. Where a message wakes one, it hands its turn on
    /// to another thread. The last one makes an order to leave the channel. Where no thread waits,
    /// nothing changes. It takes no memory.
    pub fn leave(&mut self, channel: &Channel)
        ensures { latches_of self.new ≡ leave_at channel.now (latches_of self.old) }
    {
        let before = self.entry(channel);
        set_entry(
            &mut self.entries,
            channel,
            entry::left(channel.wakes(), before),
        );
        if before.registered == 1 {
            self.orders.push(order(false, channel));
        }
    }

    /// The server has acknowledged an order to subscribe: says whether the client hears the channel
    /// now. It takes no memory.
    pub fn acked(&mut self, channel: &Channel) -> bool
        ensures latches { latches_of self.new ≡ acknowledge_at channel.now (latches_of self.old) }
        ensures hears { result
            ≡ is_subscribed (acknowledge_in ((latches_of self.old).entries channel.now)) }
    {
        let entry = entry::acknowledged(self.entry(channel));
        set_entry(&mut self.entries, channel, entry);
        entry::is_subscribed(&entry)
    }

    /// A message has come on a channel. It takes no memory.
    pub fn deliver(&mut self, channel: &Channel)
        ensures { latches_of self.new ≡ deliver_at channel.now (latches_of self.old) }
    {
        let entry = entry::delivered(channel.wakes(), self.entry(channel));
        set_entry(&mut self.entries, channel, entry);
    }

    /// How many messages have come that wake all who wait on the channel: 0 without an entry.
    pub fn seen(&self, channel: &Channel) -> u64
        ensures { result ≡ ((latches_of self.now).entries channel.now).broadcast }
    {
        self.entry(channel).broadcast
    }

    /// How many threads may ask once more: 0 without an entry.
    pub fn permits(&self, channel: &Channel) -> u64
        ensures { result ≡ ((latches_of self.now).entries channel.now).permits }
    {
        self.entry(channel).permits
    }

    /// What a thread finds that looks before it sleeps, at this moment in milliseconds. It takes a
    /// permit where there is one. `seen` is how many messages had come when it asked.
    pub fn check(&mut self, channel: &Channel, seen: u64, due: Due, now: u64) -> Checked
        ensures found { result ≡ checked_in ((latches_of self.old).entries channel.now) seen due now }
        ensures latches { latches_of self.new
            ≡ after_check channel.now result (latches_of self.old) }
    {
        let entry = self.entry(channel);
        let found = entry::checked(&entry, seen, due, now);
        if matches!(found, Checked::Permit) {
            set_entry(&mut self.entries, channel, entry::permit_taken(entry));
        }
        found
    }

    /// What a sleeping thread finds. It takes a permit where there is one.
    pub fn wake(&mut self, channel: &Channel, seen: u64) -> Woken
        ensures found { result ≡ woken_in ((latches_of self.old).entries channel.now) seen }
        ensures latches { latches_of self.new
            ≡ after_waking channel.now result (latches_of self.old) }
    {
        let entry = self.entry(channel);
        let found = entry::woken(&entry, seen);
        if matches!(found, Woken::Permit) {
            set_entry(&mut self.entries, channel, entry::permit_taken(entry));
        }
        found
    }

    /// The oldest order, which stays.
    pub fn first_order(&self) -> Option<Order>
        ensures { result ≡ first_order_of (latches_of self.now) }
    {
        self.orders.first()
    }

    /// Takes the oldest order.
    pub fn next_order(&mut self) -> Option<Order>
        ensures first { result ≡ first_order_of (latches_of self.old) }
        ensures rest { latches_of self.new ≡ without_first_order (latches_of self.old) }
    {
        self.orders.pop()
    }
}

// An order of a client.
fn order(subscribe: bool, channel: &Channel) -> Order
    ensures subscribe { result.subscribe ≡ subscribe }
    ensures channel { result.channel ≡ channel.now }
{
    Order {
        subscribe,
        channel: *channel,
    }
}

// The entry of a channel.
fn find_entry(entries: &IndexMap<Channel, LatchEntry>, channel: &Channel) -> LatchEntry
    ensures { result ≡ entry_in entries.now.entries channel.now }
{
    match entries.get(channel) {
        Some(entry) => *entry,
        None => entry::no_entry(),
    }
}

// Puts an entry at a channel. An error changes nothing.
fn add_entry(
    entries: &mut IndexMap<Channel, LatchEntry>,
    channel: &Channel,
    entry: LatchEntry,
) -> Result<(), AllocError>
    ensures at { OnOk result (entry_in entries.new.entries
        ≡ put same_channel (entry_in entries.old.entries) channel.now entry) }
    ensures waiting { OnOk result (waiting entries.new.entries
        + orders_due (entry_in entries.old.entries channel.now)
        ≡ waiting entries.old.entries + orders_due entry) }
    ensures valid { OnOk result (IsEntry entry → AreEntries entries.old.entries
        → AreEntries entries.new.entries) }
    ensures few { OnOk result (waiting entries.old.entries ≤ length entries.old.entries) }
    ensures err { OnErr result (entries.new.entries ≡ entries.old.entries) }
{
    entries.insert(*channel, entry)?;
    Ok(())
}

// Puts an entry at a channel that has one, or takes it away where it isn't needed any longer.
fn set_entry(entries: &mut IndexMap<Channel, LatchEntry>, channel: &Channel, entry: LatchEntry)
    requires entry { IsEntry entry }
    requires stored { is_kept entry ≡ true
        → entry_in entries.old.entries channel.now ≢ no_entry }
    ensures at { entry_in entries.new.entries
        ≡ put same_channel (entry_in entries.old.entries) channel.now entry }
    ensures waiting { waiting entries.new.entries
        + orders_due (entry_in entries.old.entries channel.now)
        ≡ waiting entries.old.entries + orders_due entry }
    ensures valid { AreEntries entries.old.entries → AreEntries entries.new.entries }
{
    if entry::is_kept(&entry) {
        let _ = entries.insert(*channel, entry);
    } else {
        entries.swap_remove(channel);
    }
}
