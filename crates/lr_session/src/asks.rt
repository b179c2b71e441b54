ghost use Rattle.std.specs.Prelude.{◌≡◌, ◌≤◌, ◌↔◌, [], length, vec_capacity, IsTrue, OnOk, OnErr};

use lr_waiting::Ask;
use std::alloc::{AllocError, Global};
use std::marker::Model;
use std::mem;

/// A list of tickets.
#[derive(Drop)]
pub struct Asks {
    asks: Vec<Ask>,
}

impl Model for Asks {
    ghost use Rattle.std.specs.Prelude.{List};
    ghost use Rattle.lr_waiting.specs.declared.waiter.Ask.{Ask};

    ghost Value = { List Ask };

    ghost view = { λ a. a.asks.items };
}

impl Asks {
    /// No tickets. It takes no memory.
    pub fn new(alloc: Global) -> Self
        ensures { result ≡ [] }
    {
        Asks {
            asks: Vec::new(alloc),
        }
    }

    /// These tickets.
    pub(crate) fn of(asks: Vec<Ask>) -> Self
        ensures { result ≡ asks.items }
    {
        Asks { asks }
    }

    /// How many tickets there are.
    pub fn len(&self) -> usize
        ensures { result ≡ length self.now }
    {
        self.asks.len()
    }

    /// Whether there are none.
    pub fn is_empty(&self) -> bool
        ensures { IsTrue result ↔ (self.now ≡ []) }
    {
        self.asks.is_empty()
    }

    /// The tickets.
    pub fn as_slice(&self) -> &[Ask]
        ensures { result.now ≡ self.now }
    {
        self.asks.as_slice()
    }
}

/// Memory for tickets that nobody has yet.
#[derive(Drop)]
pub(crate) struct SpareAsks {
    asks: Vec<Ask>,
}

impl Model for SpareAsks {
    ghost use Rattle.std.specs.Prelude.{◌≡◌, ℕ, [], vec_capacity};

    ghost Value = { ℕ };

    ghost view = { λ s. vec_capacity s.asks };

    ghost invariant = { λ s. s.asks.items ≡ [] };
}

impl SpareAsks {
    /// No memory.
    pub(crate) fn new(alloc: Global) -> Self
        ensures { result ≡ 0 }
    {
        SpareAsks {
            asks: Vec::new(alloc),
        }
    }

    /// Takes memory for so many tickets. An error changes nothing.
    pub(crate) fn reserve(&mut self, tickets: usize) -> Result<(), AllocError>
        ensures ok { OnOk result (tickets ≤ self.new) }
        ensures enough { tickets ≤ self.old → result ≡ Ok tt }
        ensures err { OnErr result (self.new ≡ self.old) }
    {
        if self.asks.capacity() < tickets {
            self.asks.reserve(tickets)?;
        }
        Ok(())
    }

    /// Takes a list without tickets, with the memory that there is.
    pub(crate) fn take(&mut self) -> Vec<Ask>
        ensures none { result.items ≡ [] }
        ensures room { self.old ≤ vec_capacity result }
    {
        let alloc = *self.asks.allocator();
        mem::replace(&mut self.asks, Vec::new(alloc))
    }
}
