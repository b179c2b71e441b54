ghost use Rattle.std.specs.Prelude.{◌≡◌, ◌≤◌, ◌<◌, ◌+◌, [], ◌∷◌, ◌++◌, drop, slice_get, OnOk, OnErr};

use lr_waiting::Order;
use std::alloc::{AllocError, Global};
use std::collections::VecDeque;
use std::marker::Model;

/// What a client has still to tell the server, the oldest first.
#[derive(Drop)]
pub(crate) struct Orders {
    orders: VecDeque<Order>,
}

impl Model for Orders {
    ghost use Rattle.std.specs.Prelude.{◌-◌};
    ghost use Rattle.std.specs.VecDeque.{deque_len, deque_capacity};
    ghost use Rattle.lr_latch.specs.Value.{OrdersValue};

    ghost Value = { OrdersValue };

    ghost view = { λ o. record {
      list = o.orders.items;
      room = deque_capacity o.orders - deque_len o.orders;
    } };
}

impl Orders {
    /// No orders. It takes no memory.
    pub(crate) fn new(alloc: Global) -> Self
        ensures { result.list ≡ [] }
    {
        Orders {
            orders: VecDeque::new(alloc),
        }
    }

    /// Makes room for so many more orders. The orders stay.
    pub(crate) fn reserve(&mut self, more: usize) -> Result<(), AllocError>
        ensures list { self.new.list ≡ self.old.list }
        ensures ok { OnOk result (more ≤ self.new.room) }
        ensures room { self.old.room ≤ self.new.room }
    {
        self.orders.reserve(more)
    }

    /// Appends an order, for which there is room. It takes no memory.
    pub(crate) fn push(&mut self, order: Order)
        requires { 0 < self.old.room }
        ensures list { self.new.list ≡ self.old.list ++ order ∷ [] }
        ensures room { self.old.room ≤ self.new.room + 1 }
    {
        self.orders.push_back(order).unwrap();
    }

    /// The oldest order.
    pub(crate) fn first(&self) -> Option<Order>
        ensures { result ≡ slice_get self.now.list 0 }
    {
        self.orders.front().copied()
    }

    /// Takes the oldest order.
    pub(crate) fn pop(&mut self) -> Option<Order>
        ensures first { result ≡ slice_get self.old.list 0 }
        ensures rest { self.new.list ≡ drop 1 self.old.list }
        ensures room { self.old.room ≤ self.new.room }
    {
        self.orders.pop_front()
    }
}
