//! The requests of a client's threads.
ghost use Rattle.std.specs.Prelude.{◌≡◌, ◌==◌, [], Some, None, IsSome, IfSome, OnOk, OnErr};
ghost use Rattle.lr_model.specs.Table.{put};
ghost use Rattle.lr_session.specs.Value.{AreRequests, IsRequest, waiter_of};

use indexmap::IndexMap;
use lr_waiting::Waiter;
use std::alloc::{AllocError, Global};
use std::marker::Model;

/// The requests that threads have begun and not ended, at most one of each thread. Each call takes
/// the same time, however many there are.
#[derive(Drop)]
pub(crate) struct Waiters {
    by_thread: IndexMap<u32, Waiter>,
}

impl Model for Waiters {
    ghost use Rattle.std.specs.Prelude.{ℕ, List};
    ghost use Rattle.lr_waiting.specs.declared.waiter.Waiter.{Waiter};
    ghost use Rattle.lr_session.specs.Value.{AreRequests};

    ghost Value = { List (ℕ × Waiter) };

    ghost view = { λ w. w.by_thread.entries };

    ghost invariant = { λ w. AreRequests w.by_thread.entries };
}

impl Waiters {
    /// No thread has a request. It takes no memory.
    pub(crate) fn new(alloc: Global) -> Self
        ensures { result ≡ [] }
    {
        Waiters {
            by_thread: IndexMap::new(alloc),
        }
    }

    /// The request of a thread.
    pub(crate) fn get(&self, thread: u32) -> Option<Waiter>
        ensures value { result ≡ waiter_of self.now thread }
        ensures request { IfSome result (IsRequest thread) }
    {
        self.by_thread.get(&thread).copied()
    }

    /// Begins a request of a thread. An error changes nothing.
    pub(crate) fn add(&mut self, thread: u32, waiter: Waiter) -> Result<(), AllocError>
        requires { IsRequest thread waiter }
        ensures added { OnOk result (waiter_of self.new
            ≡ put ◌==◌ (waiter_of self.old) thread (Some waiter)) }
        ensures err { OnErr result (self.new ≡ self.old) }
    {
        self.by_thread.insert(thread, waiter)?;
        Ok(())
    }

    /// Changes the request of a thread that has one.
    pub(crate) fn set(&mut self, thread: u32, waiter: Waiter)
        requires request { IsRequest thread waiter }
        requires begun { IsSome (waiter_of self.old thread) }
        ensures { waiter_of self.new ≡ put ◌==◌ (waiter_of self.old) thread (Some waiter) }
    {
        *self.by_thread.get_mut(&thread).unwrap() = waiter;
    }

    /// Ends the request of a thread.
    pub(crate) fn end(&mut self, thread: u32)
        ensures { waiter_of self.new ≡ put ◌==◌ (waiter_of self.old) thread None }
    {
        let _ = self.by_thread.swap_remove(&thread);
    }

    // What the type says of its requests.
    pub(crate) fn check(&self)
        ensures { AreRequests self.now }
    {
        let _ = &self.by_thread;
    }
}
