//! The replies that wait for the renewals of a client.
ghost use Rattle.std.specs.Prelude.{◌≡◌, ◌<◌, None, Some, OnOk};
ghost use Rattle.lr_model.specs.Table.{put};
ghost use Rattle.lr_waiting.specs.Watchdog.{same_watch};
ghost use Rattle.lr_clients.specs.Client.{renewed_of};

use indexmap::IndexMap;
use lr_objects::Reply;
use lr_waiting::WatchKey;
use std::alloc::{AllocError, Global};
use std::marker::Model;

/// The replies to renewals that the server has given and that the client hasn't taken yet, by the
/// holds that they are of.
#[derive(Drop)]
pub(crate) struct Renewed {
    replies: IndexMap<WatchKey, Reply>,
}

impl Model for Renewed {
    ghost use Rattle.indexmap.specs.IndexMap.{spare};
    ghost use Rattle.lr_clients.specs.Client.{RenewedValue};

    ghost Value = { RenewedValue };

    ghost view = { λ r. record { rows = r.replies.entries; room = spare r.replies } };
}

impl Renewed {
    /// No reply waits. It takes no memory.
    pub(crate) fn new(alloc: Global) -> Self
        ensures { renewed_of result ≡ (λ key. None) }
    {
        Renewed {
            replies: IndexMap::new(alloc),
        }
    }

    /// The reply that waits for the renewal of a hold.
    pub(crate) fn get(&self, key: &WatchKey) -> Option<Reply>
        ensures { result ≡ renewed_of self.now key.now }
    {
        self.replies.get(key).copied()
    }

    /// Takes the memory that the next reply needs. An error changes nothing.
    pub(crate) fn reserve(&mut self) -> Result<(), AllocError>
        ensures ok { OnOk result (0 < self.new.room) }
        ensures same { renewed_of self.new ≡ renewed_of self.old }
    {
        self.replies.reserve(1)
    }

    /// From now on this reply waits for the renewal of a hold. There is the memory for it.
    pub(crate) fn put(&mut self, key: &WatchKey, reply: Reply)
        requires { 0 < self.old.room }
        ensures { renewed_of self.new
            ≡ put same_watch (renewed_of self.old) key.now (Some reply) }
    {
        let _ = self.replies.insert(*key, reply);
    }

    /// No reply waits for the renewal of a hold any longer.
    pub(crate) fn remove(&mut self, key: &WatchKey)
        ensures { renewed_of self.new ≡ put same_watch (renewed_of self.old) key.now None }
    {
        self.replies.swap_remove(key);
    }

    /// No reply waits any longer. It takes no memory.
    pub(crate) fn clear(&mut self)
        ensures { renewed_of self.new ≡ (λ key. None) }
    {
        self.replies.clear();
    }
}
