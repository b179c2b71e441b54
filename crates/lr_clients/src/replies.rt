//! The replies that wait for the threads of a client.
ghost use Rattle.std.specs.Prelude.{◌≡◌, ◌==◌, IfOk, None};
ghost use Rattle.lr_names.specs.Owner.{IsThread};
ghost use Rattle.lr_model.specs.Table.{put};
ghost use Rattle.lr_clients.specs.Client.{replies_of};

use lr_limits::MOST_THREADS;
use lr_objects::Reply;
use std::alloc::{AllocError, Global};
use std::marker::Model;

/// A place for the reply to each thread of a client, so that no reply takes memory.
#[derive(Drop)]
pub(crate) struct Replies {
    places: Vec<Option<Reply>>,
}

impl Model for Replies {
    ghost use Rattle.std.specs.Prelude.{◌≡◌, List, Option, length};
    ghost use Rattle.lr_limits.specs.Limits.{thread_limit};
    ghost use Rattle.lr_objects.specs.declared.reply.Reply.{Reply};

    ghost Value = { List (Option Reply) };

    ghost view = { λ r. r.places.items };

    ghost invariant = { λ r. length r.places.items ≡ thread_limit };
}

impl Replies {
    /// No reply waits.
    pub(crate) fn new(alloc: Global) -> Result<Self, AllocError>
        ensures { IfOk result (λ r. replies_of r ≡ (λ thread. None)) }
    {
        let mut places = Vec::new(alloc);
        places.resize(MOST_THREADS as usize, None)?;
        Ok(Replies { places })
    }

    /// The reply that waits for a thread.
    pub(crate) fn get(&self, thread: u32) -> Option<Reply>
        requires { IsThread thread }
        ensures { result ≡ replies_of self.now thread }
    {
        self.places[(thread - 1) as usize]
    }

    /// From now on this reply waits for a thread, or none.
    pub(crate) fn set(&mut self, thread: u32, reply: Option<Reply>)
        requires { IsThread thread }
        ensures { replies_of self.new ≡ put ◌==◌ (replies_of self.old) thread reply }
    {
        self.places[(thread - 1) as usize] = reply;
    }

    /// No reply waits any longer.
    pub(crate) fn clear(&mut self)
        ensures { replies_of self.new ≡ (λ thread. None) }
    {
        // It has had this room since it was made.
        self.places.clear();
        self.places.resize(MOST_THREADS as usize, None).unwrap();
    }
}
