ghost use Rattle.std.specs.Prelude.{◌≡◌, ◌↔◌, [], length, IsTrue};

use lr_names::Push;
use std::alloc::Global;
use std::marker::Model;

/// What was taken from an outbox, the oldest first.
#[derive(Drop)]
pub struct Pushes {
    pushes: Vec<Push>,
}

impl Model for Pushes {
    ghost use Rattle.std.specs.Prelude.{List};
    ghost use Rattle.lr_names.specs.declared.post.Push.{Push};

    ghost Value = { List Push };

    ghost view = { λ p. p.pushes.items };
}

impl Pushes {
    /// Nothing. It takes no memory.
    pub fn new(alloc: Global) -> Self
        ensures { result ≡ [] }
    {
        Pushes {
            pushes: Vec::new(alloc),
        }
    }

    /// These items.
    pub(crate) fn of(pushes: Vec<Push>) -> Self
        ensures { result ≡ pushes.items }
    {
        Pushes { pushes }
    }

    /// How many items there are.
    pub fn len(&self) -> usize
        ensures { result ≡ length self.now }
    {
        self.pushes.len()
    }

    /// Whether there is nothing.
    pub fn is_empty(&self) -> bool
        ensures { IsTrue result ↔ (self.now ≡ []) }
    {
        self.pushes.is_empty()
    }

    /// The items.
    pub fn as_slice(&self) -> &[Push]
        ensures { result.now ≡ self.now }
    {
        self.pushes.as_slice()
    }
}
