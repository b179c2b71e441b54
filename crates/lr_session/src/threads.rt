ghost use Rattle.std.specs.Prelude.{◌≡◌, ◌↔◌, [], length, IsTrue};

use std::alloc::Global;
use std::marker::Model;

/// A list of numbers of threads.
#[derive(Drop)]
pub struct Threads {
    numbers: Vec<u32>,
}

impl Model for Threads {
    ghost use Rattle.std.specs.Prelude.{ℕ, List};

    ghost Value = { List ℕ };

    ghost view = { λ t. t.numbers.items };
}

impl Threads {
    /// No numbers. It takes no memory.
    pub fn new(alloc: Global) -> Self
        ensures { result ≡ [] }
    {
        Threads {
            numbers: Vec::new(alloc),
        }
    }

    /// These numbers.
    pub(crate) fn of(numbers: Vec<u32>) -> Self
        ensures { result ≡ numbers.items }
    {
        Threads { numbers }
    }

    /// How many numbers there are.
    pub fn len(&self) -> usize
        ensures { result ≡ length self.now }
    {
        self.numbers.len()
    }

    /// Whether there are none.
    pub fn is_empty(&self) -> bool
        ensures { IsTrue result ↔ (self.now ≡ []) }
    {
        self.numbers.is_empty()
    }

    /// The numbers.
    pub fn as_slice(&self) -> &[u32]
        ensures { result.now ≡ self.now }
    {
        self.numbers.as_slice()
    }
}
