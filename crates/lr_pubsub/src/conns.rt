ghost use Rattle.std.specs.Prelude.{◌≡◌, ◌↔◌, [], length, IsTrue};

use std::alloc::Global;
use std::marker::Model;

/// A list of numbers of connections.
#[derive(Drop)]
pub struct Conns {
    numbers: Vec<u32>,
}

impl Model for Conns {
    ghost use Rattle.std.specs.Prelude.{ℕ, List};

    ghost Value = { List ℕ };

    ghost view = { λ c. c.numbers.items };
}

impl Conns {
    /// No numbers. It takes no memory.
    pub fn new(alloc: Global) -> Self
        ensures { result ≡ [] }
    {
        Conns {
            numbers: Vec::new(alloc),
        }
    }

    /// These numbers.
    pub(crate) fn of(numbers: Vec<u32>) -> Self
        ensures { result ≡ numbers.items }
    {
        Conns { numbers }
    }

    /// How many numbers there are.
    pub fn len(&self) -> usize
        ensures { result ≡ length self.now }
    {
        self.numbers.len()
    }

    /// Whether there are none.
    pub fn is_empty(&self) -> bool
        ensures { IsTrue result ↔ (self.now ≡ []) }
    {
        self.numbers.is_empty()
    }

    /// The numbers.
    pub fn as_slice(&self) -> &[u32]
        ensures { result.now ≡ self.now }
    {
        self.numbers.as_slice()
    }

    /// The numbers, as a list. It takes no memory.
    pub fn into_numbers(self) -> Vec<u32>
        ensures { result.items ≡ self }
    {
        self.numbers
    }
}
