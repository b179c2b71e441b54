ghost use Rattle.std.specs.Prelude.{◌≡◌, ◌<◌, ◌≤◌, [], ◌∷◌, ◌++◌, length, slice_get, IfOk};

use crate::SEGMENT_ENTRIES;
use lr_model::Entry;
use std::alloc::{AllocError, Global};
use std::marker::Model;

/// A part of a history. The memory for all its entries is taken when it is made, so that they never
/// move.
#[derive(Drop)]
pub struct Segment {
    entries: Vec<Entry>,
}

impl Model for Segment {
    ghost use Rattle.std.specs.Prelude.{◌≡◌, List, vec_capacity};
    ghost use Rattle.lr_model.specs.declared.entry.Entry.{Entry};
    ghost use Rattle.lr_history.specs.declared.TheConstants.{SEGMENT_ENTRIES};

    ghost Value = { List Entry };

    ghost view = { λ s. s.entries.items };

    ghost invariant = { λ s. vec_capacity s.entries ≡ SEGMENT_ENTRIES };
}

impl Segment {
    /// A segment with room for its entries, and none yet.
    pub fn new(alloc: Global) -> Result<Self, AllocError>
        ensures { IfOk result (λ segment. segment ≡ []) }
    {
        Ok(Segment {
            entries: Vec::with_capacity(alloc, SEGMENT_ENTRIES)?,
        })
    }

    /// Appends an entry. It takes no memory.
    pub fn push(&mut self, entry: Entry)
        requires { length self.old < SEGMENT_ENTRIES }
        ensures { self.new ≡ self.old ++ entry ∷ [] }
    {
        self.entries.push_reserved(entry);
    }

    /// How many entries there are.
    pub fn len(&self) -> usize
        ensures value { result ≡ length self.now }
        ensures fits { length self.now ≤ SEGMENT_ENTRIES }
    {
        self.entries.len()
    }

    /// The entry at this place, counted from 0: `None` past the end.
    pub fn get(&self, index: usize) -> Option<Entry>
        ensures { result ≡ slice_get self.now index }
    {
        self.entries.get(index).copied()
    }

    /// The entries.
    pub fn as_slice(&self) -> &[Entry]
        ensures { result.now ≡ self.now }
    {
        self.entries.as_slice()
    }
}
