ghost use Rattle.std.specs.Prelude.{◌≡◌, ◌-◌, ◌<◌, [], ◌∷◌, ◌++◌, IfOk};
ghost use Rattle.lr_resp.specs.Spelling.{spelling};
ghost use Rattle.lr_resp.specs.Scan.{close};
ghost use Rattle.lr_resp.specs.Steps.{Closes};

use crate::frame::{Frame, Frames};
use std::alloc::{AllocError, Global};
use std::marker::Model;

/// An array of which items are still to come, with room for them.
#[derive(Drop)]
pub struct OpenArray {
    left: usize,
    items: Vec<Frame>,
}

impl Model for OpenArray {
    ghost use Rattle.lr_resp.specs.Opened.{Opened};

    ghost Value = { Opened };

    ghost use Rattle.std.specs.Prelude.{◌+◌, ◌<◌, ◌≤◌, map, vec_len, vec_capacity};
    ghost use Rattle.lr_resp.specs.Spelling.{spelling};

    ghost view = { λ o. record { left = o.left; items = map spelling o.items.items } };

    ghost invariant = { λ o. (0 < o.left) × (o.left + vec_len o.items ≤ vec_capacity o.items) };
}

impl OpenArray {
    /// An array of so many items, none of which has come. The room for them is taken here.
    pub fn new(alloc: Global, left: usize) -> Result<OpenArray, AllocError>
        requires { 0 < left }
        ensures { IfOk result (λ o. o ≡ record { left = left; items = [] }) }
    {
        Ok(OpenArray {
            left,
            items: Vec::with_capacity(alloc, left)?,
        })
    }

    /// How many items are still to come.
    pub fn left(&self) -> usize
        ensures value { result ≡ self.now.left }
        ensures some { 0 < result }
    {
        self.left
    }

    /// Adds the next item, which isn't the last.
    pub fn add(&mut self, frame: Frame)
        requires { 1 < self.old.left }
        ensures { self.new
            ≡ record { left = self.old.left - 1; items = self.old.items ++ spelling frame ∷ [] } }
    {
        self.items.push_reserved(frame);
        self.left -= 1;
    }

    /// The items, with the last one.
    pub fn finish(self, frame: Frame) -> Frames
        ensures { result ≡ self.items ++ spelling frame ∷ [] }
    {
        let mut items = self.items;
        items.push_reserved(frame);
        Frames::of(items)
    }
}

/// Adds a whole frame to the innermost open array, which stands first; an array that is whole by
/// that is added to the next one. Gives the frame that is whole where no array is open any more.
pub fn close_arrays(arrays: &mut Vec<OpenArray>, frame: Frame) -> Option<Frame>
    ensures { Closes (close arrays.old.items frame) result arrays.new.items }
{
    if arrays.is_empty() {
        return Some(frame);
    }
    if arrays[0].left() != 1 {
        arrays[0].add(frame);
        return None;
    }
    let full = arrays.remove(0);
    close_arrays(arrays, Frame::Array(full.finish(frame)))
}
