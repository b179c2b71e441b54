// A fixed buffer, of which the part that is kept lies between two places.
ghost use Rattle.std.specs.Prelude.{◌≡◌, ◌+◌, ◌<◌, ◌≤◌, [], IfOk, length, drop, vec_len};
ghost use Rattle.lr_limits.specs.Limits.{line_limit};
ghost use Rattle.lr_outside.specs.Turns.{is_failed_read, CountsFaults};

use crate::{ReadTurn, Source};
use std::alloc::{AllocError, Global};

/// How many bytes a window has room for.
const WINDOW_BYTES: usize = 8192;

#[derive(Drop)]
pub struct Window {
    buffer: Vec<u8>,
    start: usize,
    end: usize,
    ghost in_order: { start ≤ end },
    ghost in_buffer: { end ≤ vec_len buffer },
    ghost has_room: { line_limit < vec_len buffer },
}

impl Window {
    ghost use Rattle.lr_outside.specs.Window.{kept_bytes, Fills};

    pub fn new(alloc: Global) -> Result<Self, AllocError>
        ensures { IfOk result (λ w. kept_bytes w ≡ []) }
    {
        Ok(Window {
            buffer: vec![in alloc; 0; WINDOW_BYTES]?,
            start: 0,
            end: 0,
        })
    }

    /// The bytes that are kept.
    pub fn kept_bytes(&self) -> &[u8]
        ensures { result.now ≡ kept_bytes self.now }
    {
        &self.buffer[self.start..self.end]
    }

    /// Lets the first bytes go.
    pub fn drop_front(&mut self, count: usize)
        requires { count ≤ length (kept_bytes self.old) }
        ensures { kept_bytes self.new ≡ drop count (kept_bytes self.old) }
    {
        self.start += count;
    }

    // Moves what is kept to the front, once nothing more fits behind it or there is nothing to
    // move.
    fn make_room(&mut self)
        requires { length (kept_bytes self.old) ≤ line_limit }
        ensures kept { kept_bytes self.new ≡ kept_bytes self.old }
        ensures room { self.new.end < vec_len self.new.buffer }
    {
        if self.start == self.end || self.end == self.buffer.len() {
            self.buffer.copy_within(self.start..self.end, 0);
            self.end -= self.start;
            self.start = 0;
        }
    }

    /// Reads once, and keeps what came behind what is kept.
    pub fn fill<S: Source>(&mut self, source: &mut S) -> ReadTurn
        requires { length (kept_bytes self.old) ≤ line_limit }
        ensures bytes { Fills (kept_bytes self.old) (kept_bytes self.new)
            (S.left source.old) (S.left source.new) result }
        ensures counts { CountsFaults (S.faults source.old) (S.faults source.new)
            (is_failed_read result) }
    {
        self.make_room();
        let turn = source.read(&mut self.buffer[self.end..]);
        match turn {
            ReadTurn::Got(count) => {
                self.end += count;
                turn
            }
            ReadTurn::End => turn,
            ReadTurn::Failed => turn,
        }
    }
}
