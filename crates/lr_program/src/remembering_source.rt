// A source that remembers what it gave last.
ghost use Rattle.std.specs.Prelude.{◌≡◌, ℕ, ◌-◌, ◌<◌, List, [], ◌++◌, length, slice_get, IfSome, Some};
ghost use Rattle.lr_outside.specs.Turns.{ReadsFront, is_failed_read, CountsFaults};
ghost use Rattle.lr_program.specs.Recent.{pieces_of};
ghost use Rattle.lr_program.specs.Remembering.{source_of, recent_of, Remembers, bytes_given};

use crate::recent_bytes::RecentBytes;
use lr_outside::{ReadTurn, Source};
use std::alloc::Global;

/// A source that hands each read on to another one, and remembers the last bytes that were read, so
/// that a line can be shown after it was read. It takes all memory for that when it is made. Where
/// there is none it remembers nothing.
#[derive(Drop)]
pub struct RememberingSource<S> {
    source: S,
    recent: Option<RecentBytes>,
}

impl<S: Source> RememberingSource<S> {
    /// The source, of which nothing was read yet.
    pub fn new(alloc: Global, source: S) -> Self
        ensures source { source_of result ≡ source }
        ensures remembers { Remembers [] (recent_of result) }
    {
        RememberingSource {
            source,
            recent: RecentBytes::new(alloc).ok(),
        }
    }

    /// The line of this number, counted from 1, or what was read of it: `None` where it isn't
    /// remembered.
    pub fn line(&self, number: u64) -> Option<&[u8]>
        ensures { (text : List ℕ) → Remembers text (recent_of self.now)
            → IfSome result (λ line. slice_get (pieces_of text) (number - 1) ≡ Some line.now) }
    {
        match &self.recent {
            Some(recent) => recent.line(number),
            None => None,
        }
    }

    // Takes up what was read.
    fn remember(&mut self, piece: &[u8])
        ensures source { source_of self.new ≡ source_of self.old }
        ensures remembers { (text : List ℕ) → Remembers text (recent_of self.old)
            → Remembers (text ++ piece.now) (recent_of self.new) }
    {
        if let Some(recent) = &mut self.recent {
            recent.remember(piece);
        }
    }
}

impl<S: Source> Source for RememberingSource<S> {
    ghost left = { λ s. S.left (source_of s) };

    ghost faults = { λ s. S.faults (source_of s) };

    fn read(&mut self, buffer: &mut [u8]) -> ReadTurn
        requires { 0 < length buffer.old }
        ensures bytes { ReadsFront (S.left (source_of self.old)) (S.left (source_of self.new))
            buffer.new result }
        ensures counts { CountsFaults (S.faults (source_of self.old))
            (S.faults (source_of self.new)) (is_failed_read result) }

        // Beyond what each source keeps: it remembers what it gave.
        ensures remembers { (text : List ℕ) → Remembers text (recent_of self.old)
            → Remembers (text ++ bytes_given buffer.new result) (recent_of self.new) }
    {
        let turn = self.source.read(buffer);
        if let ReadTurn::Got(count) = turn {
            self.remember(&buffer[..count]);
        }
        turn
    }
}
