// A source in memory, whose reads fail where they are told to.
ghost use Rattle.std.specs.Prelude.{◌≡◌, ◌<◌, ◌↔◌, [], Some, length};
ghost use Rattle.lr_outside.specs.Turns.{ReadsFront, is_failed_read, next_count, CountsFaults};
ghost use Rattle.lr_outside.specs.MemSource.{all_bytes, unread_bytes, pieces_with_bytes, unread_pieces, read_faults, reads_made, failing_reads, IsNextReadListed, GivesPiece};

use crate::{ReadTurn, Source};

/// Pieces of bytes to be read. A read gives the rest of the current piece, or as much of it as the
/// buffer holds. A piece with no bytes is passed over.
#[derive(Drop)]
pub struct MemSource<'a> {
    piece: &'a [u8],
    later: &'a [&'a [u8]],
    failing: &'a [u64],
    calls: u64,
    faults: u64,
}

impl<'a> MemSource<'a> {
    /// A source of these pieces, whose reads of the numbers in `failing`, counted from 1, fail.
    pub fn new(pieces: &'a [&'a [u8]], failing: &'a [u64]) -> Self
        ensures left { unread_bytes result ≡ all_bytes pieces.now }
        ensures pieces { unread_pieces result ≡ pieces_with_bytes pieces.now }
        ensures faults { read_faults result ≡ 0 }
        ensures made { reads_made result ≡ 0 }
        ensures failing { failing_reads result ≡ failing.now }
    {
        MemSource {
            piece: &[],
            later: pieces,
            failing,
            calls: 0,
            faults: 0,
        }
    }

    // Goes on to the first piece that has a byte left, if there is one.
    fn pass_over(&mut self)
        ensures left { unread_bytes self.new ≡ unread_bytes self.old }
        ensures pieces { unread_pieces self.new ≡ unread_pieces self.old }
        ensures end { self.new.piece.now ≡ [] → self.new.later.now ≡ [] }
        ensures faults { self.new.faults ≡ self.old.faults }
        ensures calls { self.new.calls ≡ self.old.calls }
        ensures failing { self.new.failing.now ≡ self.old.failing.now }
    {
        while self.piece.is_empty() {
            if self.later.is_empty() {
                return;
            }
            self.piece = self.later[0];
            self.later = &self.later[1..];
        }
    }
}

impl Source for MemSource<'_> {
    ghost left = { λ s. Some (unread_bytes s) };

    ghost faults = { read_faults };

    fn read(&mut self, buffer: &mut [u8]) -> ReadTurn
        requires { 0 < length buffer.old }
        ensures bytes { ReadsFront (Some (unread_bytes self.old)) (Some (unread_bytes self.new))
            buffer.new result }
        ensures counts { CountsFaults (read_faults self.old) (read_faults self.new)
            (is_failed_read result) }

        // Beyond what each source keeps: which reads fail, and how much the others give.
        ensures listed { (result ≡ ReadTurn.Failed) ↔ IsNextReadListed self.old }
        ensures piece { GivesPiece (unread_pieces self.old) (unread_pieces self.new)
            (length buffer.old) result }
        ensures made { reads_made self.new ≡ next_count (reads_made self.old) }
        ensures failing { failing_reads self.new ≡ failing_reads self.old }
    {
        self.calls = self.calls.saturating_add(1);
        if self.failing.contains(&self.calls) {
            self.faults = self.faults.saturating_add(1);
            return ReadTurn::Failed;
        }
        self.pass_over();
        if self.piece.is_empty() {
            return ReadTurn::End;
        }
        let count = self.piece.len().min(buffer.len());
        let (front, rest) = self.piece.split_at(count);
        buffer[..count].copy_from_slice(front);
        self.piece = rest;
        ReadTurn::Got(count)
    }
}
