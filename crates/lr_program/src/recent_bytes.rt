// The last bytes that were read, and which lines they are of.
ghost use Rattle.std.specs.Prelude.{◌≡◌, ◌⊎◌, ℕ, ◌+◌, ◌-◌, ◌^◌, ◌≤◌, min, List, [], ◌∷◌, ◌++◌, length, take, drop, slice_get, IsNone, IfOk, IfSome, Some, vec_len};
ghost use Rattle.std.specs.Option.{option_copied};
ghost use Rattle.lr_program.specs.Recent.{Recent, IsRecentOf, line_ends, pieces_of, least_kept};

use std::alloc::{AllocError, Global};
use std::marker::Model;

/// The byte that ends a line.
const LF: u8 = b'\n';

/// How many of the bytes that were read are kept at least: twice what a reader of lines keeps, so
/// that the line that it gave last is among them.
const LEAST_KEPT: usize = 16_384;

/// How many bytes there is room for.
const ROOM: usize = 32_768;

/// The last bytes that were read, and how many lines ended before them. It takes all its memory
/// when it is made.
#[derive(Drop)]
pub struct RecentBytes {
    buffer: Vec<u8>,
    len: usize,
    passed: u64,
    ghost within: { len ≤ vec_len buffer },
    ghost size: { vec_len buffer ≡ 32768 },
}

impl Model for RecentBytes {
    ghost use Rattle.std.specs.Prelude.{take};
    ghost use Rattle.lr_program.specs.Recent.{Recent};

    ghost Value = { Recent };

    ghost view = { λ r. record { bytes = take r.len r.buffer.items; passed = r.passed } };
}

// How many lines end in these bytes.
fn count_line_ends(bytes: &[u8]) -> u64
    ensures { result ≡ line_ends bytes.now }
{
    bytes.iter().filter(|byte| **byte == LF).count() as u64
}

impl RecentBytes {
    /// Before anything was read.
    pub fn new(alloc: Global) -> Result<Self, AllocError>
        ensures { IfOk result (IsRecentOf []) }
    {
        let mut recent = RecentBytes {
            buffer: vec![in alloc; 0; ROOM]?,
            len: 0,
            passed: 0,
        };
        // So each line begins behind an LF, the first one too.
        recent.push(&[LF]);
        Ok(recent)
    }

    // Puts a piece behind the bytes that are kept.
    fn push(&mut self, piece: &[u8])
        requires { length self.old.bytes + length piece.now ≤ 32768 }
        ensures bytes { self.new.bytes ≡ self.old.bytes ++ piece.now }
        ensures passed { self.new.passed ≡ self.old.passed }
    {
        let end = self.len + piece.len();
        self.buffer[self.len..end].copy_from_slice(piece);
        self.len = end;
    }

    // Lets the first bytes go.
    fn drop_front(&mut self, count: usize)
        requires { count ≤ length self.old.bytes }
        ensures bytes { self.new.bytes ≡ drop count self.old.bytes }
        ensures passed { self.new.passed ≡ self.old.passed }
    {
        self.buffer.copy_within(count..self.len, 0);
        self.len -= count;
    }

    // Counts the lines that end in the first bytes, as they are let go next.
    fn pass_over(&mut self, count: usize)
        requires { count ≤ length self.old.bytes }
        ensures bytes { self.new.bytes ≡ self.old.bytes }
        ensures passed { self.new.passed
            ≡ min (self.old.passed + line_ends (take count self.old.bytes)) (2 ^ 64 - 1) }
    {
        let ends = count_line_ends(&self.kept()[..count]);
        self.passed = self.passed.saturating_add(ends);
    }

    // Lets all but the last bytes go, where that is needed to have room for so many.
    fn make_room(&mut self, count: usize)
        requires { count ≤ least_kept }
        ensures same { (text : List ℕ) → IsRecentOf text self.old → IsRecentOf text self.new }
        ensures room { length self.new.bytes + count ≤ 32768 }
    {
        let len = self.kept().len();
        if ROOM - len < count {
            self.pass_over(len - LEAST_KEPT);
            self.drop_front(len - LEAST_KEPT);
        }
    }

    // Takes up a piece that isn't too long.
    fn append(&mut self, piece: &[u8])
        requires { length piece.now ≤ least_kept }
        ensures { (text : List ℕ) → IsRecentOf text self.old
            → IsRecentOf (text ++ piece.now) self.new }
    {
        self.make_room(piece.len());
        self.push(piece);
    }

    /// Takes up what was read next.
    pub fn remember(&mut self, piece: &[u8])
        ensures { (text : List ℕ) → IsRecentOf text self.old
            → IsRecentOf (text ++ piece.now) self.new }
    {
        let mut rest = piece;
        while !rest.is_empty() {
            let (front, later) = rest.split_at(rest.len().min(LEAST_KEPT));
            self.append(front);
            rest = later;
        }
    }

    // The bytes that are kept.
    fn kept(&self) -> &[u8]
        ensures bytes { result.now ≡ self.now.bytes }
        ensures within { length result.now ≤ 32768 }
    {
        &self.buffer[..self.len]
    }

    /// The line of this number, counted from 1, or what was read of it. `None` where it isn't
    /// remembered, and where nothing was read of it.
    pub fn line(&self, number: u64) -> Option<&[u8]>
        ensures right { (text : List ℕ) → IsRecentOf text self.now
            → IfSome result (λ line. slice_get (pieces_of text) (number - 1) ≡ Some line.now) }
        ensures none { IsNone result
            → (number ≤ self.now.passed)
            ⊎ (length (pieces_of self.now.bytes) ≤ number - self.now.passed) }
    {
        if number <= self.passed {
            return None;
        }
        piece_at(self.kept(), number - self.passed)
    }
}

// What stands behind so many LFs, up to the next one.
fn piece_at(bytes: &[u8], place: u64) -> Option<&[u8]>
    ensures { option_copied result ≡ slice_get (pieces_of bytes.now) place }
{
    bytes.split(|byte| *byte == LF).nth(place as usize)
}
