// A sink in memory, whose writes fail where they are told to.
ghost use Rattle.std.specs.Prelude.{◌≡◌, ◌<◌, [], Some, length};
ghost use Rattle.lr_outside.specs.Turns.{WritesFront, is_failed_write, next_count, CountsFaults};
ghost use Rattle.lr_outside.specs.MemSink.{held_bytes, write_faults, writes_made, failing_writes, IsNextWriteListed, TakesWhole};

use crate::{Sink, WriteTurn};
use std::alloc::Global;

/// Takes each piece whole and keeps it. It keeps the bytes in memory of its own, and a write for
/// which there is none fails as one that was told to.
#[derive(Drop)]
pub struct MemSink<'a> {
    bytes: Vec<u8>,
    failing: &'a [u64],
    calls: u64,
    faults: u64,
}

impl<'a> MemSink<'a> {
    /// A sink with no bytes, whose writes of the numbers in `failing`, counted from 1, fail.
    pub fn new(alloc: Global, failing: &'a [u64]) -> Self
        ensures held { held_bytes result ≡ [] }
        ensures faults { write_faults result ≡ 0 }
        ensures made { writes_made result ≡ 0 }
        ensures failing { failing_writes result ≡ failing.now }
    {
        MemSink {
            bytes: Vec::new(alloc),
            failing,
            calls: 0,
            faults: 0,
        }
    }

    /// The bytes that it holds.
    pub fn bytes(&self) -> &[u8]
        ensures { result.now ≡ held_bytes self.now }
    {
        &self.bytes
    }
}

impl Sink for MemSink<'_> {
    ghost held = { λ s. Some (held_bytes s) };

    ghost faults = { write_faults };

    fn write(&mut self, piece: &[u8]) -> WriteTurn
        requires { 0 < length piece.now }
        ensures bytes { WritesFront (Some (held_bytes self.old)) (Some (held_bytes self.new))
            piece.now result }
        ensures counts { CountsFaults (write_faults self.old) (write_faults self.new)
            (is_failed_write result) }

        // Beyond what each sink keeps: which writes fail, apart from want of memory, and that the
        // others take all.
        ensures listed { IsNextWriteListed self.old → result ≡ WriteTurn.Failed }
        ensures whole { TakesWhole piece.now result }
        ensures made { writes_made self.new ≡ next_count (writes_made self.old) }
        ensures failing { failing_writes self.new ≡ failing_writes self.old }
    {
        self.calls = self.calls.saturating_add(1);
        if self.failing.contains(&self.calls) || self.bytes.extend_from_slice(piece).is_err() {
            self.faults = self.faults.saturating_add(1);
            return WriteTurn::Failed;
        }
        WriteTurn::Took(piece.len())
    }
}
