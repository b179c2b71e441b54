ghost use Rattle.std.specs.Prelude.{◌≡◌, ◌↔◌, ◌==◌, ◌<◌, true, false, IsTrue, IfSome, IfNone, slice_get};
ghost use Rattle.lr_limits.specs.Limits.{connection_limit};
ghost use Rattle.lr_model.specs.Board.{numbers_below};
ghost use Rattle.lr_model.specs.Table.{put};
ghost use Rattle.lr_pubsub.specs.ConnectionSet.{has_number};

use lr_limits::MOST_CONNECTIONS;

/// So many words have a bit for each connection.
const WORDS: usize = 4;

const _: () = prove!(WORDS * 64 == MOST_CONNECTIONS as usize);

/// A set of numbers of connections, a bit for each. It takes no memory.
#[derive(Clone, Copy)]
pub(crate) struct ConnectionSet {
    words: [u64; WORDS],
}

impl ConnectionSet {
    /// No numbers.
    pub(crate) fn empty() -> Self
        ensures { has_number result ≡ (λ _. false) }
    {
        ConnectionSet { words: [0; WORDS] }
    }

    /// Whether there are none.
    pub(crate) fn is_empty(&self) -> bool
        ensures { IsTrue result ↔ (has_number self.now ≡ (λ _. false)) }
    {
        self.first().is_none()
    }

    /// Whether a number is among them.
    pub(crate) fn has(&self, conn: u32) -> bool
        requires { conn < MOST_CONNECTIONS }
        ensures { result ≡ has_number self.now conn }
    {
        self.words[conn as usize / 64] >> (conn % 64) & 1 == 1
    }

    /// Adds a number.
    pub(crate) fn add(&mut self, conn: u32)
        requires { conn < MOST_CONNECTIONS }
        ensures { has_number self.new ≡ put ◌==◌ (has_number self.old) conn true }
    {
        self.words[conn as usize / 64] |= 1 << (conn % 64);
    }

    /// Takes a number out.
    pub(crate) fn remove(&mut self, conn: u32)
        requires { conn < MOST_CONNECTIONS }
        ensures { has_number self.new ≡ put ◌==◌ (has_number self.old) conn false }
    {
        self.words[conn as usize / 64] &= !(1 << (conn % 64));
    }

    /// The least number.
    pub(crate) fn first(&self) -> Option<u32>
        ensures least { result
            ≡ slice_get (numbers_below connection_limit (has_number self.now)) 0 }
        ensures none { IfNone result (has_number self.now ≡ (λ _. false)) }
    {
        for (place, word) in self.words.iter().enumerate() {
            if *word != 0 {
                return Some(place as u32 * 64 + word.trailing_zeros());
            }
        }
        None
    }

    /// Takes the least number out.
    pub(crate) fn pop_first(&mut self) -> Option<u32>
        ensures first { result
            ≡ slice_get (numbers_below connection_limit (has_number self.old)) 0 }
        ensures none { IfNone result (has_number self.old ≡ (λ _. false)) }
        ensures rest { IfSome result (λ conn. has_number self.new
            ≡ put ◌==◌ (has_number self.old) conn false) }
    {
        let first = self.first()?;
        self.remove(first);
        Some(first)
    }
}
