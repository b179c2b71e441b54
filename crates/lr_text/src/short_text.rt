ghost use Rattle.std.specs.Prelude.{◌≡◌, ℕ, ◌+◌, ◌<◌, ◌≤◌, length, IsSome, IfSome, ◌↔◌, [], ◌∷◌, ◌++◌, IsTrue, List};

use std::hash::{Hash, Hasher};
use std::marker::Model;
use std::{fmt, str};

/// At most `CAP` bytes, kept in place: copied without memory.
#[derive(Clone, Copy)]
pub struct ShortText<const CAP: usize> {
    bytes: [u8; CAP],
    len: usize,
}

impl<const CAP: usize> Model for ShortText<CAP> {
    ghost use Rattle.std.specs.Prelude.{◌≡◌, ℕ, List, length, take};
    ghost use Rattle.std.proofs.Common.{refl};
    ghost use Rattle.lr_text.specs.ShortText.{IsPadded, padded, length-front, padded-front};

    ghost Value = { List ℕ };

    ghost view = { λ s. take s.len s.bytes };

    ghost invariant = { λ s. IsPadded CAP s.len s.bytes };

    ghost inverse = { λ text. record { bytes = padded CAP text; len = length text } };

    ghost inverse_ok = { λ a h.
        let e = padded-front CAP a.len a.bytes h in
        let f = length-front CAP a.len a.bytes h in
        Prim.rw e (Prim.rw f refl) };
}

impl<const CAP: usize> ShortText<CAP> {
    /// No bytes.
    pub fn new() -> Self
        ensures { result ≡ [] }
    {
        ShortText {
            bytes: [0; CAP],
            len: 0,
        }
    }

    /// These bytes: `None` exactly above `CAP` of them.
    pub fn of(text: &[u8]) -> Option<Self>
        ensures some { IsSome result ↔ (length text.now ≤ CAP) }
        ensures bytes { IfSome result (λ t. t ≡ text.now) }
    {
        if text.len() > CAP {
            return None;
        }
        let mut short = ShortText::new();
        short.push_bytes(text);
        Some(short)
    }

    /// Appends these bytes.
    pub fn push_bytes(&mut self, bytes: &[u8])
        requires { length self.old + length bytes.now ≤ CAP }
        ensures { self.new ≡ self.old ++ bytes.now }
    {
        let end = self.len + bytes.len();
        let room = &mut self.bytes[..];
        room[self.len..end].copy_from_slice(bytes);
        self.len = end;
    }

    /// How many bytes there are.
    pub fn len(&self) -> usize
        ensures value { result ≡ length self.now }
        ensures within { result ≤ CAP }
    {
        self.len
    }

    /// Whether there are none.
    pub fn is_empty(&self) -> bool
        ensures { IsTrue result ↔ (length self.now ≡ 0) }
    {
        self.len == 0
    }

    /// The bytes.
    pub fn as_slice(&self) -> &[u8]
        ensures value { result.now ≡ self.now }
        ensures within { length self.now ≤ CAP }
    {
        &self.bytes[..self.len]
    }
}

impl<const CAP: usize> PartialEq for ShortText<CAP> {
    ghost use Rattle.std.specs.Cmp.{partial_equiv_from_equiv};
    ghost use Rattle.std.specs.Cmp.Lexicographic.{nat_list_eq_equiv};
    ghost use Rattle.std.specs.Str.{bytes_eq};

    ghost eq = { bytes_eq };

    ghost laws = { partial_equiv_from_equiv nat_list_eq_equiv };

    fn eq(&self, other: &Self) -> bool {
        self.as_slice() == other.as_slice()
    }
}

impl<const CAP: usize> Eq for ShortText<CAP> {
    ghost use Rattle.std.specs.Cmp.Lexicographic.{nat_list_eq_equiv};

    ghost laws = { nat_list_eq_equiv };
}

impl<const CAP: usize> Hash for ShortText<CAP> {
    ghost use Rattle.std.specs.Prelude.{[], ◌∷◌};
    ghost use Rattle.std.specs.Cmp.Rules.{hashing};
    ghost use Rattle.std.proofs.Common.{rules};

    ghost hash_input = { λ s. s ∷ [] };

    ghost respects_eq = { Prim.search (hashing, rules) };

    fn hash<H: Hasher>(&self, state: &mut H) {
        state.write(self.as_slice());
    }
}

impl<const CAP: usize> fmt::Debug for ShortText<CAP> {
    fn fmt<W: fmt::Write>(&self, f: &mut fmt::Formatter<W>) -> fmt::Result {
        match str::from_utf8(self.as_slice()) {
            Ok(text) => fmt::Debug::fmt(text, f),
            Err(_) => fmt::Debug::fmt(self.as_slice(), f),
        }
    }
}
