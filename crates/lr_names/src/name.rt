ghost use Rattle.std.specs.Prelude.{◌≡◌, ◌↔◌, Some, IsTrue, IsNone, IsOk, IfOk, IfSome};
ghost use Rattle.std.specs.List.{list_all};
ghost use Rattle.lr_names.specs.Name.{is_name_byte, IsName};

use lr_limits::NAME_BYTES;
use lr_text::ShortText;
use std::marker::Model;
use std::{fmt, str};

/// The name of an object: 1 to 64 letters, digits, `_`, `.` or `-`.
#[derive(Clone, Copy, PartialEq, Eq, Hash)]
pub struct Name {
    text: ShortText<NAME_BYTES>,
}

impl Model for Name {
    ghost use Rattle.std.specs.Prelude.{ℕ, List};
    ghost use Rattle.lr_names.specs.Name.{IsName};

    ghost Value = { List ℕ };

    ghost view = { λ n. n.text };

    ghost invariant = { λ n. IsName n.text };

    ghost inverse = { λ text. record { text = text } };
}

/// Why a text is no name.
#[derive(Clone, Copy, Debug, PartialEq, Eq)]
pub enum NameFault {
    /// It isn't 1 to 64 letters, digits, `_`, `.` or `-`.
    BadName,
}

impl Name {
    /// Reads a name: `BadName` exactly where the text is none.
    pub fn parse(text: &[u8]) -> Result<Name, NameFault>
        ensures named { IsOk result ↔ IsName text.now }
        ensures same { IfOk result (λ name. name ≡ text.now) }
    {
        read_name(text).ok_or(NameFault::BadName)
    }

    /// The bytes of the name.
    pub fn as_slice(&self) -> &[u8]
        ensures value { result.now ≡ self.now }
        ensures named { IsName self.now }
    {
        self.text.as_slice()
    }
}

pub(crate) fn read_name(text: &[u8]) -> Option<Name>
    ensures some { IfSome result (λ name. (name ≡ text.now) × IsName text.now) }
    ensures none { IsNone result → ¬ (IsName text.now) }
{
    match ShortText::of(text) {
        Some(text) if is_name(text.as_slice()) => Some(Name { text }),
        _ => None,
    }
}

fn is_name(text: &[u8]) -> bool
    ensures { IsTrue result ↔ IsName text.now }
{
    !text.is_empty() && text.len() <= NAME_BYTES && has_name_bytes(text)
}

fn has_name_bytes(text: &[u8]) -> bool
    ensures { result ≡ list_all is_name_byte text.now }
{
    text.iter().all(|byte| is_name_byte(*byte))
}

fn is_name_byte(byte: u8) -> bool
    ensures { result ≡ is_name_byte byte }
{
    byte.is_ascii_alphanumeric() || matches!(byte, b'_' | b'.' | b'-')
}

impl fmt::Display for Name {
    ghost output = { λ name. Some name };

    fn fmt<W: fmt::Write>(&self, f: &mut fmt::Formatter<W>) -> fmt::Result {
        match str::from_utf8(self.as_slice()) {
            Ok(text) => f.write_str(text),
            Err(_) => Err(fmt::Error),
        }
    }
}

impl fmt::Debug for Name {
    fn fmt<W: fmt::Write>(&self, f: &mut fmt::Formatter<W>) -> fmt::Result {
        fmt::Display::fmt(self, f)
    }
}
