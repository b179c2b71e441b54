ghost use Rattle.std.specs.Prelude.{◌≡◌, ◌↔◌, ◌==◌, ◌<◌, ℕ, List, length, [], ◌∷◌, ◌++◌, position, IsTrue, IsNone, IfSome, IfNone};
ghost use Rattle.lr_text.specs.Words.{lacks, words_of, joined, are_words};

use std::marker::Model;

/// The words of a line that are left to be read: the pieces between single spaces, in order.
///
/// An empty piece is a word, so two spaces in a row have one between them, and an empty line is
/// one empty word.
#[derive(Drop)]
pub struct Words<'a> {
    rest: &'a [u8],
    over: bool,
}

impl<'a> Model for Words<'a> {
    ghost use Rattle.std.specs.Prelude.{ℕ, List};
    ghost use Rattle.lr_text.specs.Words.{words_left};

    ghost Value = { List (List ℕ) };

    ghost view = { λ w. words_left w.over w.rest.now };
}

impl<'a> Words<'a> {
    /// All words of a line, at least one. With single spaces between they are the line, and no
    /// other words are.
    pub fn new(line: &'a [u8]) -> Words<'a>
        ensures words { result ≡ words_of line.now }
        ensures each { IsTrue (are_words result) }
        ensures some { 0 < length result }
        ensures line { joined result ≡ line.now }
        ensures alone { (word : List ℕ) (rest : List (List ℕ)) → IsTrue (are_words (word ∷ rest))
            → line.now ≡ joined (word ∷ rest) → result ≡ word ∷ rest }
    {
        Words::start(line)
    }

    fn start(line: &'a [u8]) -> Words<'a>
        ensures { result ≡ words_of line.now }
    {
        Words {
            rest: line,
            over: false,
        }
    }

    /// The next word: `None` where none is left.
    pub fn next(&mut self) -> Option<&'a [u8]>
        ensures some { IfSome result (λ word. self.old ≡ word.now ∷ self.new) }
        ensures none { IsNone result ↔ (self.old ≡ []) }
        ensures end { IfNone result (self.new ≡ []) }
    {
        if self.over {
            return None;
        }
        match split_once(self.rest, b' ') {
            Some((word, rest)) => {
                self.rest = rest;
                Some(word)
            }
            None => {
                self.over = true;
                Some(self.rest)
            }
        }
    }
}

/// What stands before the first such byte of a text, and what follows it: `None` where the text
/// has no such byte.
pub fn split_once(text: &[u8], byte: u8) -> Option<(&[u8], &[u8])>
    ensures some { IfSome result (λ parts. text.now ≡ parts.0.now ++ byte ∷ parts.1.now) }
    ensures first { IfSome result (λ parts. IsTrue (lacks byte parts.0.now)) }
    ensures none { IsNone result → IsTrue (lacks byte text.now) }
{
    let at = place_of(text, byte)?;
    Some((&text[..at], &text[at + 1..]))
}

fn place_of(text: &[u8], byte: u8) -> Option<usize>
    ensures { result ≡ position (λ b. b == byte) text.now }
{
    text.iter().position(|b| *b == byte)
}
