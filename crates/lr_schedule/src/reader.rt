ghost use Rattle.std.specs.Prelude.{◌≡◌, ◌≢◌, ◌<◌, ◌^◌, ℕ, List, [], ◌∷◌, decimal, IsErr, IsNone, IfOk, IfSome, OnOk};
ghost use Rattle.lr_text.specs.Words.{words_of, joined};
ghost use Rattle.lr_names.specs.Name.{IsName};
ghost use Rattle.lr_names.specs.Owner.{IsId, id_text};
ghost use Rattle.lr_machine.specs.EventText.{IsNumber};

use crate::fault::Expected;
use lr_names::{Name, read_id};
use lr_text::{Words, read_number};
use std::marker::Model;
use uuid::Uuid;

/// The words of a line that are left to be read, and the place of the word that was read last.
#[derive(Drop)]
pub struct Reader<'a> {
    words: Words<'a>,
    place: u64,
}

impl<'a> Model for Reader<'a> {
    ghost use Rattle.std.specs.Prelude.{ℕ, List};

    ghost Value = { List (List ℕ) };

    ghost view = { λ r. r.words };
}

impl<'a> Reader<'a> {
    /// All words of a line.
    pub fn new(line: &'a [u8]) -> Reader<'a>
        ensures words { result ≡ words_of line.now }
        ensures line { joined result ≡ line.now }
    {
        Reader {
            words: Words::new(line),
            place: 0,
        }
    }

    /// The place of the last word that was asked for, counted from 1, whether it is there or not.
    pub fn place(&self) -> u64 {
        self.place
    }

    /// The next word: `None` where none is left.
    pub fn next(&mut self) -> Option<&'a [u8]>
        ensures some { IfSome result (λ word. self.old ≡ word.now ∷ self.new) }
        ensures none { IsNone result → self.old ≡ [] }
    {
        self.place = self.place.saturating_add(1);
        self.words.next()
    }

    /// The next word, where there is one.
    pub fn word(&mut self, expected: Expected) -> Result<&'a [u8], Expected>
        ensures some { IfOk result (λ word. self.old ≡ word.now ∷ self.new) }
        ensures none { IsErr result → self.old ≡ [] }
    {
        self.next().ok_or(expected)
    }

    /// The next word as a number.
    pub fn number(&mut self, expected: Expected) -> Result<u64, Expected>
        ensures some { IfOk result (λ n. self.old ≡ decimal n ∷ self.new) }
        ensures number { IfOk result IsNumber }
        ensures none { IsErr result → (n : ℕ) (rest : List (List ℕ)) → IsNumber n
            → self.old ≢ decimal n ∷ rest }
    {
        let word = self.word(expected)?;
        read_number(word).ok_or(expected)
    }

    /// The next word as a name.
    pub fn name(&mut self) -> Result<Name, Expected>
        ensures some { IfOk result (λ name. self.old ≡ name ∷ self.new) }
        ensures name { IfOk result IsName }
        ensures none { IsErr result → (name : List ℕ) (rest : List (List ℕ)) → IsName name
            → self.old ≢ name ∷ rest }
    {
        let word = self.word(Expected::Name)?;
        match Name::parse(word) {
            Ok(name) => Ok(name),
            Err(_) => Err(Expected::Name),
        }
    }

    /// The next word as an id.
    pub fn id(&mut self) -> Result<Uuid, Expected>
        ensures some { IfOk result (λ id. self.old ≡ id_text id ∷ self.new) }
        ensures id { IfOk result IsId }
        ensures none { IsErr result → (id : List ℕ) (rest : List (List ℕ)) → IsId id
            → self.old ≢ id_text id ∷ rest }
    {
        let word = self.word(Expected::Id)?;
        read_id(word).ok_or(Expected::Id)
    }

    /// That no word is left.
    pub fn end(&mut self) -> Result<(), Expected>
        ensures some { OnOk result (self.old ≡ []) }
        ensures none { IsErr result → self.old ≢ [] }
    {
        match self.next() {
            None => Ok(()),
            Some(_) => Err(Expected::End),
        }
    }
}
