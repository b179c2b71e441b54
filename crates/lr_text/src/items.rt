ghost use Rattle.std.specs.Prelude.{◌≡◌, ◌↔◌, [], ◌∷◌, ◌++◌, length, slice_get, IsTrue, OnOk, OnErr};
ghost use Rattle.std.specs.Option.{option_copied};

use crate::text::Text;
use std::alloc::{AllocError, Global};
use std::marker::Model;

/// A list of texts.
#[derive(Clone, Debug, Drop)]
pub struct Items {
    texts: Vec<Text>,
}

impl Model for Items {
    ghost use Rattle.std.specs.Prelude.{ℕ, List};

    ghost Value = { List (List ℕ) };

    ghost view = { λ t. t.texts.items };
}

impl Items {
    /// No texts. It takes no memory yet.
    pub fn new(alloc: Global) -> Self
        ensures { result ≡ [] }
    {
        Items {
            texts: Vec::new(alloc),
        }
    }

    /// Appends a text. An error leaves the list as it was, and drops the text.
    pub fn push(&mut self, text: Text) -> Result<(), AllocError>
        ensures ok { OnOk result (self.new ≡ self.old ++ text ∷ []) }
        ensures err { OnErr result (self.new ≡ self.old) }
    {
        self.texts.push(text)?;
        Ok(())
    }

    /// How many texts there are.
    pub fn len(&self) -> usize
        ensures { result ≡ length self.now }
    {
        self.texts.len()
    }

    /// Whether there are none.
    pub fn is_empty(&self) -> bool
        ensures { IsTrue result ↔ (self.now ≡ []) }
    {
        self.texts.is_empty()
    }

    /// The text at this place, counted from 0: `None` past the end.
    pub fn get(&self, index: usize) -> Option<&Text>
        ensures { option_copied result ≡ slice_get self.now index }
    {
        self.texts.get(index)
    }

    /// The texts.
    pub fn as_slice(&self) -> &[Text]
        ensures { result.now ≡ self.now }
    {
        self.texts.as_slice()
    }
}
