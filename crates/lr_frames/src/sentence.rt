ghost use Rattle.std.specs.Prelude.{◌≡◌, [], ◌∷◌, ◌++◌, decimal, OnOk};
ghost use Rattle.lr_names.specs.Owner.{id_text, owner_text};
ghost use Rattle.lr_frames.specs.Given.{queue_word, access_word, given_words};
ghost use Rattle.lr_frames.specs.Words.{words_frame};

use crate::given::Given;
use crate::shape::Shape;
use itoa::Buffer;
use lr_names::{Owner, id_brief};
use lr_objects::Access;
use lr_resp::{Frame, Frames};
use lr_text::Text;
use std::alloc::{AllocError, Global};
use std::marker::Model;
use uuid::Uuid;

/// The words of a request that is being written.
#[derive(Drop)]
pub struct Sentence {
    alloc: Global,
    items: Vec<Frame>,
}

impl Model for Sentence {
    ghost use Rattle.std.specs.Prelude.{ℕ, List, map, IsTrue};
    ghost use Rattle.std.specs.List.{list_all};
    ghost use Rattle.lr_frames.specs.Words.{is_bulk, bulk_text};

    ghost Value = { List (List ℕ) };

    ghost view = { λ s. map bulk_text s.items.items };

    ghost invariant = { λ s. IsTrue (list_all is_bulk s.items.items) };
}

impl Sentence {
    /// No words. It takes no memory yet.
    pub fn new(alloc: Global) -> Sentence
        ensures { result ≡ [] }
    {
        Sentence {
            alloc,
            items: Vec::new(alloc),
        }
    }

    /// The frame of these words.
    pub fn into_frame(self) -> Frame
        ensures { result ≡ words_frame self }
    {
        Frame::Array(Frames::of(self.items))
    }

    /// Appends a word. After an error the words may have changed.
    pub fn push(&mut self, word: &[u8]) -> Result<(), AllocError>
        ensures { OnOk result (self.new ≡ self.old ++ word.now ∷ []) }
    {
        let text = Text::of(self.alloc, word)?;
        self.items.push(Frame::Bulk(text))?;
        Ok(())
    }

    /// Appends the words of what a function with this shape is given. After an error the words may
    /// have changed.
    pub fn push_given(&mut self, shape: Shape, given: &Given) -> Result<(), AllocError>
        ensures { OnOk result (self.new ≡ self.old ++ given_words shape given.now) }
    {
        match shape {
            Shape::Nothing => Ok(()),
            Shape::Owner => self.push_owner(&given.owner),
            Shape::OwnerLease => {
                self.push_owner(&given.owner)?;
                self.push_number(given.lease)
            }
            Shape::OwnerLeaseQueue => {
                self.push_owner(&given.owner)?;
                self.push_number(given.lease)?;
                self.push_queue(given.queue)
            }
            Shape::OwnerModeLease => {
                self.push_owner(&given.owner)?;
                self.push_access(given.access)?;
                self.push_number(given.lease)
            }
            Shape::Number => self.push_number(given.number.number()),
            Shape::Id => self.push_id(&given.id),
            Shape::IdLease => {
                self.push_id(&given.id)?;
                self.push_number(given.lease)
            }
        }
    }

    fn push_owner(&mut self, owner: &Owner) -> Result<(), AllocError>
        ensures { OnOk result (self.new ≡ self.old ++ owner_text owner.now ∷ []) }
    {
        self.push(owner.brief().as_slice())
    }

    fn push_id(&mut self, id: &Uuid) -> Result<(), AllocError>
        ensures { OnOk result (self.new ≡ self.old ++ id_text id.now ∷ []) }
    {
        self.push(id_brief(id).as_slice())
    }

    fn push_number(&mut self, number: u64) -> Result<(), AllocError>
        ensures { OnOk result (self.new ≡ self.old ++ decimal number ∷ []) }
    {
        let mut digits = Buffer::new();
        self.push(digits.format(number).as_bytes())
    }

    fn push_queue(&mut self, queue: bool) -> Result<(), AllocError>
        ensures { OnOk result (self.new ≡ self.old ++ queue_word queue ∷ []) }
    {
        if queue {
            self.push(b"1")
        } else {
            self.push(b"0")
        }
    }

    fn push_access(&mut self, access: Access) -> Result<(), AllocError>
        ensures { OnOk result (self.new ≡ self.old ++ access_word access ∷ []) }
    {
        match access {
            Access::Read => self.push(b"0"),
            Access::Write => self.push(b"1"),
        }
    }
}
