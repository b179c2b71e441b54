ghost use Rattle.std.specs.Prelude.{◌≡◌, ◌≢◌, ◌<◌, ◌≤◌, ◌↔◌, ℕ, List, Some, length, drop, map, slice_get, IsTrue, IsNone, IfSome};
ghost use Rattle.std.specs.List.{list_all};
ghost use Rattle.lr_resp.specs.Spelling.{spelling};
ghost use Rattle.lr_frames.specs.Words.{AreHeld, words_frame, bulk_word, word_at, is_bulk, bulk_text};

use lr_resp::Frame;
use std::marker::Model;

/// The words of a request, or those behind some of them: bulk strings, in order.
#[derive(Drop)]
pub struct Words<'a> {
    items: &'a [Frame],
}

impl<'a> Model for Words<'a> {
    ghost use Rattle.std.specs.Prelude.{ℕ, List, map, IsTrue};
    ghost use Rattle.std.specs.List.{list_all};
    ghost use Rattle.lr_frames.specs.Words.{is_bulk, bulk_text};

    ghost Value = { List (List ℕ) };

    ghost view = { λ w. map bulk_text w.items.now };

    ghost invariant = { λ w. IsTrue (list_all is_bulk w.items.now) };
}

impl<'a> Words<'a> {
    /// The words of a frame, at least one: `None` exactly where the frame is no request, which is
    /// an array of at least one bulk string and nothing else.
    pub fn of(frame: &'a Frame) -> Option<Words<'a>>
        ensures words { IfSome result (λ words. frame.now ≡ words_frame words) }
        ensures some { IfSome result (λ words. 0 < length words) }
        ensures none { IsNone result → (words : List (List ℕ)) → AreHeld words
            → 0 < length words → frame.now ≢ words_frame words }
    {
        match frame {
            Frame::Array(items) => Words::of_items(items.as_slice()),
            _ => None,
        }
    }

    fn of_items(items: &'a [Frame]) -> Option<Words<'a>>
        ensures words { IfSome result (λ words. map spelling items.now ≡ map bulk_word words) }
        ensures some { IfSome result (λ words. 0 < length words) }
        ensures none { IsNone result → (words : List (List ℕ)) → AreHeld words
            → 0 < length words → map spelling items.now ≢ map bulk_word words }
    {
        if items.is_empty() {
            return None;
        }
        if !are_bulks(items) {
            return None;
        }
        Some(Words { items })
    }

    /// How many words there are.
    pub fn len(&self) -> usize
        ensures { result ≡ length self.now }
    {
        self.items.len()
    }

    /// Whether there are none.
    pub fn is_empty(&self) -> bool
        ensures { IsTrue result ↔ (length self.now ≡ 0) }
    {
        self.items.is_empty()
    }

    /// The word at this place, counted from 0: `None` past the end.
    pub fn get(&self, index: usize) -> Option<&'a [u8]>
        ensures some { IfSome result (λ word. slice_get self.now index ≡ Some word.now) }
        ensures none { IsNone result → length self.now ≤ index }
    {
        match self.items.get(index) {
            Some(item) => Some(text_of(item)),
            None => None,
        }
    }

    /// The word at this place, counted from 0: no bytes past the end.
    pub fn word(&self, index: usize) -> &'a [u8]
        ensures { result.now ≡ word_at self.now index }
    {
        match self.get(index) {
            Some(word) => word,
            None => b"",
        }
    }

    /// The words behind the first `count`: none where there are no more.
    pub fn behind(&self, count: usize) -> Words<'a>
        ensures { result ≡ drop count self.now }
    {
        Words {
            items: behind(self.items, count),
        }
    }
}

fn behind(items: &[Frame], count: usize) -> &[Frame]
    ensures { result.now ≡ drop count items.now }
{
    match items.get(count..) {
        Some(rest) => rest,
        None => &[],
    }
}

fn are_bulks(items: &[Frame]) -> bool
    ensures { result ≡ list_all is_bulk items.now }
{
    items.iter().all(is_a_bulk)
}

fn is_a_bulk(frame: &Frame) -> bool
    ensures { result ≡ is_bulk frame.now }
{
    matches!(frame, Frame::Bulk(_))
}

fn text_of(frame: &Frame) -> &[u8]
    ensures { result.now ≡ bulk_text frame.now }
{
    match frame {
        Frame::Bulk(text) => text.as_slice(),
        _ => b"",
    }
}
