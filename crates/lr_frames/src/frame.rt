ghost use Rattle.std.specs.Prelude.{◌≡◌, IfOk};
ghost use Rattle.lr_resp.specs.Grammar.{Spells};
ghost use Rattle.lr_resp.specs.Spelling.{spelling};
ghost use Rattle.lr_frames.specs.OpWords.{call_words, IsSaid};
ghost use Rattle.lr_frames.specs.Words.{words_frame};

use crate::call::ONE_KEY;
use crate::said::{Said, check_op};
use crate::sentence::Sentence;
use crate::shape::Shape;
use lr_objects::Op;
use lr_resp::Frame;
use std::alloc::{AllocError, Global};

/// The request of a call: an FCALL of its function on its object. It is within the limits for
/// reading.
pub fn call_frame(alloc: Global, op: &Op) -> Result<Frame, AllocError>
    ensures frame { IfOk result (λ frame. frame ≡ words_frame (call_words op.now)) }
    ensures said { IsSaid op.now }
    ensures spelled { IfOk result (λ frame. Spells (spelling frame) frame) }
{
    check_op(op);
    written(alloc, op)
}

fn written(alloc: Global, op: &Op) -> Result<Frame, AllocError>
    ensures { IfOk result (λ frame. frame ≡ words_frame (call_words op.now)) }
{
    let said = Said::of(&op.call);
    let mut sentence = Sentence::new(alloc);
    sentence.push(b"FCALL")?;
    sentence.push(said.function.word())?;
    sentence.push(ONE_KEY)?;
    sentence.push(op.name.as_slice())?;
    sentence.push_given(Shape::of(said.function), &said.given)?;
    Ok(sentence.into_frame())
}
