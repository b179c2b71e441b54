ghost use Rattle.std.specs.Prelude.{◌≡◌, ◌≢◌, IsNone, IfOk, IfSome};
ghost use Rattle.lr_replies.specs.Shapes.{IsShape, frame_with};

use crate::refusal::Refusal;
use crate::{number, token};
use lr_objects::Integer;
use lr_resp::Frame;
use lr_text::Text;
use std::alloc::{AllocError, Global};

// A frame, as replies use them.
#[derive(Clone, Copy)]
pub enum Shape {
    // the null of a bulk string
    Null,
    // a number
    Number(Integer),
    // an array of the null of a bulk string and a number
    Token(Integer),
    // an error
    Refused(Refusal),
}

impl Shape {
    // The frame.
    pub fn frame(&self, alloc: Global) -> Result<Frame, AllocError>
        ensures { IfOk result (λ frame. frame ≡ frame_with self.now) }
    {
        match self {
            Shape::Null => Ok(Frame::Null),
            Shape::Number(value) => Ok(number::frame(value)),
            Shape::Token(value) => token::frame(alloc, value),
            Shape::Refused(refusal) => Ok(Frame::Fault(Text::of(alloc, refusal.text())?)),
        }
    }

    // What a frame is: `None` exactly where no reply has it.
    pub fn of_frame(frame: &Frame) -> Option<Shape>
        ensures some { IfSome result (λ shape. IsShape shape × (frame.now ≡ frame_with shape)) }
        ensures none { IsNone result → (shape : Shape) → IsShape shape
            → frame.now ≢ frame_with shape }
    {
        match frame {
            Frame::Null => Some(Shape::Null),
            Frame::Number(value) => Some(Shape::Number(number::natural(value)?)),
            Frame::Array(items) => Some(Shape::Token(token::of_items(items)?)),
            Frame::Fault(text) => Some(Shape::Refused(Refusal::of_text(text.as_slice())?)),
            Frame::Simple(_) | Frame::Bulk(_) | Frame::NullArray => None,
        }
    }
}
