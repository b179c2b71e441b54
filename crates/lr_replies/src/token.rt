ghost use Rattle.std.specs.Prelude.{◌≡◌, ◌≢◌, ◌↔◌, ◌<◌, ◌^◌, ℕ, pos, IsNone, IsTrue, IfOk, IfSome};
ghost use Rattle.lr_resp.specs.Spelling.{spelling};
ghost use Rattle.lr_replies.specs.Shapes.{token_items};

use crate::number;
use lr_objects::Integer;
use lr_resp::{Frame, Frames};
use std::alloc::{AllocError, Global};

// The frame of a token.
pub fn frame(alloc: Global, token: &Integer) -> Result<Frame, AllocError>
    ensures { IfOk result (λ frame. frame ≡ Frame.Array (token_items token.now)) }
{
    let mut items = Vec::with_capacity(alloc, 2)?;
    items.push(Frame::Null)?;
    items.push(number::frame(token))?;
    Ok(Frame::Array(Frames::of(items)))
}

// The token of which these are the items: `None` exactly where they are none's.
pub fn of_items(items: &Frames) -> Option<Integer>
    ensures some { IfSome result (λ token. items.now ≡ token_items token) }
    ensures none { IsNone result → (token : ℕ) → token < 2 ^ 63 → items.now ≢ token_items token }
{
    match items.as_slice() {
        [mark, number] if is_null(mark) => natural(number),
        _ => None,
    }
}

fn is_null(frame: &Frame) -> bool
    ensures { IsTrue result ↔ (spelling frame.now ≡ spelling Frame.Null) }
{
    match frame {
        Frame::Null => true,
        _ => false,
    }
}

fn natural(frame: &Frame) -> Option<Integer>
    ensures some { IfSome result (λ natural. frame.now ≡ Frame.Number (pos natural)) }
    ensures none { IsNone result → (natural : ℕ) → natural < 2 ^ 63
        → spelling frame.now ≢ spelling (Frame.Number (pos natural)) }
{
    match frame {
        Frame::Number(number) => number::natural(number),
        _ => None,
    }
}
