ghost use Rattle.std.specs.Prelude.{◌≡◌, Ok, IfOk, IfSome, IsNone, OnErr};
ghost use Rattle.lr_objects.specs.declared.reply.Reply.{Reply};
ghost use Rattle.lr_replies.specs.Frames.{HasFrame, IsFrameOf, IsReply};

use crate::role::Role;
use crate::shape::Shape;
use lr_objects::{Function, Reply};
use lr_resp::Frame;
use std::alloc::{AllocError, Global};

/// Why a frame isn't read as a reply.
#[derive(Clone, Copy, Debug, PartialEq, Eq)]
pub enum ReplyFault {
    /// No reply of the function has this frame.
    NotAReply,
}

/// The frame of a reply that the function may answer. The only error is want of memory.
pub fn reply_frame(alloc: Global, function: Function, reply: &Reply) -> Result<Frame, AllocError>
    requires { HasFrame function reply.now }
    ensures { IfOk result (λ frame. IsFrameOf frame function reply.now) }
{
    check(reply);
    match Role::of(function).shape_of(reply) {
        Some(shape) => shape.frame(alloc),
        None => unreachable!(),
    }
}

/// The reply of the function that has this frame: `NotAReply` exactly where none of its replies has
/// it. It takes no memory.
pub fn read_reply(function: Function, frame: &Frame) -> Result<Reply, ReplyFault>
    ensures ok { IfOk result (λ reply. IsFrameOf frame.now function reply) }
    ensures err { OnErr result ((reply : Reply) → ¬ IsFrameOf frame.now function reply) }
    ensures each { (reply : Reply) → IsFrameOf frame.now function reply → result ≡ Ok reply }
{
    match reply_in(function, frame) {
        Some(reply) => Ok(reply),
        None => Err(ReplyFault::NotAReply),
    }
}

fn reply_in(function: Function, frame: &Frame) -> Option<Reply>
    ensures some { IfSome result (λ reply. IsFrameOf frame.now function reply) }
    ensures none { IsNone result → (reply : Reply) → ¬ IsFrameOf frame.now function reply }
{
    let shape = Shape::of_frame(frame)?;
    let reply = Role::of(function).reply_of(&shape)?;
    check(&reply);
    Some(reply)
}

// What the types of its parts say of a reply.
fn check(reply: &Reply)
    ensures { IsReply reply.now }
{
    match reply {
        Reply::Busy(remaining) => {
            let _millis = remaining.millis();
        }
        Reply::GrantedToken(number) | Reply::Count(number) => {
            let _value = number.value();
        }
        _ => (),
    }
}
