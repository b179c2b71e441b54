use crate::cause::Cause;
use crate::frame::Frame;

/// What a byte led to.
#[derive(Drop)]
pub enum Progress {
    /// The frame goes on.
    GoesOn,
    /// The frame is whole.
    Whole(Frame),
    /// The byte can't stand there.
    Broken(Cause),
}
