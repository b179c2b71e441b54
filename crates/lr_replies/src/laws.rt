ghost use Rattle.lr_replies.specs.Laws.{RepliesAreReadable, RepliesAreToldApart};

/// The frame of each reply is within the limits for reading of `lr_resp`, so that a reader of a
/// stream takes its bytes as this frame.
pub fn replies_are_readable()
    ensures { RepliesAreReadable }
{}

/// Of one function no two replies have the same frame.
pub fn replies_are_told_apart()
    ensures { RepliesAreToldApart }
{}
