ghost use Rattle.lr_resp.specs.Laws.{WholeIsSpelled, SpelledIsWhole, PartBegins, BeginsPart, BrokenIsFirst, CauseIsFirst, WholeStays, BrokenStays, WrittenIsOne, ReadIsOne};
ghost use Rattle.lr_resp.specs.Turns.{FramesComeInOrder, PiecesDoNotMatter};

/// What is read as a frame is spelled so.
pub fn what_is_read_is_spelled()
    ensures { WholeIsSpelled }
{}

/// What is spelled is read as its frame, whatever follows.
pub fn what_is_spelled_is_read()
    ensures { SpelledIsWhole }
{}

/// Where more is wanted, a frame begins so.
pub fn a_part_begins_a_frame()
    ensures { PartBegins }
{}

/// Where a frame begins so, and isn't there yet, more is wanted.
pub fn a_front_is_part()
    ensures { BeginsPart }
{}

/// A fault stands at the first byte with which no frame begins, or at the one that makes a frame
/// too long.
pub fn a_fault_is_first()
    ensures { BrokenIsFirst }
{}

/// The cause of a fault is the first that fits its byte.
pub fn a_fault_has_its_cause()
    ensures { CauseIsFirst }
{}

/// What was read stays so, and a fault stays one, whatever follows.
pub fn a_fault_stays()
    ensures whole { WholeStays }
    ensures broken { BrokenStays }
{}

/// The frames that a decoder gives are those that its bytes spell, in order.
pub fn frames_come_in_order()
    ensures { FramesComeInOrder }
{}

/// How a stream was cut into pieces, and when frames were asked for, doesn't matter.
pub fn pieces_do_not_matter()
    ensures { PiecesDoNotMatter }
{}

/// No bytes begin with two frames, within the limits for reading and within those for writing.
pub fn one_frame_is_spelled()
    ensures read { ReadIsOne }
    ensures written { WrittenIsOne }
{}
