ghost use Rattle.lr_frames.specs.Laws.{WordsAreOfOne, FaultIsNoCall, FaultIsOne};

/// Two calls with the same words are one.
pub fn words_are_of_one_call()
    ensures { WordsAreOfOne }
{}

/// Words with a fault are those of no call.
pub fn a_fault_is_no_call()
    ensures { FaultIsNoCall }
{}

/// Words have at most one fault.
pub fn a_fault_is_alone()
    ensures { FaultIsOne }
{}
