ghost use Rattle.lr_requests.specs.Laws.{WordsAreOne, RequestIsOne, FaultIsNoRequest, FaultIsOne};

/// The frame of words that are within the limits for reading is that of no other such words.
pub fn a_frame_has_its_words()
    ensures { WordsAreOne }
{}

/// Words ask for at most one request.
pub fn one_request_is_asked()
    ensures { RequestIsOne }
{}

/// Words with a fault ask for nothing.
pub fn a_fault_is_no_request()
    ensures { FaultIsNoRequest }
{}

/// Words have at most one fault, but for want of memory.
pub fn a_fault_is_alone()
    ensures { FaultIsOne }
{}
