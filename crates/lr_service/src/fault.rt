use lr_server::StepFault;

/// Why a call that waits for nobody did nothing.
#[derive(Clone, Copy, Debug, PartialEq, Eq)]
pub enum TryFault {
    /// Another pass has the turn, or came first: the word of the gate that showed it.
    Busy(u64),
    /// The server refused.
    Step(StepFault),
}
