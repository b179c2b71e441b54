/// What stands for a sleeping thread: why it doesn't sleep for ever.
#[derive(Clone, Copy, Debug, PartialEq, Eq)]
pub enum Stand {
    /// A message of its channel is on its way to its client.
    Message,
    /// Its latch has a permit.
    Permit,
    /// Another thread that waits at its latch is awake.
    Awake,
    /// Its own call would be refused now.
    Held,
    /// A message that wakes all has come since it asked.
    Broadcast,
    /// A timer, which fires at this moment, in milliseconds.
    Timer(u64),
    /// Nothing.
    Nobody,
}

/// A sleeping thread, and what stands for it.
#[derive(Clone, Copy, Debug, PartialEq, Eq)]
pub struct Standing {
    /// The client.
    pub client: u32,
    /// The thread.
    pub thread: u32,
    /// What stands for it.
    pub stand: Stand,
}
