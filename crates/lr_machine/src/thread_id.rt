/// A thread of a client.
#[derive(Clone, Copy, Debug, PartialEq, Eq, Hash)]
pub struct ThreadId {
    /// The client's number.
    pub client: u32,
    /// The thread's number in its client.
    pub thread: u32,
}
