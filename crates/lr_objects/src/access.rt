/// What an owner does with a read-write lock that it holds.
#[derive(Clone, Copy, Debug, PartialEq, Eq)]
pub enum Access {
    /// It reads, beside others who read.
    Read,
    /// It writes, and nobody else reads or writes.
    Write,
}
