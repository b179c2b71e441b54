// How a program ended.
ghost use Rattle.std.specs.Prelude.{◌≡◌};
ghost use Rattle.lr_outside.specs.Status.{number_of};

/// How a run of a program ended.
#[derive(Clone, Copy, Debug, PartialEq, Eq)]
pub enum Status {
    /// All was done.
    Done,
    /// The program was called with other words than it takes.
    Usage,
    /// A read failed, or nothing more could be accepted.
    ReadFault,
    /// A write failed.
    WriteFault,
    /// The line of this number, counted from 1, isn't one that the program takes.
    BadLine(u64),
    /// Memory ran out.
    NoMemory,
    /// A limit of the program was passed: the line of this number passes it, or so many passes were
    /// made.
    TooMany(u64),
    /// The answer to the line of this number, or of this check, is wrong.
    Wrong(u64),
    /// The client or its connection is closed.
    Closed,
}

impl Status {
    /// The exit status that tells it.
    pub fn number(&self) -> u8
        ensures { result ≡ number_of self.now }
    {
        match self {
            Status::Done => 0,
            Status::Usage => 2,
            Status::ReadFault => 3,
            Status::WriteFault => 4,
            Status::BadLine(_) => 5,
            Status::NoMemory => 6,
            Status::TooMany(_) => 7,
            Status::Wrong(_) => 8,
            Status::Closed => 9,
        }
    }
}
