ghost use Rattle.std.specs.Prelude.{◌≡◌};
ghost use Rattle.lr_requests.specs.Refusal.{fault_text, call_fault};
ghost use Rattle.lr_requests.specs.declared.fault.CommandFault.TheVariants.{NoMemory};

use lr_frames::OpFault;
use std::alloc::AllocError;

/// Why a frame asks for nothing. The faults are tested in this order, and the first that fits is
/// told; want of memory may come in the place of any but the first.
#[derive(Clone, Copy, Debug, PartialEq, Eq)]
pub enum CommandFault {
    /// The frame isn't an array of at least one bulk string and nothing else.
    NotARequest,
    /// The command writes, which only functions may do here.
    NotWritable,
    /// No command has this word.
    UnknownCommand,
    /// The command has fewer or more arguments, or the count of keys of a call isn't 1.
    WrongArguments,
    /// No function has the word that a call names.
    NotFunction,
    /// A channel isn't spelled right.
    BadChannel,
    /// The name of an object, an owner or an id isn't spelled right.
    BadName,
    /// A number isn't spelled right, or isn't within its limits.
    BadNumber,
    /// There is no memory for the request.
    NoMemory,
}

impl CommandFault {
    /// The text of the error that a connection is answered.
    pub fn text(self) -> &'static [u8]
        ensures { result.now ≡ fault_text self }
    {
        match self {
            CommandFault::NotARequest => b"ERR not a request",
            CommandFault::NotWritable => b"ERR not writable here",
            CommandFault::UnknownCommand => b"ERR unknown command",
            CommandFault::WrongArguments => b"ERR wrong number of arguments",
            CommandFault::NotFunction => b"ERR Function not found",
            CommandFault::BadChannel => b"ERR bad channel",
            CommandFault::BadName => b"ERR bad name",
            CommandFault::BadNumber => b"ERR value is not an integer or out of range",
            CommandFault::NoMemory => b"ERR out of memory",
        }
    }
}

impl From<AllocError> for CommandFault {
    ghost from_gives = { λ _ e. e ≡ NoMemory };

    fn from(_e: AllocError) -> CommandFault {
        CommandFault::NoMemory
    }
}

impl From<OpFault> for CommandFault {
    ghost from_gives = { λ fault e. e ≡ call_fault fault };

    fn from(fault: OpFault) -> CommandFault {
        match fault {
            OpFault::NotFunction => CommandFault::NotFunction,
            OpFault::WrongArguments => CommandFault::WrongArguments,
            OpFault::BadName => CommandFault::BadName,
            OpFault::BadNumber => CommandFault::BadNumber,
        }
    }
}
