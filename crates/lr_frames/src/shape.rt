ghost use Rattle.std.specs.Prelude.{◌≡◌};
ghost use Rattle.lr_frames.specs.Shape.{plain_shape, fair_shape, read_write_shape, shape_of, shape_len};

use lr_objects::{Arguments, FairFunction, Function, ReadWriteFunction};

/// What a function is given in an FCALL behind the name of the object, in this order.
#[derive(Clone, Copy, Debug, PartialEq, Eq)]
pub enum Shape {
    /// Nothing.
    Nothing,
    /// An owner.
    Owner,
    /// An owner and a lease in milliseconds.
    OwnerLease,
    /// An owner, a lease, and 1 to take a place in the queue, or 0.
    OwnerLeaseQueue,
    /// An owner, 0 for a hold to read or 1 for one to write, and a lease.
    OwnerModeLease,
    /// A number of permits or counts.
    Number,
    /// The id of a permit.
    Id,
    /// The id of a permit and a lease.
    IdLease,
}

impl Shape {
    /// What this function is given.
    pub fn of(function: Function) -> Shape
        ensures { result ≡ shape_of function }
    {
        match function {
            Function::Fair(function) => Shape::of_fair(function),
            Function::ReadWrite(function) => Shape::of_read_write(function),
            Function::Lock(_)
            | Function::Fenced(_)
            | Function::Semaphore(_)
            | Function::Permits(_)
            | Function::Countdown(_) => Shape::plain(function.arguments()),
        }
    }

    // A function that is given a lease has an owner too.
    fn plain(arguments: Arguments) -> Shape
        ensures { result ≡ plain_shape arguments }
    {
        match arguments {
            Arguments::Lease => Shape::OwnerLease,
            Arguments::Number => Shape::Number,
            Arguments::Nothing => Shape::Nothing,
            Arguments::Id => Shape::Id,
            Arguments::IdAndLease => Shape::IdLease,
        }
    }

    fn of_fair(function: FairFunction) -> Shape
        ensures { result ≡ fair_shape function }
    {
        match function {
            FairFunction::Try => Shape::OwnerLeaseQueue,
            FairFunction::Leave => Shape::Owner,
            FairFunction::Unlock | FairFunction::Renew => Shape::OwnerLease,
        }
    }

    fn of_read_write(function: ReadWriteFunction) -> Shape
        ensures { result ≡ read_write_shape function }
    {
        match function {
            ReadWriteFunction::Read
            | ReadWriteFunction::Write
            | ReadWriteFunction::UnlockRead
            | ReadWriteFunction::UnlockWrite => Shape::OwnerLease,
            ReadWriteFunction::Renew => Shape::OwnerModeLease,
        }
    }

    /// How many words this is.
    pub fn len(self) -> usize
        ensures { result ≡ shape_len self }
    {
        match self {
            Shape::Nothing => 0,
            Shape::Owner | Shape::Number | Shape::Id => 1,
            Shape::OwnerLease | Shape::IdLease => 2,
            Shape::OwnerLeaseQueue | Shape::OwnerModeLease => 3,
        }
    }
}
