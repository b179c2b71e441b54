ghost use Rattle.std.specs.Prelude.{◌≡◌};
ghost use Rattle.lr_objects.specs.Form.{may_begin};

use std::marker::Model;

/// What a function is given beside the object and its owner.
#[derive(Clone, Copy, Debug, PartialEq, Eq)]
pub enum Arguments {
    /// A lease, or the lease that a hold that stays gets.
    Lease,
    /// A number of permits or counts.
    Number,
    /// Nothing.
    Nothing,
    /// The id of a permit.
    Id,
    /// The id of a permit and a lease.
    IdAndLease,
}

/// Whether a request may begin with a function.
#[derive(Clone, Copy, Debug, PartialEq, Eq)]
pub enum Begins {
    /// No request begins with it.
    Never,
    /// A request may begin with it, and has its reply at once.
    AtOnce,
    /// A request may begin with it, and may wait until the object is free.
    MayWait,
}

impl Begins {
    /// Whether a request may begin so.
    pub fn may_begin(self) -> bool
        ensures { result ≡ may_begin self }
    {
        !matches!(self, Begins::Never)
    }
}

/// How a function is written and used.
#[derive(Drop)]
pub struct Form {
    /// Its word.
    pub word: &'static [u8],
    /// What it is given beside the object and its owner.
    pub arguments: Arguments,
    /// Whether a request may begin with it.
    pub begins: Begins,
}

impl Model for Form {
    ghost use Rattle.lr_objects.specs.Form.{FormOf};

    ghost Value = { FormOf };

    ghost view = { λ f. record {
      word = f.word.now;
      arguments = f.arguments;
      begins = f.begins;
    } };
}

impl Form {
    pub(crate) fn new(word: &'static [u8], arguments: Arguments, begins: Begins) -> Form
        ensures { result ≡ record { word = word.now; arguments = arguments; begins = begins } }
    {
        Form {
            word,
            arguments,
            begins,
        }
    }
}
