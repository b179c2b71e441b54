ghost use Rattle.std.specs.Prelude.{◌↔◌, IsTrue};
ghost use Rattle.lr_requests.specs.Command.{Allows};

/// How many arguments a command has behind its word.
#[derive(Clone, Copy, Debug, PartialEq, Eq)]
pub enum Arity {
    /// This many.
    Exactly(usize),
    /// This many or more.
    AtLeast(usize),
    /// This many or fewer.
    AtMost(usize),
}

impl Arity {
    /// Whether this number of arguments fits.
    pub fn allows(self, number: usize) -> bool
        ensures { IsTrue result ↔ Allows self number }
    {
        match self {
            Arity::Exactly(count) => number == count,
            Arity::AtLeast(count) => count <= number,
            Arity::AtMost(count) => number <= count,
        }
    }
}
