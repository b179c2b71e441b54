ghost use Rattle.std.specs.Prelude.{◌≡◌};
ghost use Rattle.lr_objects.specs.Form.{FitsAmount};
ghost use Rattle.lr_objects.specs.CountdownCalls.{countdown_form, countdown_call_of, IsCountdownCall};

use crate::amount::Amount;
use crate::form::{Arguments, Begins, Form};

/// The functions of a countdown latch, without their arguments.
#[derive(Clone, Copy, Debug, PartialEq, Eq)]
pub enum CountdownFunction {
    /// Set the count.
    Set,
    /// Count down by one.
    Down,
    /// Ask for the count.
    Count,
}

/// A call of a function of a countdown latch.
#[derive(Clone, Copy, PartialEq, Eq)]
pub enum CountdownCall {
    /// Set the count, where it is at 0.
    Set {
        /// The count.
        number: Amount,
    },
    /// Count down by one.
    Down,
    /// Tell the count.
    Count,
}

impl CountdownFunction {
    /// How the function is written and used.
    pub fn form(self) -> Form
        ensures { result ≡ countdown_form self }
    {
        match self {
            CountdownFunction::Set => Form::new(b"latch_set", Arguments::Number, Begins::AtOnce),
            CountdownFunction::Down => Form::new(b"latch_down", Arguments::Nothing, Begins::AtOnce),
            CountdownFunction::Count => {
                Form::new(b"latch_count", Arguments::Nothing, Begins::MayWait)
            }
        }
    }

    /// The call of the function, with a number where it is given one.
    pub(crate) fn call(self, number: u64) -> CountdownCall
        requires { FitsAmount (countdown_form self).arguments number }
        ensures { result ≡ countdown_call_of self number }
    {
        match self {
            CountdownFunction::Set => CountdownCall::Set {
                number: Amount::new(number),
            },
            CountdownFunction::Down => CountdownCall::Down,
            CountdownFunction::Count => CountdownCall::Count,
        }
    }
}

impl CountdownCall {
    // What the types of its parts say of it.
    pub(crate) fn check(&self)
        ensures { IsCountdownCall self.now }
    {
        match self {
            CountdownCall::Set { number } => {
                let _number = number.number();
            }
            CountdownCall::Down | CountdownCall::Count => (),
        }
    }
}
