ghost use Rattle.std.specs.Prelude.{◌≡◌};
ghost use Rattle.lr_objects.specs.Form.{FitsAmount};
ghost use Rattle.lr_objects.specs.SemaphoreCalls.{semaphore_form, semaphore_call_of, IsSemaphoreCall};

use crate::amount::Amount;
use crate::form::{Arguments, Begins, Form};

/// The functions of a semaphore, without their arguments.
#[derive(Clone, Copy, Debug, PartialEq, Eq)]
pub enum SemaphoreFunction {
    /// Set the number of permits.
    Set,
    /// Take permits.
    Try,
    /// Give permits back, or add some.
    Release,
    /// Ask how many permits are free.
    Count,
}

/// A call of a function of a semaphore.
#[derive(Clone, Copy, PartialEq, Eq)]
pub enum SemaphoreCall {
    /// Set the number of permits, where there is none yet.
    Set {
        /// How many permits there are.
        number: Amount,
    },
    /// Take so many permits at once, or none.
    Try {
        /// How many permits are taken.
        number: Amount,
    },
    /// Give so many permits back, or add them.
    Release {
        /// How many permits are given.
        number: Amount,
    },
    /// Tell how many permits are free.
    Count,
}

impl SemaphoreFunction {
    /// How the function is written and used.
    pub fn form(self) -> Form
        ensures { result ≡ semaphore_form self }
    {
        match self {
            SemaphoreFunction::Set => Form::new(b"sem_set", Arguments::Number, Begins::AtOnce),
            SemaphoreFunction::Try => Form::new(b"sem_try", Arguments::Number, Begins::MayWait),
            SemaphoreFunction::Release => {
                Form::new(b"sem_release", Arguments::Number, Begins::AtOnce)
            }
            SemaphoreFunction::Count => Form::new(b"sem_count", Arguments::Nothing, Begins::AtOnce),
        }
    }

    /// The call of the function, with a number where it is given one.
    pub(crate) fn call(self, number: u64) -> SemaphoreCall
        requires { FitsAmount (semaphore_form self).arguments number }
        ensures { result ≡ semaphore_call_of self number }
    {
        match self {
            SemaphoreFunction::Set => SemaphoreCall::Set {
                number: Amount::new(number),
            },
            SemaphoreFunction::Try => SemaphoreCall::Try {
                number: Amount::new(number),
            },
            SemaphoreFunction::Release => SemaphoreCall::Release {
                number: Amount::new(number),
            },
            SemaphoreFunction::Count => SemaphoreCall::Count,
        }
    }
}

impl SemaphoreCall {
    // What the types of its parts say of it.
    pub(crate) fn check(&self)
        ensures { IsSemaphoreCall self.now }
    {
        match self {
            SemaphoreCall::Set { number }
            | SemaphoreCall::Try { number }
            | SemaphoreCall::Release { number } => {
                let _number = number.number();
            }
            SemaphoreCall::Count => (),
        }
    }
}
