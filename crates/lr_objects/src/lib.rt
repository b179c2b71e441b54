//! What a client asks of an object, and what it is answered. Each kind of object has a file of its
//! own.
#![tactic(auto)]

mod access;
mod amount;
mod countdown;
mod fair;
mod fenced;
mod form;
mod function;
mod kinds;
mod lock;
mod op;
mod permits;
mod read_write;
mod reply;
mod semaphore;
mod want;

pub use access::Access;
pub use amount::Amount;
pub use countdown::{CountdownCall, CountdownFunction};
pub use fair::{FairCall, FairFunction};
pub use fenced::{FencedCall, FencedFunction};
pub use form::{Arguments, Begins, Form};
pub use kinds::{Call, Function};
pub use lock::{LockCall, LockFunction};
pub use op::Op;
pub use permits::{PermitCall, PermitFunction};
pub use read_write::{ReadWriteCall, ReadWriteFunction};
pub use reply::{Integer, Remaining, Reply};
pub use semaphore::{SemaphoreCall, SemaphoreFunction};
pub use want::{Lease, Mode, Want};
