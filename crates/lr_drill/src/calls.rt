// The calls that a thread of a race makes.
ghost use Rattle.std.specs.Prelude.{◌≡◌, ◌<◌};
ghost use Rattle.lr_names.specs.Name.{IsName};
ghost use Rattle.lr_names.specs.Owner.{IsThread};
ghost use Rattle.lr_drill.specs.Race.{racer, race_lock, race_call, race_op};

use lr_names::{Name, Owner};
use lr_objects::{Call, LockCall, Op};
use uuid::Uuid;

/// The lease of each hold, in milliseconds.
const LEASE: u64 = 1000;

/// Call number `number` of a thread, from 0.
pub fn call_of(thread: u32, number: u32) -> Op
    requires { IsThread thread }
    ensures { result ≡ race_op thread number }
{
    Op {
        name: lock_name(number / 2 % 4),
        call: Call::Lock(lock_call(thread, number)),
    }
}

// Even calls take a lock, and odd ones give it back.
fn lock_call(thread: u32, number: u32) -> LockCall
    requires { IsThread thread }
    ensures { result ≡ race_call thread number }
{
    let owner = owner_of(thread);
    if number % 2 == 0 {
        LockCall::Try {
            owner,
            lease: LEASE,
        }
    } else {
        LockCall::Unlock { owner, rest: LEASE }
    }
}

// The owner of a thread: all threads are of one client.
fn owner_of(thread: u32) -> Owner
    requires { IsThread thread }
    ensures { result ≡ racer thread }
{
    Owner::new(Uuid::from_u128(1), thread)
}

// The name of the lock at this place, of four.
fn lock_name(place: u32) -> Name
    requires { place < 4 }
    ensures { result ≡ race_lock place }
{
    match place {
        0 => name_of(b"n0"),
        1 => name_of(b"n1"),
        2 => name_of(b"n2"),
        _ => name_of(b"n3"),
    }
}

fn name_of(text: &[u8]) -> Name
    requires { IsName text.now }
    ensures { result ≡ text.now }
{
    Name::parse(text).unwrap()
}
