use crate::lines::{comes_back, is_read};
use lr_names::{Name, Owner};
use lr_objects::{
    Access, Amount, Call, CountdownCall, FairCall, FencedCall, LockCall, Op, PermitCall,
    ReadWriteCall, SemaphoreCall,
};
use std::alloc::{AllocError, Global};
use std::test::Fail;
use uuid::Uuid;

// A call of each function.
const LINES: [&[u8]; 28] = [
    b"FCALL lock_try 1 a 00000000-0000-0000-0000-000000000001:1 30000",
    b"FCALL lock_unlock 1 a 00000000-0000-0000-0000-000000000001:2 0",
    b"FCALL lock_renew 1 a 00000000-0000-0000-0000-000000000001:256 18446744073709551615",
    b"FCALL lock_force 1 a",
    b"FCALL fair_try 1 f.1 00000000-0000-0000-0000-000000000001:1 30000 0",
    b"FCALL fair_unlock 1 f_1 00000000-0000-0000-0000-000000000001:1 30000",
    b"FCALL fair_leave 1 f-1 00000000-0000-0000-0000-000000000001:1",
    b"FCALL fair_renew 1 f 00000000-0000-0000-0000-000000000001:1 30000",
    b"FCALL rw_read 1 rw 00000000-0000-0000-0000-000000000001:1 30000",
    b"FCALL rw_write 1 rw 00000000-0000-0000-0000-000000000001:1 30000",
    b"FCALL rw_unlock_read 1 rw 00000000-0000-0000-0000-000000000001:1 30000",
    b"FCALL rw_unlock_write 1 rw 00000000-0000-0000-0000-000000000001:1 30000",
    b"FCALL rw_renew 1 rw 00000000-0000-0000-0000-000000000001:1 0 30000",
    b"FCALL fenced_try 1 g 00000000-0000-0000-0000-000000000001:1 30000",
    b"FCALL fenced_unlock 1 g 00000000-0000-0000-0000-000000000001:1 30000",
    b"FCALL fenced_renew 1 g 00000000-0000-0000-0000-000000000001:1 30000",
    b"FCALL fenced_token 1 g",
    b"FCALL sem_set 1 s 1",
    b"FCALL sem_try 1 s 1000000000",
    b"FCALL sem_release 1 s 10",
    b"FCALL sem_count 1 s",
    b"FCALL permit_set 1 p 3",
    b"FCALL permit_try 1 p 0f1e2d3c-4b5a-6978-8796-a5b4c3d2e1f0 30000",
    b"FCALL permit_release 1 p 0f1e2d3c-4b5a-6978-8796-a5b4c3d2e1f0",
    b"FCALL permit_count 1 p",
    b"FCALL latch_set 1 l 7",
    b"FCALL latch_down 1 l",
    b"FCALL latch_count 1 l",
];

fn all_come_back(alloc: Global) -> Result<bool, AllocError> {
    for line in LINES {
        if !comes_back(alloc, line)? {
            return Ok(false);
        }
    }
    Ok(true)
}

#[test]
fn each_function_comes_back(rt: HostRuntime) -> Result<(), Fail> {
    assert!(rt; all_come_back(rt.alloc())?);
    Ok(())
}

fn owner() -> Owner {
    Owner::new(Uuid::from_u128(1), 1)
}

// Whether a line is read as this call on the object `a`.
fn is_call(alloc: Global, line: &[u8], call: Call) -> Result<bool, AllocError> {
    let Ok(name) = Name::parse(b"a") else {
        return Ok(false);
    };
    is_read(alloc, line, &Op { name, call })
}

// The lease stands before the choice of the queue, 1 to take a place.
fn queue_is_read(alloc: Global) -> Result<bool, AllocError> {
    let call = FairCall::Try {
        owner: owner(),
        lease: 0,
        queue: true,
    };
    let line = b"FCALL fair_try 1 a 00000000-0000-0000-0000-000000000001:1 0 1";
    is_call(alloc, line, Call::Fair(call))
}

// The mode stands before the lease, 1 for a hold to write.
fn mode_is_read(alloc: Global) -> Result<bool, AllocError> {
    let call = ReadWriteCall::Renew {
        access: Access::Write,
        owner: owner(),
        lease: 0,
    };
    let line = b"FCALL rw_renew 1 a 00000000-0000-0000-0000-000000000001:1 1 0";
    is_call(alloc, line, Call::ReadWrite(call))
}

fn unlock_is_read(alloc: Global) -> Result<bool, AllocError> {
    let call = ReadWriteCall::Unlock {
        access: Access::Write,
        owner: owner(),
        rest: 5,
    };
    let line = b"FCALL rw_unlock_write 1 a 00000000-0000-0000-0000-000000000001:1 5";
    is_call(alloc, line, Call::ReadWrite(call))
}

fn lock_is_read(alloc: Global) -> Result<bool, AllocError> {
    let call = LockCall::Renew {
        owner: owner(),
        lease: u64::MAX,
    };
    let line = b"FCALL lock_renew 1 a 00000000-0000-0000-0000-000000000001:1 18446744073709551615";
    is_call(alloc, line, Call::Lock(call))
}

fn token_is_read(alloc: Global) -> Result<bool, AllocError> {
    let call = Call::Fenced(FencedCall::Token);
    is_call(alloc, b"FCALL fenced_token 1 a", call)
}

fn number_is_read(alloc: Global) -> Result<bool, AllocError> {
    let call = SemaphoreCall::Release {
        number: Amount::new(1_000_000_000),
    };
    is_call(
        alloc,
        b"FCALL sem_release 1 a 1000000000",
        Call::Semaphore(call),
    )
}

fn id_is_read(alloc: Global) -> Result<bool, AllocError> {
    let call = PermitCall::Try {
        id: Uuid::from_u128(10),
        lease: 6,
    };
    let line = b"FCALL permit_try 1 a 00000000-0000-0000-0000-00000000000a 6";
    is_call(alloc, line, Call::Permits(call))
}

fn count_is_read(alloc: Global) -> Result<bool, AllocError> {
    let call = Call::Countdown(CountdownCall::Down);
    is_call(alloc, b"FCALL latch_down 1 a", call)
}

#[test]
fn owners_and_leases_are_read(rt: HostRuntime) -> Result<(), Fail> {
    assert!(rt; lock_is_read(rt.alloc())? && unlock_is_read(rt.alloc())?);
    assert!(rt; queue_is_read(rt.alloc())? && mode_is_read(rt.alloc())?);
    Ok(())
}

#[test]
fn other_arguments_are_read(rt: HostRuntime) -> Result<(), Fail> {
    assert!(rt; number_is_read(rt.alloc())? && id_is_read(rt.alloc())?);
    assert!(rt; token_is_read(rt.alloc())? && count_is_read(rt.alloc())?);
    Ok(())
}
