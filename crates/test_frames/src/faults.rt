use crate::lines::fault_of;
use lr_frames::OpFault;
use std::alloc::{AllocError, Global};
use std::test::Fail;

// Without a function or a count of keys nothing else is judged; then the function, whatever the
// others are.
const FUNCTIONS: [(&[u8], OpFault); 7] = [
    (b"FCALL", OpFault::WrongArguments),
    (b"FCALL nope", OpFault::WrongArguments),
    (b"FCALL lock_try", OpFault::WrongArguments),
    (b"FCALL nope 1", OpFault::NotFunction),
    (b"FCALL nope 2 a b c d e f", OpFault::NotFunction),
    (b"FCALL LOCK_TRY 1 a", OpFault::NotFunction),
    (b"FCALL lock_try2 1 a", OpFault::NotFunction),
];

// Then the number of the words and the count of keys, before names and numbers.
const COUNTS: [(&[u8], OpFault); 8] = [
    (b"FCALL lock_force 1", OpFault::WrongArguments),
    (b"FCALL lock_force 0 a", OpFault::WrongArguments),
    (b"FCALL lock_force 01 a", OpFault::WrongArguments),
    (b"FCALL lock_force 2 a b", OpFault::WrongArguments),
    (b"FCALL lock_force 1 a 5", OpFault::WrongArguments),
    (b"FCALL sem_set x a:b 0", OpFault::WrongArguments),
    (b"FCALL fair_try 1 a:b 1 2", OpFault::WrongArguments),
    (b"FCALL fair_try 1 a:b 1 2 3 4", OpFault::WrongArguments),
];

// Then names, owners and ids, before numbers.
const NAMES: [(&[u8], OpFault); 9] = [
    (b"FCALL lock_force 1 ", OpFault::BadName),
    (b"FCALL sem_set 1 a:b 0", OpFault::BadName),
    (b"FCALL sem_set 1 a/b 5", OpFault::BadName),
    (b"FCALL fair_leave 1 a me", OpFault::BadName),
    (
        b"FCALL lock_try 1 a 00000000-0000-0000-0000-000000000001:0 x",
        OpFault::BadName,
    ),
    (
        b"FCALL lock_try 1 a 00000000-0000-0000-0000-000000000001:257 5",
        OpFault::BadName,
    ),
    (
        b"FCALL rw_renew 1 a 00000000-0000-0000-0000-00000000000A:1 2 5",
        OpFault::BadName,
    ),
    (
        b"FCALL permit_try 1 a 00000000000000000000000000000001 x",
        OpFault::BadName,
    ),
    (
        b"FCALL permit_release 1 a 00000000-0000-0000-0000-000000000001:1",
        OpFault::BadName,
    ),
];

const NUMBERS: [(&[u8], OpFault); 10] = [
    (b"FCALL sem_set 1 a 0", OpFault::BadNumber),
    (b"FCALL sem_try 1 a 1000000001", OpFault::BadNumber),
    (b"FCALL latch_set 1 a 01", OpFault::BadNumber),
    (b"FCALL permit_set 1 a -1", OpFault::BadNumber),
    (
        b"FCALL lock_try 1 a 00000000-0000-0000-0000-000000000001:1 watch",
        OpFault::BadNumber,
    ),
    (
        b"FCALL lock_try 1 a 00000000-0000-0000-0000-000000000001:1 18446744073709551616",
        OpFault::BadNumber,
    ),
    (
        b"FCALL fair_try 1 a 00000000-0000-0000-0000-000000000001:1 5 2",
        OpFault::BadNumber,
    ),
    (
        b"FCALL fair_try 1 a 00000000-0000-0000-0000-000000000001:1 x 1",
        OpFault::BadNumber,
    ),
    (
        b"FCALL rw_renew 1 a 00000000-0000-0000-0000-000000000001:1 2 5",
        OpFault::BadNumber,
    ),
    (
        b"FCALL permit_try 1 a 00000000-0000-0000-0000-000000000001 +5",
        OpFault::BadNumber,
    ),
];

// Whether each of these lines has its fault.
fn have_faults(alloc: Global, lines: &[(&[u8], OpFault)]) -> Result<bool, AllocError> {
    for (line, fault) in lines {
        if fault_of(alloc, line)? != Some(*fault) {
            return Ok(false);
        }
    }
    Ok(true)
}

#[test]
fn functions_are_judged_first(rt: HostRuntime) -> Result<(), Fail> {
    assert!(rt; have_faults(rt.alloc(), &FUNCTIONS)?);
    Ok(())
}

#[test]
fn counts_are_judged_next(rt: HostRuntime) -> Result<(), Fail> {
    assert!(rt; have_faults(rt.alloc(), &COUNTS)?);
    Ok(())
}

#[test]
fn names_are_judged_before_numbers(rt: HostRuntime) -> Result<(), Fail> {
    assert!(rt; have_faults(rt.alloc(), &NAMES)?);
    Ok(())
}

#[test]
fn numbers_are_judged_last(rt: HostRuntime) -> Result<(), Fail> {
    assert!(rt; have_faults(rt.alloc(), &NUMBERS)?);
    Ok(())
}
