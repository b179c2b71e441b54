use crate::lines::are_asked;
use std::test::Fail;

// Each look, after its Redis command page, in mixed case.
const LOOKS: [(&[u8], &[u8]); 12] = [
    (b"EXISTS lock:a", b"exists lock:a"),
    (b"type lock:a", b"type lock:a"),
    (b"Pttl lock:a", b"time-left lock:a"),
    (b"gEt sem:a", b"get sem:a"),
    (b"hget lock:a F", b"hash-get lock:a F"),
    (b"HExists lock:a F", b"hash-exists lock:a F"),
    (b"HGETall LOCK:a", b"hash-get-all LOCK:a"),
    (b"lLEN fairq:a", b"list-length fairq:a"),
    (b"zCard fairt:a", b"sorted-count fairt:a"),
    (b"LRange fairq:a 0 -1", b"list fairq:a 0 -1"),
    (b"zrange fairt:a -2 7", b"sorted fairt:a -2 7"),
    (b"zscorE fairt:a M", b"sorted-score fairt:a M"),
];

const OTHERS: [(&[u8], &[u8]); 9] = [
    (b"ping", b"ping"),
    (b"PinG hello", b"ping hello"),
    (b"quiT", b"quit"),
    (b"Subscribe ch:lock:a", b"subscribe ch:lock:a"),
    (
        b"SUBSCRIBE ch:rw:b ch:latch:a ch:rw:b",
        b"subscribe ch:rw:b ch:latch:a ch:rw:b",
    ),
    (
        b"UNsubscribe ch:fair:a:00000000-0000-0000-0000-000000000001:2 ch:sem:c",
        b"unsubscribe ch:fair:a:00000000-0000-0000-0000-000000000001:2 ch:sem:c",
    ),
    (b"unSUBSCRIBE", b"unsubscribe all"),
    (b"fcall sem_try 1 s 5", b"sem_try 1 s 5"),
    (
        b"FCall fair_try 1 a 00000000-0000-0000-0000-000000000001:2 30000 1",
        b"fair_try 1 a 00000000-0000-0000-0000-000000000001:2 30000 1",
    ),
];

// The least and the greatest places; keys and texts of no bytes are some too.
const EDGES: [(&[u8], &[u8]); 4] = [
    (
        b"LRANGE k -9223372036854775808 9223372036854775807",
        b"list k -9223372036854775808 9223372036854775807",
    ),
    (b"ZRANGE k 0 10", b"sorted k 0 10"),
    (b"GET ", b"get "),
    (b"PING ", b"ping "),
];

#[test]
fn each_look_is_asked(rt: HostRuntime) -> Result<(), Fail> {
    assert!(rt; are_asked(rt.alloc(), LOOKS.as_slice())?);
    Ok(())
}

#[test]
fn each_other_command_is_asked(rt: HostRuntime) -> Result<(), Fail> {
    assert!(rt; are_asked(rt.alloc(), OTHERS.as_slice())?);
    Ok(())
}

#[test]
fn edges_are_asked(rt: HostRuntime) -> Result<(), Fail> {
    assert!(rt; are_asked(rt.alloc(), EDGES.as_slice())?);
    Ok(())
}
