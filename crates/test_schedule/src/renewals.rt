use crate::schedule::{begins, is_event, is_explained, want, writes};
use lr_limits::MOST_EVENTS;
use lr_machine::{Event, Found, ScheduleLine, Shown};
use lr_names::Name;
use lr_objects::{
    FairFunction, FencedFunction, Function, Lease, LockFunction, Mode, ReadWriteFunction, Want,
};
use lr_schedule::read_line;
use lr_text::Text;
use lr_waiting::{RenewTaken, WatchKind};
use std::alloc::{AllocError, Global};
use std::test::Fail;

// The three lines of a renewal, for each kind.
const RENEWALS: [(WatchKind, [&str; 3]); 5] = [
    (
        WatchKind::Lock,
        [
            "rask 64 256 lock a",
            "rexec 64 256 lock a",
            "rtake 64 256 lock a",
        ],
    ),
    (
        WatchKind::Fair,
        [
            "rask 64 256 fair a",
            "rexec 64 256 fair a",
            "rtake 64 256 fair a",
        ],
    ),
    (
        WatchKind::Fenced,
        [
            "rask 64 256 fenced a",
            "rexec 64 256 fenced a",
            "rtake 64 256 fenced a",
        ],
    ),
    (
        WatchKind::Read,
        [
            "rask 64 256 read a",
            "rexec 64 256 read a",
            "rtake 64 256 read a",
        ],
    ),
    (
        WatchKind::Write,
        [
            "rask 64 256 write a",
            "rexec 64 256 write a",
            "rtake 64 256 write a",
        ],
    ),
];

// Every function that is given the lease of a hold, with the watchdog's.
const WATCHED: [(Function, &str); 10] = [
    (
        Function::Lock(LockFunction::Try),
        "begin 64 256 once lock_try a watch",
    ),
    (
        Function::Lock(LockFunction::Unlock),
        "begin 64 256 once lock_unlock a watch",
    ),
    (
        Function::Fair(FairFunction::Try),
        "begin 64 256 once fair_try a watch",
    ),
    (
        Function::Fair(FairFunction::Unlock),
        "begin 64 256 once fair_unlock a watch",
    ),
    (
        Function::ReadWrite(ReadWriteFunction::Read),
        "begin 64 256 once rw_read a watch",
    ),
    (
        Function::ReadWrite(ReadWriteFunction::Write),
        "begin 64 256 once rw_write a watch",
    ),
    (
        Function::ReadWrite(ReadWriteFunction::UnlockRead),
        "begin 64 256 once rw_unlock_read a watch",
    ),
    (
        Function::ReadWrite(ReadWriteFunction::UnlockWrite),
        "begin 64 256 once rw_unlock_write a watch",
    ),
    (
        Function::Fenced(FencedFunction::Try),
        "begin 64 256 once fenced_try a watch",
    ),
    (
        Function::Fenced(FencedFunction::Unlock),
        "begin 64 256 once fenced_unlock a watch",
    ),
];

const BAD_LINES: [&str; 24] = [
    "rask",
    "rask 1 1",
    "rask 1 1 lock",
    "rask 1 1 a",
    "rask 1 1 a lock",
    "rask 1 lock a",
    "rask 1 1 lock a ",
    "rask 1 1 lock a b",
    "rask 1 1 lock a:b",
    "rask 01 1 lock a",
    "rexec 1 01 lock a",
    "rexec 1 1 Lock a",
    "rexec 1 1 mutex a",
    "rexec 1 1 lock_try a",
    "rexec 1 1 rw a",
    "rtake 1 1 reader a",
    "rtake 1 1 rea a",
    "rtake 1 1  a",
    "renew 1 1 lock a",
    "begin 1 1 once lock_try a Watch",
    "begin 1 1 once lock_try a watch 5",
    "begin 1 1 watch lock_try a 5",
    "begin 1 1 once sem_try a watch",
    "begin 1 1 once permit_try a 00000000-0000-0000-0000-0000000000ff watch",
];

const LINES_OUTSIDE: [&str; 6] = [
    "rask 65 1 lock a",
    "rask 64 257 fair a",
    "rexec 0 1 fenced a",
    "rexec 1 0 read a",
    "rtake 18446744073709551615 1 write a",
    "rtake 1 18446744073709551615 lock a",
];

// Lines, and what is said of each before it is shown.
const REASONS: [(&str, &str); 8] = [
    (
        "rask 1 1 mutex a",
        "\"mutex\" is no kind; kinds are lock, fair, fenced, read, write (word 4 of ",
    ),
    (
        "rexec 1 1",
        "there is no kind; kinds are lock, fair, fenced, read, write (word 4 of ",
    ),
    (
        "rtake 1 1 lock a!",
        "\"a!\" is no name; names are 1 to 64 letters, digits, _, . or - (word 5 of ",
    ),
    (
        "rask 1 1 lock a b",
        "\"b\" is too much; the line should be over (word 6 of ",
    ),
    (
        "rexec 65 1 lock a",
        "client 65: clients are 1 to 64 (word 2 of ",
    ),
    (
        "rtake 64 257 lock a",
        "thread 257: threads are 1 to 256 (word 3 of ",
    ),
    (
        "begin 1 1 once rw_read a Watch",
        "\"Watch\" is no lease; leases are watch, or milliseconds, 0 to 18446744073709551615, \
         with no leading zeros (word 7 of ",
    ),
    (
        "begin 1 1 once permit_try a 00000000-0000-0000-0000-0000000000ff watch",
        "\"watch\" is no lease; leases of permits are milliseconds, 0 to 18446744073709551615, \
         with no leading zeros (word 8 of ",
    ),
];

// Whether these are the lines of a renewal of the hold of client 64's thread 256.
fn are_of_renewal(lines: &[&str; 3], kind: WatchKind, name: Name) -> bool {
    let (client, thread) = (64, 256);
    let asked = Event::RenewAsk {
        client,
        thread,
        kind,
        name,
    };
    let executed = Event::RenewExec {
        client,
        thread,
        kind,
        name,
    };
    let taken = Event::RenewTake {
        client,
        thread,
        kind,
        name,
    };
    is_event(lines[0], asked) && is_event(lines[1], executed) && is_event(lines[2], taken)
}

fn renewals_are_read(name: Name) -> bool {
    for (kind, lines) in RENEWALS {
        if !are_of_renewal(&lines, kind, name) {
            return false;
        }
    }
    true
}

fn watched_leases_are_read(name: Name) -> bool {
    for (function, line) in WATCHED {
        let watched = Want {
            function,
            lease: Lease::Watch,
            ..want(name)
        };
        if !begins(line, Mode::Once, &watched) {
            return false;
        }
    }
    true
}

fn bad_lines_are_bad() -> bool {
    BAD_LINES
        .iter()
        .all(|line| read_line(1, line.as_bytes()) == ScheduleLine::Bad)
}

fn lines_outside_are_too_many() -> bool {
    let outside = LINES_OUTSIDE.iter().all(|line| read_line(1, line.as_bytes())
        == ScheduleLine::TooMany);
    outside && read_line(MOST_EVENTS + 1, b"rask 1 1 lock a") == ScheduleLine::TooMany
}

#[test]
fn renewals_of_holds_are_read(rt: HostRuntime) -> Result<(), Fail> {
    let name = Name::parse(b"a")?;
    let read = renewals_are_read(name) && watched_leases_are_read(name);
    assert!(rt; read && bad_lines_are_bad() && lines_outside_are_too_many());
    Ok(())
}

fn renewals_are_written(out: &mut Text) -> Result<bool, AllocError> {
    let due = Shown::RenewTaken(RenewTaken::Due(9_007_199_254_740_991));
    let ended = Shown::RenewTaken(RenewTaken::Ended);
    let stale = Shown::RenewTaken(RenewTaken::Stale);
    Ok(
        writes(out, 1, &Shown::RenewAsked, "1 renew-asked\n")?
            && writes(out, 2, &due, "2 due 9007199254740991\n")?
            && writes(out, 3, &ended, "3 ended\n")?
            && writes(out, 4, &stale, "4 stale\n")?,
    )
}

fn findings_are_written(out: &mut Text) -> Result<bool, AllocError> {
    Ok(
        writes(out, 5, &Shown::No(Found::Watch), "5 no watch\n")?
            && writes(out, 6, &Shown::No(Found::Renewing), "6 no renewing\n")?
            && writes(out, 7, &Shown::No(Found::Due), "7 no due\n")?
            && writes(out, 8, &Shown::No(Found::Renewal), "8 no renewal\n")?,
    )
}

#[test]
fn renewals_of_holds_are_written(rt: HostRuntime) -> Result<(), Fail> {
    let mut out = Text::new(rt.alloc());
    assert!(rt; renewals_are_written(&mut out)? && findings_are_written(&mut out)?);
    Ok(())
}

fn reasons_are_told(alloc: Global) -> Result<bool, AllocError> {
    for (line, reason) in REASONS {
        let shown = format!(in alloc; "\"{line}\"")?;
        if !is_explained(alloc, line.as_bytes(), reason, shown.as_str())? {
            return Ok(false);
        }
    }
    Ok(true)
}

#[test]
fn bad_renewals_are_explained(rt: HostRuntime) -> Result<(), Fail> {
    assert!(rt; reasons_are_told(rt.alloc())?);
    Ok(())
}
