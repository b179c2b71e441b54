use lr_limits::{LINE_BYTES, MOST_EVENTS};
use lr_machine::{
    Clients, Event, Found, Ordered, Reached, Replied, ScheduleLine, Shown, Standings,
};
use lr_names::{Channel, Due, Kind, Name, Owner};
use lr_objects::{
    CountdownFunction, FairFunction, FencedFunction, Function, Integer, Lease, LockFunction, Mode,
    PermitFunction, ReadWriteFunction, Remaining, Reply, SemaphoreFunction, Want,
};
use lr_schedule::{explain, read_line, write_bad, write_shown, write_too_many};
use lr_text::Text;
use lr_waiting::{Order, Phase, Stand, Standing};
use std::alloc::{AllocError, Global};
use std::test::Fail;
use uuid::Uuid;

const ID: &str = "00000000-0000-0000-0000-0000000000ff";

const BAD_LINES: [&str; 36] = [
    "",
    "ask 1",
    "ask 1 1 ",
    "ask  1 1",
    "ask 01 1",
    "Ask 1 1",
    "sleep 1 1",
    "tick 9007199254740992",
    "begin 1 1 0 lock_try a 30000",
    "begin 1 1 86400000001 lock_try a 30000",
    "begin 1 1 05 lock_try a 30000",
    "begin 1 1 Long lock_try a 30000",
    "begin 1 1 long lock_unlock a 5",
    "begin 1 1 long fair_unlock a 5",
    "begin 1 1 long rw_unlock_read a 5",
    "begin 1 1 long sem_release a 1",
    "begin 1 1 5 permit_count a",
    "begin 1 1 5 latch_down a",
    "begin 1 1 long latch_count a 1",
    "begin 1 1 once lock_renew a 30000",
    "begin 1 1 once fair_leave a",
    "begin 1 1 once fair_leave a 30000",
    "begin 1 1 once fair_renew a 30000",
    "begin 1 1 once fair_try a",
    "begin 1 1 once lock_try a:b 30000",
    "begin 1 1 once sem_try a 0",
    "begin 1 1 once sem_try a 1000000001",
    "begin 1 1 once permit_try a 00000000-0000-0000-0000-0000000000ff",
    "begin 1 1 once permit_try a 00000000-0000-0000-0000-0000000000FF 5",
    "force",
    "sub",
    "sub 1 1",
    "push 01",
    "cut x",
    "show 1",
    "show ",
];

const LINES_OUTSIDE: [&str; 9] = [
    "ask 65 1",
    "ask 0 1",
    "take 1 257",
    "exec 18446744073709551615 1",
    "begin 1 0 long lock_try a 5",
    "quit 64 18446744073709551615",
    "sub 65",
    "push 0",
    "cut 18446744073709551615",
];

const REPLIES: [(Reply, &str); 15] = [
    (Reply::Granted, "4 done granted\n"),
    (Reply::Kept, "4 done kept\n"),
    (Reply::Freed, "4 done freed\n"),
    (Reply::NotHeld, "4 done not-held\n"),
    (Reply::Renewed, "4 done renewed\n"),
    (Reply::Lost, "4 done lost\n"),
    (Reply::TooDeep, "4 done too-deep\n"),
    (Reply::BadLease, "4 done bad-lease\n"),
    (Reply::Short, "4 done short\n"),
    (Reply::Set, "4 done set\n"),
    (Reply::AlreadySet, "4 done already-set\n"),
    (Reply::Unknown, "4 done unknown\n"),
    (Reply::TooMany, "4 done too-many\n"),
    (Reply::TokensSpent, "4 done tokens-spent\n"),
    (Reply::Left, "4 done left\n"),
];

const FOUND: [(Found, &str); 12] = [
    (Found::Phase(Phase::Cut), "5 no cut\n"),
    (Found::Phase(Phase::Idle), "5 no idle\n"),
    (Found::Phase(Phase::Fresh), "5 no fresh\n"),
    (Found::Phase(Phase::Asked), "5 no asked\n"),
    (Found::Phase(Phase::Answered), "5 no answered\n"),
    (Found::Phase(Phase::Joining), "5 no joining\n"),
    (Found::Phase(Phase::Ready), "5 no ready\n"),
    (Found::Phase(Phase::Refused), "5 no refused\n"),
    (Found::Phase(Phase::Asleep), "5 no asleep\n"),
    (Found::Phase(Phase::Leaving), "5 no leaving\n"),
    (Found::Orders, "5 no orders\n"),
    (Found::Pushes, "5 no pushes\n"),
];

const STANDS: [(Stand, &str); 7] = [
    (Stand::Message, "6 64 256 message\n"),
    (Stand::Permit, "6 64 256 permit\n"),
    (Stand::Awake, "6 64 256 awake\n"),
    (Stand::Held, "6 64 256 held\n"),
    (Stand::Broadcast, "6 64 256 broadcast\n"),
    (
        Stand::Timer(9_007_199_254_740_991),
        "6 64 256 timer 9007199254740991\n",
    ),
    (Stand::Nobody, "6 64 256 nobody\n"),
];

// Words of functions that are none, or with which no request begins.
const NO_FUNCTIONS: [&str; 4] = ["lock_tyr", "lock_renew", "fair_leave", "fair_renew"];

// What is said of each of them.
const FUNCTIONS: &str = "functions are lock_try, lock_unlock, fair_try, fair_unlock, rw_read, \
                         rw_write, rw_unlock_read, rw_unlock_write, fenced_try, fenced_unlock, \
                         fenced_token, sem_set, sem_try, sem_release, sem_count, permit_set, \
                         permit_try, permit_release, permit_count, latch_set, latch_down, \
                         latch_count";

// Lines, and what is said of each before it is shown.
const REASONS: [(&str, &str); 14] = [
    (
        "begin 1 1 once lock_try a! 5",
        "\"a!\" is no name; names are 1 to 64 letters, digits, _, . or - (word 6 of ",
    ),
    (
        "begin 1 1 once lock_try a",
        "there is no lease; leases are watch, or milliseconds, 0 to 18446744073709551615, \
         with no leading zeros (word 7 of ",
    ),
    (
        "begin 1 1 0 lock_try a 5",
        "\"0\" is no mode; the mode is once, long, or milliseconds, 1 to 86400000000, \
         with no leading zeros (word 4 of ",
    ),
    (
        "begin 1 1 5 fair_unlock a 5",
        "\"5\" is no mode; with fair_unlock the mode is once (word 4 of ",
    ),
    (
        "begin 1 1 once fair_try a",
        "there is no lease; leases are watch, or milliseconds, 0 to 18446744073709551615, \
         with no leading zeros (word 7 of ",
    ),
    (
        "begin 1 1 long sem_release a! 1",
        "\"long\" is no mode; with sem_release the mode is once (word 4 of ",
    ),
    (
        "begin 65 1 once lock_try a 5",
        "client 65: clients are 1 to 64 (word 2 of ",
    ),
    ("ask 64 257", "thread 257: threads are 1 to 256 (word 3 of "),
    ("sub 65", "client 65: clients are 1 to 64 (word 2 of "),
    (
        "tick 05",
        "\"05\" is no moment; moments are milliseconds, 0 to 9007199254740991, \
         with no leading zeros (word 2 of ",
    ),
    (
        "",
        "there is no event; events begin with begin, ask, exec, take, check, wake, fire, quit, \
         sub, push, tick, rask, rexec, rtake, force, cut, show (word 1 of ",
    ),
    (
        "ask 1  1",
        "there is no thread; threads are 1 to 256, with no leading zeros (word 3 of ",
    ),
    (
        "show 1",
        "\"1\" is too much; the line should be over (word 2 of ",
    ),
    (
        "force a b",
        "\"b\" is too much; the line should be over (word 3 of ",
    ),
];

/// Whether a line is read to this event.
pub fn is_event(line: &str, event: Event) -> bool {
    read_line(MOST_EVENTS, line.as_bytes()) == ScheduleLine::Event(event)
}

/// A try of the lock with this name, for half a minute.
pub fn want(name: Name) -> Want {
    Want {
        function: Function::Lock(LockFunction::Try),
        name,
        lease: Lease::For(30_000),
        number: 0,
        id: Uuid::nil(),
    }
}

/// Whether a line is read to this request of client 64's thread 256.
pub fn begins(line: &str, mode: Mode, want: &Want) -> bool {
    is_event(
        line,
        Event::Begin {
            client: 64,
            thread: 256,
            mode,
            want: *want,
        },
    )
}

fn requests_are_read(want: &Want) -> bool {
    let longest = Mode::For(86_400_000_000);
    let fenced = Want {
        function: Function::Fenced(FencedFunction::Try),
        ..*want
    };
    begins("begin 64 256 once lock_try a 30000", Mode::Once, want)
        && begins("begin 64 256 long lock_try a 30000", Mode::Long, want)
        && begins("begin 64 256 1 lock_try a 30000", Mode::For(1), want)
        && begins("begin 64 256 86400000000 lock_try a 30000", longest, want)
        && begins("begin 64 256 long fenced_try a 30000", Mode::Long, &fenced)
}

// Requests for a fair lock: one that may wait, and one that doesn't.
fn fair_requests_are_read(want: &Want) -> bool {
    let fair = Want {
        function: Function::Fair(FairFunction::Try),
        ..*want
    };
    let unlock = Want {
        function: Function::Fair(FairFunction::Unlock),
        ..*want
    };
    begins("begin 64 256 once fair_try a 30000", Mode::Once, &fair)
        && begins("begin 64 256 5 fair_try a 30000", Mode::For(5), &fair)
        && begins("begin 64 256 long fair_try a 30000", Mode::Long, &fair)
        && begins("begin 64 256 once fair_unlock a 30000", Mode::Once, &unlock)
}

// Requests that may wait for an object that isn't one owner's.
fn requests_for_all_are_read(want: &Want) -> bool {
    let read = Want {
        function: Function::ReadWrite(ReadWriteFunction::Read),
        ..*want
    };
    let write = Want {
        function: Function::ReadWrite(ReadWriteFunction::Write),
        ..*want
    };
    begins("begin 64 256 long rw_read a 30000", Mode::Long, &read)
        && begins("begin 64 256 5 rw_write a 30000", Mode::For(5), &write)
        && numbers_are_waited_for(want)
}

fn numbers_are_waited_for(want: &Want) -> bool {
    let permits = Want {
        function: Function::Semaphore(SemaphoreFunction::Try),
        lease: Lease::For(0),
        number: 3,
        ..*want
    };
    let permit = Want {
        function: Function::Permits(PermitFunction::Try),
        id: Uuid::from_u128(255),
        ..*want
    };
    let latch = Want {
        function: Function::Countdown(CountdownFunction::Count),
        lease: Lease::For(0),
        ..*want
    };
    let taken = "begin 64 256 long permit_try a 00000000-0000-0000-0000-0000000000ff 30000";
    begins("begin 64 256 long sem_try a 3", Mode::Long, &permits)
        && begins(taken, Mode::Long, &permit)
        && begins("begin 64 256 long latch_count a", Mode::Long, &latch)
}

fn calls_are_read(client: u32, thread: u32) -> bool {
    is_event("ask 64 256", Event::Ask { client, thread })
        && is_event("exec 64 256", Event::Exec { client, thread })
        && is_event("take 64 256", Event::Take { client, thread })
}

fn waits_are_read(client: u32, thread: u32) -> bool {
    is_event("check 64 256", Event::Check { client, thread })
        && is_event("wake 64 256", Event::Wake { client, thread })
        && is_event("fire 64 256", Event::Fire { client, thread })
        && is_event("quit 64 256", Event::Quit { client, thread })
}

fn events_of_clients_are_read(client: u32) -> bool {
    is_event("sub 64", Event::Sub { client })
        && is_event("push 64", Event::Push { client })
        && is_event("cut 64", Event::Cut { client })
}

fn other_events_are_read(name: Name) -> bool {
    let last = Event::Tick(9_007_199_254_740_991);
    is_event("tick 9007199254740991", last)
        && is_event("force a", Event::Force(name))
        && is_event("show", Event::Show)
}

fn bad_lines_are_bad() -> bool {
    BAD_LINES.iter().all(|line| read_line(MOST_EVENTS + 1, line.as_bytes()) == ScheduleLine::Bad)
}

fn lines_outside_are_too_many() -> bool {
    let outside = LINES_OUTSIDE.iter().all(|line| read_line(1, line.as_bytes())
        == ScheduleLine::TooMany);
    outside && read_line(MOST_EVENTS + 1, b"tick 5") == ScheduleLine::TooMany
}

// Functions that take an amount, and one that takes nothing.
fn amounts_are_read(want: &Want) -> bool {
    let count = Want {
        function: Function::Semaphore(SemaphoreFunction::Count),
        lease: Lease::For(0),
        ..*want
    };
    let most = Want {
        function: Function::Semaphore(SemaphoreFunction::Release),
        number: 1_000_000_000,
        ..count
    };
    begins(
        "begin 64 256 once sem_release a 1000000000",
        Mode::Once,
        &most,
    ) && begins("begin 64 256 once sem_count a", Mode::Once, &count)
}

// A function that takes an id and no lease.
fn ids_are_read(want: &Want) -> bool {
    let release = Want {
        function: Function::Permits(PermitFunction::Release),
        lease: Lease::For(0),
        id: Uuid::from_u128(255),
        ..*want
    };
    let released = "begin 64 256 once permit_release a 00000000-0000-0000-0000-0000000000ff";
    begins(released, Mode::Once, &release)
}

#[test]
fn lines_are_read(rt: HostRuntime) -> Result<(), Fail> {
    let name = Name::parse(b"a")?;
    let tried = want(name);
    let threads = requests_are_read(&tried)
        && fair_requests_are_read(&tried)
        && requests_for_all_are_read(&tried)
        && calls_are_read(64, 256)
        && waits_are_read(64, 256);
    let others = events_of_clients_are_read(64) && other_events_are_read(name);
    let refused = bad_lines_are_bad() && lines_outside_are_too_many();
    let given = amounts_are_read(&tried) && ids_are_read(&tried);
    assert!(rt; threads && others && refused && given);
    Ok(())
}

/// Whether this line is written for what is shown.
pub fn writes(out: &mut Text, number: u64, shown: &Shown, line: &str) -> Result<bool, AllocError> {
    out.clear();
    write_shown(out, number, shown)?;
    Ok(out.as_slice() == line.as_bytes())
}

fn replies_are_written(out: &mut Text) -> Result<bool, AllocError> {
    for (reply, line) in REPLIES {
        if !writes(out, 4, &Shown::Done(reply), line)? {
            return Ok(false);
        }
    }
    Ok(true)
}

fn numbers_are_written(out: &mut Text) -> Result<bool, AllocError> {
    let token = Shown::Done(Reply::GrantedToken(Integer::new(9_007_199_254_740_991)));
    let count = Shown::Done(Reply::Count(Integer::new(0)));
    let busy = Shown::Done(Reply::Busy(Remaining::new(1)));
    Ok(
        writes(out, 1, &token, "1 done token 9007199254740991\n")?
            && writes(out, 2, &count, "2 done count 0\n")?
            && writes(out, 3, &busy, "3 done busy 1\n")?,
    )
}

fn calls_are_written(out: &mut Text) -> Result<bool, AllocError> {
    Ok(
        writes(out, 1, &Shown::Fresh, "1 fresh\n")?
            && writes(out, 2, &Shown::Asked, "2 asked\n")?
            && writes(out, 3, &Shown::Moment(29_999), "3 moment 29999\n")?
            && writes(out, u64::MAX, &Shown::Cut, "18446744073709551615 cut\n")?,
    )
}

fn waits_are_written(out: &mut Text) -> Result<bool, AllocError> {
    Ok(
        writes(out, 1, &Shown::Joining, "1 joining\n")?
            && writes(out, 2, &Shown::Ready, "2 ready\n")?
            && writes(out, 3, &Shown::ReadyByPermit, "3 ready permit\n")?
            && writes(out, 4, &Shown::ReadyByBroadcast, "4 ready broadcast\n")?
            && writes(out, 5, &Shown::ReadyByTimer, "5 ready timer\n")?,
    )
}

fn sleeps_are_written(out: &mut Text) -> Result<bool, AllocError> {
    let due = Due::At(u64::MAX);
    Ok(
        writes(
            out,
            1,
            &Shown::Refused(due),
            "1 refused 18446744073709551615\n",
        )? && writes(out, 2, &Shown::Refused(Due::Never), "2 refused never\n")?
            && writes(out, 3, &Shown::Asleep(Due::At(0)), "3 asleep 0\n")?
            && writes(out, 4, &Shown::Quit, "4 done quit\n")?
            && writes(out, 5, &Shown::Leaving, "5 leaving\n")?,
    )
}

fn findings_are_written(out: &mut Text) -> Result<bool, AllocError> {
    for (found, line) in FOUND {
        if !writes(out, 5, &Shown::No(found), line)? {
            return Ok(false);
        }
    }
    Ok(true)
}

fn pushes_are_written(out: &mut Text, channel: Channel) -> Result<bool, AllocError> {
    let ack = Shown::Acknowledged(channel, 256);
    let message = Shown::Delivered(channel, u64::MAX);
    Ok(
        writes(out, 1, &ack, "1 ack ch:lock:a 256\n")?
            && writes(out, 2, &Shown::Left(None), "2 unack\n")?
            && writes(out, 3, &Shown::Left(Some(channel)), "3 unack ch:lock:a\n")?
            && writes(
                out,
                4,
                &message,
                "4 message ch:lock:a 18446744073709551615\n",
            )?,
    )
}

// An order, after which its connection has so many channels, or its client was cut off.
fn ordered(subscribe: bool, channel: Channel, channels: u32, cut: Option<u32>) -> Shown {
    Shown::Ordered(Ordered {
        order: Order { subscribe, channel },
        channels,
        cut,
    })
}

fn orders_are_written(out: &mut Text, channel: Channel) -> Result<bool, AllocError> {
    let first = ordered(true, channel, 1, None);
    let last = ordered(false, channel, 0, Some(64));
    Ok(
        writes(out, 1, &first, "1 subscribe ch:lock:a 1\n")?
            && writes(out, 2, &last, "2 unsubscribe ch:lock:a 0 cut 64\n")?,
    )
}

// The channel of an owner that waits for a fair lock.
fn fair_channels_are_written(
    alloc: Global,
    out: &mut Text,
    name: &Name,
) -> Result<bool, AllocError> {
    let channel = Channel::fair(name, &Owner::new(Uuid::from_u128(255), 256));
    let first = ordered(true, channel, 1, None);
    let message = Shown::Delivered(channel, 1);
    let shown = freed(channel, Clients::new(alloc));
    let text = format!(in alloc; "ch:fair:a:{ID}:256")?;
    let order = format!(in alloc; "1 subscribe {text} 1\n")?;
    let delivered = format!(in alloc; "2 message {text} 1\n")?;
    let posted = format!(in alloc; "3 freed post {text} 1\n")?;
    Ok(
        writes(out, 1, &first, order.as_str())?
            && writes(out, 2, &message, delivered.as_str())?
            && writes(out, 3, &shown, posted.as_str())?,
    )
}

// A freed lock, whose message cut these clients off.
fn freed(channel: Channel, cut: Clients) -> Shown {
    Shown::Replied(Replied {
        reply: Reply::Freed,
        post: Some(Reached {
            channel,
            connections: 1,
        }),
        cut,
    })
}

fn executed_calls_are_written(
    alloc: Global,
    out: &mut Text,
    channel: Channel,
) -> Result<bool, AllocError> {
    let busy = Shown::Replied(Replied {
        reply: Reply::Busy(Remaining::new(30_000)),
        post: None,
        cut: Clients::new(alloc),
    });
    let quiet = freed(channel, Clients::new(alloc));
    let loud = freed(
        channel,
        Clients::of_connections(vec![in alloc; 2, 127, 128]?),
    );
    Ok(
        writes(out, 7, &busy, "7 busy 30000\n")?
            && writes(out, 17, &quiet, "17 freed post ch:lock:a 1\n")?
            && writes(
                out,
                18,
                &loud,
                "18 freed post ch:lock:a 1 cut 1 cut 64 cut 64\n",
            )?,
    )
}

// More cuts than a short line has room for.
fn many_cuts_are_written(
    alloc: Global,
    out: &mut Text,
    channel: Channel,
) -> Result<bool, AllocError> {
    let connections = Vec::from_slice(alloc, &[127; 128])?;
    let shown = freed(channel, Clients::of_connections(connections));
    let mut line = Text::of(alloc, b"1 freed post ch:lock:a 1")?;
    for _ in 0..128 {
        line.push_bytes(b" cut 64")?;
    }
    line.push(b'\n')?;
    out.clear();
    write_shown(out, 1, &shown)?;
    Ok(out.as_slice() == line.as_slice())
}

fn standing(stand: Stand) -> Standing {
    Standing {
        client: 64,
        thread: 256,
        stand,
    }
}

fn stands_are_written(alloc: Global, out: &mut Text) -> Result<bool, AllocError> {
    for (stand, line) in STANDS {
        let mut standings = Standings::new(alloc);
        standings.push(standing(stand))?;
        if !writes(out, 6, &Shown::Standings(standings), line)? {
            return Ok(false);
        }
    }
    let nobody = Shown::Standings(Standings::new(alloc));
    writes(out, 6, &nobody, "6 none\n")
}

// More rows than a short line has room for.
fn many_stands_are_written(alloc: Global, out: &mut Text) -> Result<bool, AllocError> {
    let mut standings = Standings::new(alloc);
    let mut line = Text::of(alloc, b"6 64 256 held")?;
    standings.push(standing(Stand::Held))?;
    for _ in 1..256 {
        standings.push(standing(Stand::Timer(0)))?;
        line.push_bytes(b"; 64 256 timer 0")?;
    }
    line.push(b'\n')?;
    out.clear();
    write_shown(out, 6, &Shown::Standings(standings))?;
    Ok(out.as_slice() == line.as_slice())
}

fn ends_are_written(out: &mut Text) -> Result<bool, AllocError> {
    out.clear();
    write_bad(out, 20)?;
    write_too_many(out, 1_000_001)?;
    Ok(out.as_slice() == b"bad line 20\ntoo many 1000001\n".as_slice())
}

#[test]
fn lines_are_written(rt: HostRuntime) -> Result<(), Fail> {
    let name = Name::parse(b"a")?;
    let channel = Channel::of(Kind::Mutex, &name);
    let mut out = Text::new(rt.alloc());
    let steps = calls_are_written(&mut out)? && waits_are_written(&mut out)?;
    let sleeps = sleeps_are_written(&mut out)? && findings_are_written(&mut out)?;
    let replies = replies_are_written(&mut out)? && numbers_are_written(&mut out)?;
    let news = pushes_are_written(&mut out, channel)?
        && orders_are_written(&mut out, channel)?
        && fair_channels_are_written(rt.alloc(), &mut out, &name)?;
    assert!(rt; steps && sleeps && replies && news && ends_are_written(&mut out)?);
    Ok(())
}

#[test]
fn lists_are_written(rt: HostRuntime) -> Result<(), Fail> {
    let channel = Channel::of(Kind::Mutex, &Name::parse(b"a")?);
    let alloc = rt.alloc();
    let mut out = Text::new(alloc);
    let cuts = executed_calls_are_written(alloc, &mut out, channel)?
        && many_cuts_are_written(alloc, &mut out, channel)?;
    let stands = stands_are_written(alloc, &mut out)? && many_stands_are_written(alloc, &mut out)?;
    assert!(rt; cuts && stands);
    Ok(())
}

/// Whether the explanation of a line is a number, a reason, and the line as it is shown.
pub fn is_explained(
    alloc: Global,
    line: &[u8],
    reason: &str,
    shown: &str,
) -> Result<bool, AllocError> {
    let text = format!(in alloc; "line 1000001: {reason}{shown})")?;
    Ok(explain(alloc, MOST_EVENTS + 1, line)?.as_slice() == text.as_bytes())
}

fn reasons_are_told(alloc: Global) -> Result<bool, AllocError> {
    for (line, reason) in REASONS {
        let shown = format!(in alloc; "\"{line}\"")?;
        if !is_explained(alloc, line.as_bytes(), reason, shown.as_str())? {
            return Ok(false);
        }
    }
    Ok(true)
}

// Where no request begins with a function, it is told with which one does.
fn functions_are_told(alloc: Global) -> Result<bool, AllocError> {
    for word in NO_FUNCTIONS {
        let line = format!(in alloc; "begin 1 1 once {word} a 5")?;
        let reason = format!(in alloc; "\"{word}\" is no function; {FUNCTIONS} (word 5 of ")?;
        let shown = format!(in alloc; "\"{line}\"")?;
        if !is_explained(alloc, line.as_bytes(), reason.as_str(), shown.as_str())? {
            return Ok(false);
        }
    }
    Ok(true)
}

// A line too many, and a line that is too long, of which the first 80 bytes are shown.
fn limits_are_told(alloc: Global) -> Result<bool, AllocError> {
    let front = "\"\\x00\\x1f\\x7f\\xff ~xxxxxxxxxxxxxxxxxxxxxxxxxxxxxxxxxxxxx\
                 xxxxxxxxxxxxxxxxxxxxxxxxxxxxxxxxxxxxx\"...";
    let mut long = [b'x'; LINE_BYTES + 1];
    long[..6].copy_from_slice(b"\x00\x1f\x7f\xff ~");
    let events = "schedules have at most 1000000 events (";
    Ok(
        is_explained(alloc, b"tick 5", events, "\"tick 5\"")?
            && is_explained(alloc, &long, "lines have at most 512 bytes (", front)?,
    )
}

#[test]
fn lines_are_explained(rt: HostRuntime) -> Result<(), Fail> {
    let alloc = rt.alloc();
    assert!(rt; reasons_are_told(alloc)? && functions_are_told(alloc)? && limits_are_told(alloc)?);
    Ok(())
}
