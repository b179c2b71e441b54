use lr_outside::{MemSink, MemSource, Status};
use lr_play::play_top;
use lr_text::Text;
use std::alloc::{AllocError, Global};
use std::test::Fail;

// A run of `play` on these pieces of input, where these reads and writes fail.
#[derive(Clone, Copy)]
struct Run {
    pieces: &'static [&'static [u8]],
    reads: &'static [u64],
    writes: &'static [u64],
    output: &'static [u8],
    status: Status,
}

const RUNS: [Run; 11] = [
    Run {
        pieces: &[],
        reads: &[],
        writes: &[],
        output: b"",
        status: Status::Done,
    },
    Run {
        pieces: &[b"begin 1 1 once lock_try a!\nask 1 1\n"],
        reads: &[],
        writes: &[],
        output: b"bad line 1\n",
        status: Status::BadLine(1),
    },
    Run {
        pieces: &[b"begin 65 1 once lock_try a 1\n"],
        reads: &[],
        writes: &[],
        output: b"too many 1\n",
        status: Status::TooMany(1),
    },
    Run {
        pieces: &[b"begin 65 1 once lock_try a!\n"],
        reads: &[],
        writes: &[],
        output: b"bad line 1\n",
        status: Status::BadLine(1),
    },
    Run {
        pieces: &[b"begin 1 1 once sem_try s 0\n"],
        reads: &[],
        writes: &[],
        output: b"bad line 1\n",
        status: Status::BadLine(1),
    },
    Run {
        pieces: &[b"begin 1 1 once sem_try s 1000000001\n"],
        reads: &[],
        writes: &[],
        output: b"bad line 1\n",
        status: Status::BadLine(1),
    },
    Run {
        pieces: &[b"begin 1 1 5 sem_set s 1\n"],
        reads: &[],
        writes: &[],
        output: b"bad line 1\n",
        status: Status::BadLine(1),
    },
    Run {
        pieces: &[b"tick 5\n"],
        reads: &[2],
        writes: &[],
        output: b"1 moment 5\n",
        status: Status::ReadFault,
    },
    Run {
        pieces: &[b"tick 5\n"],
        reads: &[],
        writes: &[1],
        output: b"",
        status: Status::WriteFault,
    },
    Run {
        pieces: &[b"tick", b" 7\nask 1", b" 1"],
        reads: &[],
        writes: &[],
        output: b"1 moment 7\n2 no idle\n",
        status: Status::Done,
    },
    Run {
        pieces: &[b"begin 1 1 once lock_try a 5\nbegin 1 1 once lock_try a 5\ntake 1 1"],
        reads: &[],
        writes: &[],
        output: b"1 fresh\n2 no fresh\n3 no fresh\n",
        status: Status::Done,
    },
];

// A step of a story: one line and what is shown of it, or the four lines of a whole request of a
// client's first thread, with what its call shows and the reply that is taken; or the lines with which
// a thread of client 2 falls asleep. `Park` is the first such thread, for which the client subscribes,
// and `Join` a further one.
#[derive(Clone, Copy)]
pub(crate) enum Step {
    Line(&'static str, &'static str),
    Do(u32, &'static str, &'static str, &'static str),
    Park(u32, Wait),
    Join(u32, Wait),
}

// A call that is refused, the channel on which its thread waits, and until when it sleeps.
#[derive(Clone, Copy)]
pub(crate) struct Wait {
    pub(crate) call: &'static str,
    pub(crate) channel: &'static str,
    pub(crate) refusal: &'static str,
    pub(crate) until: &'static str,
}

const LOCKS: [Step; 24] = [
    Step::Do(1, "lock_try a 30000", "granted", "granted"),
    Step::Do(1, "lock_try a 30000", "granted", "granted"),
    Step::Do(1, "lock_unlock a 30000", "kept", "kept"),
    Step::Do(1, "lock_unlock a 30000", "freed post ch:lock:a 0", "freed"),
    Step::Do(1, "lock_unlock a 30000", "not-held", "not-held"),
    Step::Do(1, "lock_try b 30000", "granted", "granted"),
    Step::Line("tick 29999", "moment 29999"),
    Step::Do(2, "lock_try b 5", "busy 1", "busy 1"),
    Step::Line("tick 30000", "moment 30000"),
    Step::Do(2, "lock_try b 5", "granted", "granted"),
    Step::Line("tick 500", "moment 30000"),
    Step::Do(1, "lock_try c 0", "bad-lease", "bad-lease"),
    Step::Do(1, "lock_try c 86400000001", "bad-lease", "bad-lease"),
    Step::Do(1, "lock_try c 86400000000", "granted", "granted"),
    Step::Do(2, "lock_try c 1", "busy 86400000000", "busy 86400000000"),
    Step::Do(1, "lock_try d 1000", "granted", "granted"),
    Step::Line("tick 31000", "moment 31000"),
    Step::Do(2, "lock_try d 1000", "granted", "granted"),
    Step::Do(1, "lock_unlock d 30000", "not-held", "not-held"),
    Step::Do(1, "lock_try e 30000", "granted", "granted"),
    Step::Line("force e", "freed post ch:lock:e 0"),
    Step::Line("force e", "not-held"),
    Step::Do(1, "lock_unlock e 30000", "not-held", "not-held"),
    Step::Line("take 1 1", "no idle"),
];

const FENCED_LOCKS: [Step; 11] = [
    Step::Do(1, "fenced_try g 1000", "token 1", "token 1"),
    Step::Do(1, "fenced_try g 1000", "token 1", "token 1"),
    Step::Do(2, "fenced_try g 1000", "busy 1000", "busy 1000"),
    Step::Line("tick 1000", "moment 1000"),
    Step::Do(1, "fenced_unlock g 30000", "not-held", "not-held"),
    Step::Do(2, "fenced_try g 1000", "token 2", "token 2"),
    Step::Do(
        2,
        "fenced_unlock g 30000",
        "freed post ch:fenced:g 0",
        "freed",
    ),
    Step::Do(1, "fenced_token g", "count 2", "count 2"),
    Step::Do(1, "fenced_try g 0", "bad-lease", "bad-lease"),
    Step::Do(1, "fenced_try g 5", "token 3", "token 3"),
    Step::Do(2, "fenced_try g 86400000001", "bad-lease", "bad-lease"),
];

const READ_WRITE_LOCKS: [Step; 13] = [
    Step::Do(1, "rw_read a 1000", "granted", "granted"),
    Step::Do(2, "rw_read a 2000", "granted", "granted"),
    Step::Do(1, "rw_write a 5", "busy 2000", "busy 2000"),
    Step::Do(3, "rw_write a 5", "busy 2000", "busy 2000"),
    Step::Do(2, "rw_unlock_read a 30000", "freed", "freed"),
    Step::Do(1, "rw_unlock_read a 30000", "freed post ch:rw:a 0", "freed"),
    Step::Do(1, "rw_write a 1000", "granted", "granted"),
    Step::Do(1, "rw_read a 5", "granted", "granted"),
    Step::Do(2, "rw_read a 5", "busy 1000", "busy 1000"),
    Step::Line("tick 5", "moment 5"),
    Step::Do(1, "rw_unlock_read a 30000", "not-held", "not-held"),
    Step::Do(
        1,
        "rw_unlock_write a 30000",
        "freed post ch:rw:a 0",
        "freed",
    ),
    Step::Do(2, "rw_write a 0", "bad-lease", "bad-lease"),
];

const SEMAPHORES: [Step; 9] = [
    Step::Do(1, "sem_set s 1", "set post ch:sem:s 0", "set"),
    Step::Do(1, "sem_set s 4", "already-set", "already-set"),
    Step::Do(1, "sem_try s 1", "granted", "granted"),
    Step::Do(2, "sem_try s 3", "short", "short"),
    Step::Do(1, "sem_release s 1", "count 1 post ch:sem:s 0", "count 1"),
    Step::Do(1, "sem_count s", "count 1", "count 1"),
    Step::Do(1, "sem_set t 1000000000", "set post ch:sem:t 0", "set"),
    Step::Do(1, "sem_release t 1", "too-many", "too-many"),
    Step::Do(1, "sem_count u", "count 0", "count 0"),
];

const EXPIRABLE_PERMITS: [Step; 13] = [
    Step::Do(
        1,
        "permit_try p 00000000-0000-0000-0000-000000000001 1000",
        "short",
        "short",
    ),
    Step::Do(1, "permit_set p 1", "set post ch:permits:p 0", "set"),
    Step::Do(
        1,
        "permit_try p 00000000-0000-0000-0000-000000000001 1000",
        "granted",
        "granted",
    ),
    Step::Do(
        1,
        "permit_try p 00000000-0000-0000-0000-000000000001 1000",
        "already-set",
        "already-set",
    ),
    Step::Do(
        2,
        "permit_try p 00000000-0000-0000-0000-000000000002 1000",
        "busy 1000",
        "busy 1000",
    ),
    Step::Line("tick 1000", "moment 1000"),
    Step::Do(
        1,
        "permit_release p 00000000-0000-0000-0000-000000000001",
        "unknown",
        "unknown",
    ),
    Step::Do(1, "permit_count p", "count 1", "count 1"),
    Step::Do(
        2,
        "permit_try p 00000000-0000-0000-0000-000000000002 0",
        "bad-lease",
        "bad-lease",
    ),
    Step::Do(
        2,
        "permit_try p 00000000-0000-0000-0000-000000000002 1000",
        "granted",
        "granted",
    ),
    Step::Do(1, "permit_count p", "count 0", "count 0"),
    Step::Do(
        1,
        "permit_release p 00000000-0000-0000-0000-000000000002",
        "freed post ch:permits:p 0",
        "freed",
    ),
    Step::Do(1, "permit_set p 4", "already-set", "already-set"),
];

const LATCHES: [Step; 5] = [
    Step::Do(1, "latch_set l 1", "set", "set"),
    Step::Do(1, "latch_set l 2", "already-set", "already-set"),
    Step::Do(1, "latch_count l", "count 1", "count 1"),
    Step::Do(1, "latch_down l", "count 0 post ch:latch:l 0", "count 0"),
    Step::Do(1, "latch_down l", "count 0", "count 0"),
];

// A schedule and the transcript that is wanted of it.
#[derive(Drop)]
pub(crate) struct Script {
    alloc: Global,
    pub(crate) input: Vec<u8>,
    pub(crate) wanted: Vec<u8>,
    lines: u32,
}

impl Script {
    pub(crate) fn new(alloc: Global) -> Self {
        Script {
            alloc,
            input: Vec::new(alloc),
            wanted: Vec::new(alloc),
            lines: 0,
        }
    }

    fn line(&mut self, text: &str, shown: &str) -> Result<(), AllocError> {
        self.lines = self.lines.wrapping_add(1);
        let number = self.lines;
        self.input.extend_from_slice(text.as_bytes())?;
        self.input.push(b'\n')?;
        let line = format!(in self.alloc; "{number} {shown}\n")?;
        self.wanted.extend_from_slice(line.as_bytes())?;
        Ok(())
    }

    pub(crate) fn request(
        &mut self,
        client: u32,
        call: &str,
        shown: &str,
        taken: &str,
    ) -> Result<(), AllocError> {
        let begin = format!(in self.alloc; "begin {client} 1 once {call}")?;
        let ask = format!(in self.alloc; "ask {client} 1")?;
        let exec = format!(in self.alloc; "exec {client} 1")?;
        let take = format!(in self.alloc; "take {client} 1")?;
        let done = format!(in self.alloc; "done {taken}")?;
        self.line(begin.as_str(), "fresh")?;
        self.line(ask.as_str(), "asked")?;
        self.line(exec.as_str(), shown)?;
        self.line(take.as_str(), done.as_str())
    }

    // A thread of client 2 begins a request that waits, and its call is refused.
    fn refused(&mut self, thread: u32, wait: Wait, taken: &str) -> Result<(), AllocError> {
        let call = wait.call;
        let begin = format!(in self.alloc; "begin 2 {thread} 60000 {call}")?;
        self.line(begin.as_str(), "fresh")?;
        self.asks(thread, wait, taken)
    }

    // Its call is sent and answered, and it takes the reply.
    fn asks(&mut self, thread: u32, wait: Wait, taken: &str) -> Result<(), AllocError> {
        let ask = format!(in self.alloc; "ask 2 {thread}")?;
        let exec = format!(in self.alloc; "exec 2 {thread}")?;
        let take = format!(in self.alloc; "take 2 {thread}")?;
        self.line(ask.as_str(), "asked")?;
        self.line(exec.as_str(), wait.refusal)?;
        self.line(take.as_str(), taken)
    }

    // It asks once more, now that its client hears the channel, and falls asleep.
    fn sleeps(&mut self, thread: u32, wait: Wait) -> Result<(), AllocError> {
        let until = wait.until;
        let refused = format!(in self.alloc; "refused {until}")?;
        let check = format!(in self.alloc; "check 2 {thread}")?;
        let asleep = format!(in self.alloc; "asleep {until}")?;
        self.asks(thread, wait, refused.as_str())?;
        self.line(check.as_str(), asleep.as_str())
    }

    fn park(&mut self, thread: u32, wait: Wait) -> Result<(), AllocError> {
        let channel = wait.channel;
        let subscribed = format!(in self.alloc; "subscribe {channel} 1")?;
        let heard = format!(in self.alloc; "ack {channel} 1")?;
        self.refused(thread, wait, "joining")?;
        self.line("sub 2", subscribed.as_str())?;
        self.line("push 2", heard.as_str())?;
        self.sleeps(thread, wait)
    }

    fn join(&mut self, thread: u32, wait: Wait) -> Result<(), AllocError> {
        self.refused(thread, wait, "ready")?;
        self.sleeps(thread, wait)
    }

    fn step(&mut self, step: Step) -> Result<(), AllocError> {
        match step {
            Step::Line(text, shown) => self.line(text, shown),
            Step::Do(client, call, shown, taken) => self.request(client, call, shown, taken),
            Step::Park(thread, wait) => self.park(thread, wait),
            Step::Join(thread, wait) => self.join(thread, wait),
        }
    }

    pub(crate) fn steps(&mut self, steps: &[Step]) -> Result<(), AllocError> {
        for step in steps {
            self.step(*step)?;
        }
        Ok(())
    }
}

fn words(alloc: Global, list: &[&str]) -> Result<Vec<Text>, AllocError> {
    let mut words = Vec::new(alloc);
    for word in list {
        words.push(Text::of(alloc, word.as_bytes())?)?;
    }
    Ok(words)
}

// Whether a run ends as it should, and wrote what it should.
fn ends_so(alloc: Global, run: Run) -> Result<bool, AllocError> {
    let words = words(alloc, &["play"])?;
    let mut source = MemSource::new(run.pieces, run.reads);
    let mut sink = MemSink::new(alloc, run.writes);
    let status = play_top(alloc, words.as_slice(), &mut source, &mut sink);
    Ok(status == run.status && sink.bytes() == run.output)
}

// Whether a story shows what it should.
pub(crate) fn is_shown(alloc: Global, steps: &[Step]) -> Result<bool, AllocError> {
    let mut script = Script::new(alloc);
    script.steps(steps)?;
    shows(alloc, &script)
}

// Whether a schedule shows what it should.
pub(crate) fn shows(alloc: Global, script: &Script) -> Result<bool, AllocError> {
    let words = words(alloc, &["play"])?;
    let pieces = [script.input.as_slice()];
    let mut source = MemSource::new(&pieces, &[]);
    let mut sink = MemSink::new(alloc, &[]);
    let status = play_top(alloc, words.as_slice(), &mut source, &mut sink);
    Ok(status == Status::Done && sink.bytes() == script.wanted.as_slice())
}

// Whether these words are no call of `play`, and nothing is written.
fn is_refused(alloc: Global, list: &[&str]) -> Result<bool, AllocError> {
    let words = words(alloc, list)?;
    let mut source = MemSource::new(&[b"tick 5\n"], &[]);
    let mut sink = MemSink::new(alloc, &[]);
    let status = play_top(alloc, words.as_slice(), &mut source, &mut sink);
    Ok(status == Status::Usage && sink.bytes().is_empty())
}

#[test]
fn bytes_to_bytes(rt: HostRuntime) -> Result<(), Fail> {
    for run in RUNS {
        assert!(rt; ends_so(rt.alloc(), run)?);
    }
    Ok(())
}

#[test]
fn other_words_are_refused(rt: HostRuntime) -> Result<(), Fail> {
    assert!(rt; is_refused(rt.alloc(), &["play", "x"])? && is_refused(rt.alloc(), &[])?);
    Ok(())
}

#[test]
fn locks_with_leases(rt: HostRuntime) -> Result<(), Fail> {
    assert!(rt; is_shown(rt.alloc(), &LOCKS)?);
    Ok(())
}

#[test]
fn tokens_grow(rt: HostRuntime) -> Result<(), Fail> {
    assert!(rt; is_shown(rt.alloc(), &FENCED_LOCKS)?);
    Ok(())
}

#[test]
fn readers_keep_a_writer_out(rt: HostRuntime) -> Result<(), Fail> {
    assert!(rt; is_shown(rt.alloc(), &READ_WRITE_LOCKS)?);
    Ok(())
}

#[test]
fn permits_come_back_by_themselves(rt: HostRuntime) -> Result<(), Fail> {
    assert!(rt; is_shown(rt.alloc(), &EXPIRABLE_PERMITS)?);
    Ok(())
}

#[test]
fn permits_are_taken_and_given(rt: HostRuntime) -> Result<(), Fail> {
    assert!(rt; is_shown(rt.alloc(), &SEMAPHORES)?);
    Ok(())
}

#[test]
fn latches_count_down(rt: HostRuntime) -> Result<(), Fail> {
    assert!(rt; is_shown(rt.alloc(), &LATCHES)?);
    Ok(())
}
