ghost use Rattle.std.specs.Prelude.{◌≡◌, IfOk};

use lr_limits::LINE_BYTES;
use lr_outside::{
    InputSource, LineReader, LineTurn, MemSink, MemSource, OutputSink, PlainSink, PlainSource,
    ReadTurn, Sink, Source, Status, WriteTurn, write_whole,
};
use std::alloc::{AllocError, Global};
use std::io;
use std::io::{Read, Write};
use std::test::Fail;

const LONGEST: [u8; LINE_BYTES] = [b'x'; LINE_BYTES];

const TOO_LONG: [u8; LINE_BYTES + 1] = [b'x'; LINE_BYTES + 1];

// A turn as text.
fn turn_text(turn: &LineTurn) -> &[u8] {
    match turn {
        LineTurn::Line(line) => line.as_slice(),
        LineTurn::End => b"<end>",
        LineTurn::TooLong => b"<too long>",
        LineTurn::Fault => b"<fault>",
    }
}

// Whether a reader of these pieces, of which the reads of these numbers fail, gives these turns.
fn gives_turns(
    alloc: Global,
    pieces: &[&[u8]],
    failing: &[u64],
    turns: &[&[u8]],
) -> Result<bool, AllocError> {
    let mut source = MemSource::new(pieces, failing);
    let mut reader = LineReader::new(alloc)?;
    for turn in turns {
        if turn_text(&reader.next(&mut source)) != *turn {
            return Ok(false);
        }
    }
    Ok(true)
}

// A last line lacks its LF, and an empty line is one.
fn lines_end(alloc: Global) -> Result<bool, AllocError> {
    let nothing = gives_turns(alloc, &[], &[], &[b"<end>", b"<end>"])?;
    let turns: [&[u8]; 4] = [b"ab", b"", b"c", b"<end>"];
    Ok(nothing && gives_turns(alloc, &[b"ab\n", b"", b"\nc"], &[], &turns)?)
}

// A fault takes nothing away.
fn lines_go_on_after_faults(alloc: Global) -> Result<bool, AllocError> {
    let turns: [&[u8]; 5] = [b"<fault>", b"<fault>", b"ab", b"c", b"<end>"];
    gives_turns(alloc, &[b"a", b"b\nc\n"], &[2, 3], &turns)
}

// A line has at most LINE_BYTES bytes, and a reader stops for good at a longer one.
fn lines_are_limited(alloc: Global) -> Result<bool, AllocError> {
    let longest: [&[u8]; 4] = [b"a", &LONGEST, b"b", b"<end>"];
    let stuck: [&[u8]; 3] = [b"a", b"<too long>", b"<too long>"];
    let fits = gives_turns(alloc, &[b"a\n", &LONGEST, b"\nb"], &[], &longest)?;
    Ok(fits && gives_turns(alloc, &[b"a\n", &TOO_LONG, b"\nb"], &[], &stuck)?)
}

#[test]
fn lines_come_in_order(rt: HostRuntime) -> Result<(), Fail> {
    let alloc = rt.alloc();
    let lines = lines_end(alloc)? && lines_go_on_after_faults(alloc)?;
    assert!(rt; lines && lines_are_limited(alloc)?);
    Ok(())
}

// Whether the next read of a source gives this.
fn reads<S: Source>(source: &mut S, buffer: &mut [u8; 2], turn: ReadTurn, bytes: &[u8; 2]) -> bool {
    source.read(buffer) == turn && *buffer == *bytes
}

// Sources give their bytes in order, as many as the buffer holds, and then their end.
fn sources_give_bytes() -> bool {
    let mut buffer = [0; 2];
    let mut plain = PlainSource::new(b"abc");
    let mut input = InputSource::new(b"d".as_slice());
    reads(&mut plain, &mut buffer, ReadTurn::Got(2), b"ab")
        && reads(&mut plain, &mut buffer, ReadTurn::Got(1), b"cb")
        && reads(&mut input, &mut buffer, ReadTurn::Got(1), b"db")
        && reads(&mut input, &mut buffer, ReadTurn::End, b"db")
}

// A stream of std whose first call fails. Each later one takes all, or finds the end.
#[derive(Drop)]
struct FailsOnce {
    has_failed: bool,
}

impl FailsOnce {
    // The count, but an error at the first call.
    fn count_or_fault(&mut self, count: usize) -> io::Result<usize>
        ensures { IfOk result (λ n. n ≡ count) }
    {
        if self.has_failed {
            return Ok(count);
        }
        self.has_failed = true;
        Err(io::Error::from(io::ErrorKind::Interrupted))
    }
}

impl Read for FailsOnce {
    fn read(&mut self, _buf: &mut [u8]) -> io::Result<usize> {
        self.count_or_fault(0)
    }
}

impl Write for FailsOnce {
    fn write(&mut self, buf: &[u8]) -> io::Result<usize> {
        self.count_or_fault(buf.len())
    }

    fn flush(&mut self) -> io::Result<()> {
        Ok(())
    }
}

// A call of std that fails isn't tried again, be it that it was only interrupted.
fn faults_are_told() -> bool {
    let mut buffer = [0; 2];
    let mut input = InputSource::new(FailsOnce { has_failed: false });
    let mut output = OutputSink::new(FailsOnce { has_failed: false });
    reads(&mut input, &mut buffer, ReadTurn::Failed, &[0, 0])
        && reads(&mut input, &mut buffer, ReadTurn::End, &[0, 0])
        && output.write(b"a") == WriteTurn::Failed
        && output.write(b"a") == WriteTurn::Took(1)
}

// Sinks take what they are given, and a sink in memory fails at the writes that it was told.
fn sinks_take_bytes(alloc: Global) -> bool {
    let mut sink = MemSink::new(alloc, &[2]);
    write_whole(&mut PlainSink, b"ab")
        && write_whole(&mut OutputSink::new(Vec::new(alloc)), b"ab")
        && write_whole(&mut sink, b"ab")
        && !write_whole(&mut sink, b"cd")
        && sink.write(b"e") == WriteTurn::Took(1)
        && sink.bytes() == b"abe".as_slice()
}

#[test]
fn bytes_come_and_go(rt: HostRuntime) -> Result<(), Fail> {
    let number = Status::BadLine(7).number();
    assert!(rt; number == 5 && sources_give_bytes() && faults_are_told());
    assert!(rt; sinks_take_bytes(rt.alloc()));
    Ok(())
}
