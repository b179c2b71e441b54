ghost use Rattle.std.specs.Prelude.{◌≡◌, ℕ, ◌<◌, ◌≤◌, Bool, IfOk, OnErr, length, take};
ghost use Rattle.lr_resp.specs.Scan.{State, scan, close, scan_begin, scan_line, scan_line_end, scan_head, scan_minus, scan_digits, headed, scan_digits_end, scan_body, scan_body_end, start, NumberFits, PhaseFits};
ghost use Rattle.lr_resp.specs.Steps.{Answers, AllTaken, BodyTaken};

use crate::cause::Cause;
use crate::frame::{Frame, Frames};
use crate::limits::{ARRAYS_DEEP, LINE_BYTES};
use crate::numbers::{can_go_on, is_a_digit, limit_of, number_frame};
use crate::open_array::{OpenArray, close_arrays};
use crate::phase::{HeadKind, LineKind, Phase};
use crate::progress::Progress;
use lr_text::Text;
use std::alloc::{AllocError, Global};
use std::marker::Model;
use std::{cmp, mem};

/// Where reading stands inside a frame.
#[derive(Drop)]
pub struct Scanner {
    alloc: Global,
    // the innermost first
    arrays: Vec<OpenArray>,
    phase: Phase,
    text: Text,
}

impl Model for Scanner {
    ghost use Rattle.lr_resp.specs.Scan.{State, PhaseFits};

    ghost Value = { State };

    ghost view = { λ s. record { arrays = s.arrays.items; phase = s.phase; text = s.text } };

    ghost invariant = { λ s. PhaseFits s.phase };
}

impl Scanner {
    /// Before a frame.
    pub fn new(alloc: Global) -> Scanner
        ensures { result ≡ start }
    {
        Scanner {
            alloc,
            arrays: Vec::new(alloc),
            phase: Phase::Begin,
            text: Text::new(alloc),
        }
    }

    /// Takes the next byte, unless it can't stand there. An error leaves the scanner as it was.
    #[tactic(auto, unfolding(crate::specs::Scan::scan))]
    pub fn step(&mut self, byte: u8) -> Result<Progress, AllocError>
        ensures ok { IfOk result (λ answer. Answers (scan self.old byte) self.old answer self.new) }
        ensures err { OnErr result (self.new ≡ self.old) }
    {
        match self.phase {
            Phase::Begin => Ok(self.begin(byte)),
            Phase::Line(kind) => self.line(kind, byte),
            Phase::LineEnd(kind) => Ok(self.line_end(kind, byte)),
            Phase::Head(kind) => Ok(self.head(kind, byte)),
            Phase::Minus(kind) => Ok(self.minus(kind, byte)),
            Phase::Digits(kind, negative, number) => Ok(self.digits(kind, negative, number, byte)),
            Phase::DigitsEnd(kind, negative, number) => {
                self.digits_end(kind, negative, number, byte)
            }
            Phase::Body(left) => self.body(left, byte),
            Phase::BodyEnd => Ok(self.body_end(byte)),
        }
    }

    /// Takes as many of these bytes as belong to a bulk string, and tells how many. An error leaves
    /// the scanner as it was.
    pub fn take_body(&mut self, bytes: &[u8]) -> Result<usize, AllocError>
        ensures count { IfOk result (λ n. n ≤ length bytes.now) }
        ensures all { IfOk result (λ n. AllTaken self.old.phase n (length bytes.now)) }
        ensures some { IfOk result
            (λ n. BodyTaken self.old.phase n (take n bytes.now) self.old self.new) }
        ensures none { IfOk result (λ n. n ≡ 0 → self.new ≡ self.old) }
        ensures err { OnErr result (self.new ≡ self.old) }
    {
        let Phase::Body(left) = self.phase else {
            return Ok(0);
        };
        let count = cmp::min(left as usize, bytes.len());
        self.text.push_bytes(&bytes[..count])?;
        self.phase = Phase::Body(left - count as u64);
        Ok(count)
    }

    fn go_to(&mut self, phase: Phase) -> Progress
        requires { PhaseFits phase }
        ensures phase { self.new ≡ record self.old { phase = phase } }
        ensures on { result ≡ Progress.GoesOn }
    {
        self.phase = phase;
        Progress::GoesOn
    }

    // A frame is whole.
    fn close(&mut self, frame: Frame) -> Progress
        ensures { (old : State) → Answers (close self.old.arrays frame) old result self.new }
    {
        self.text.clear();
        self.phase = Phase::Begin;
        match close_arrays(&mut self.arrays, frame) {
            None => Progress::GoesOn,
            Some(whole) => Progress::Whole(whole),
        }
    }

    fn begin(&mut self, byte: u8) -> Progress
        ensures { Answers (scan_begin self.old byte) self.old result self.new }
    {
        match byte {
            b'+' => self.go_to(Phase::Line(LineKind::Plain)),
            b'-' => self.go_to(Phase::Line(LineKind::Failure)),
            b':' => self.go_to(Phase::Head(HeadKind::Number)),
            b'$' => self.go_to(Phase::Head(HeadKind::Bulk)),
            b'*' => {
                if self.arrays.len() == ARRAYS_DEEP {
                    Progress::Broken(Cause::TooDeep)
                } else {
                    self.go_to(Phase::Head(HeadKind::Array))
                }
            }
            _ => Progress::Broken(Cause::BadType),
        }
    }

    fn line(&mut self, kind: LineKind, byte: u8) -> Result<Progress, AllocError>
        requires { self.old.phase ≡ Phase.Line kind }
        ensures ok { IfOk result
            (λ answer. Answers (scan_line kind self.old byte) self.old answer self.new) }
        ensures err { OnErr result (self.new ≡ self.old) }
    {
        if byte == b'\r' {
            return Ok(self.go_to(Phase::LineEnd(kind)));
        }
        if self.text.len() == LINE_BYTES {
            return Ok(Progress::Broken(Cause::TooLong));
        }
        if byte == b'\n' {
            return Ok(Progress::Broken(Cause::BadEnd));
        }
        self.text.push(byte)?;
        Ok(Progress::GoesOn)
    }

    fn line_end(&mut self, kind: LineKind, byte: u8) -> Progress
        ensures { Answers (scan_line_end kind self.old byte) self.old result self.new }
    {
        if byte != b'\n' {
            return Progress::Broken(Cause::BadEnd);
        }
        let text = mem::replace(&mut self.text, Text::new(self.alloc));
        match kind {
            LineKind::Plain => self.close(Frame::Simple(text)),
            LineKind::Failure => self.close(Frame::Fault(text)),
        }
    }

    fn head(&mut self, kind: HeadKind, byte: u8) -> Progress
        ensures { Answers (scan_head kind self.old byte) self.old result self.new }
    {
        if byte == b'-' {
            return self.go_to(Phase::Minus(kind));
        }
        if is_a_digit(byte) {
            return self.go_to(Phase::Digits(kind, false, u64::from(byte - 48)));
        }
        Progress::Broken(Cause::BadNumber)
    }

    fn minus(&mut self, kind: HeadKind, byte: u8) -> Progress
        ensures { Answers (scan_minus kind self.old byte) self.old result self.new }
    {
        if byte == b'1' || matches!(kind, HeadKind::Number) && is_a_digit(byte) && byte != b'0' {
            return self.go_to(Phase::Digits(kind, true, u64::from(byte - 48)));
        }
        Progress::Broken(Cause::BadNumber)
    }

    fn digits(&mut self, kind: HeadKind, negative: bool, number: u64, byte: u8) -> Progress
        requires { NumberFits kind negative number }
        ensures { Answers (scan_digits kind negative number self.old byte)
            self.old result self.new }
    {
        if byte == b'\r' {
            return self.go_to(Phase::DigitsEnd(kind, negative, number));
        }
        if !(can_go_on(kind, negative, number) && is_a_digit(byte)) {
            return Progress::Broken(Cause::BadNumber);
        }
        let limit = limit_of(kind, negative);
        if number > limit / 10 {
            return Progress::Broken(Cause::TooLong);
        }
        let next = 10 * number + u64::from(byte - 48);
        if limit < next {
            return Progress::Broken(Cause::TooLong);
        }
        self.go_to(Phase::Digits(kind, negative, next))
    }

    fn digits_end(
        &mut self,
        kind: HeadKind,
        negative: bool,
        number: u64,
        byte: u8,
    ) -> Result<Progress, AllocError>
        requires { NumberFits kind negative number }
        ensures ok { IfOk result (λ answer. Answers
            (scan_digits_end kind negative number self.old byte) self.old answer self.new) }
        ensures err { OnErr result (self.new ≡ self.old) }
    {
        if byte != b'\n' {
            return Ok(Progress::Broken(Cause::BadEnd));
        }
        match kind {
            HeadKind::Number => Ok(self.number(negative, number)),
            HeadKind::Bulk => {
                if negative {
                    Ok(self.close(Frame::Null))
                } else {
                    Ok(self.go_to(Phase::Body(number)))
                }
            }
            HeadKind::Array => {
                if negative {
                    Ok(self.close(Frame::NullArray))
                } else {
                    self.open(number)
                }
            }
        }
    }

    fn number(&mut self, negative: bool, number: u64) -> Progress
        requires { NumberFits HeadKind.Number negative number }
        ensures { (old : State)
            → Answers (headed HeadKind.Number negative number self.old) old result self.new }
    {
        self.close(number_frame(negative, number))
    }

    // The header of an array has come: room for all its items is taken.
    fn open(&mut self, number: u64) -> Result<Progress, AllocError>
        ensures ok { IfOk result (λ answer. Answers
            (headed HeadKind.Array Bool.false number self.old) self.old answer self.new) }
        ensures err { OnErr result (self.new ≡ self.old) }
    {
        if number == 0 {
            return Ok(self.close(Frame::Array(Frames::new(self.alloc))));
        }
        let array = OpenArray::new(self.alloc, number as usize)?;
        self.arrays.insert(0, array)?;
        self.phase = Phase::Begin;
        Ok(Progress::GoesOn)
    }

    fn body(&mut self, left: u64, byte: u8) -> Result<Progress, AllocError>
        ensures ok { IfOk result
            (λ answer. Answers (scan_body left self.old byte) self.old answer self.new) }
        ensures err { OnErr result (self.new ≡ self.old) }
    {
        if left == 0 {
            if byte == b'\r' {
                return Ok(self.go_to(Phase::BodyEnd));
            }
            return Ok(Progress::Broken(Cause::BadEnd));
        }
        self.text.push(byte)?;
        Ok(self.go_to(Phase::Body(left - 1)))
    }

    fn body_end(&mut self, byte: u8) -> Progress
        ensures { Answers (scan_body_end self.old byte) self.old result self.new }
    {
        if byte != b'\n' {
            return Progress::Broken(Cause::BadEnd);
        }
        let text = mem::replace(&mut self.text, Text::new(self.alloc));
        self.close(Frame::Bulk(text))
    }
}
