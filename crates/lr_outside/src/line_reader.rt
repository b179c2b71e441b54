// A reader of lines.
ghost use Rattle.std.specs.Prelude.{◌≡◌, ◌+◌, ◌<◌, ◌≤◌, ◌↔◌, [], IfOk, IfSome, IfNone, IsTrue, false, length, take, slice_index, Contains};
ghost use Rattle.std.specs.Bool.{OnTrue, OnFalse};
ghost use Rattle.lr_outside.specs.Lines.{HasNoLineEnd, ahead, WhereKnown, IsTurn, is_fault, FaultHasCause, IsUndecided};
ghost use Rattle.lr_outside.specs.Turns.{CountsFaults};
ghost use Rattle.lr_outside.specs.KeptTurns.{IsKeptTurn, IsLastTurn};

use crate::window::Window;
use crate::{ReadTurn, Source};
use lr_limits::LINE_BYTES;
use lr_text::ShortText;
use std::alloc::{AllocError, Global};
use std::marker::Model;

/// The byte that ends a line.
const LF: u8 = b'\n';

/// The bytes of a line, without its LF: at most [`LINE_BYTES`], of fixed size, copied without
/// memory.
pub type Line = ShortText<LINE_BYTES>;

/// What [`LineReader::next`] gives.
#[derive(Clone, Copy, PartialEq, Eq)]
pub enum LineTurn {
    /// The next line.
    Line(Line),
    /// There is no line any more.
    End,
    /// The next line has more than [`LINE_BYTES`] bytes. Each turn from here on is this one, and
    /// reads nothing.
    TooLong,
    /// A read failed before the answer was known. What came before stays, and the next turn reads
    /// on.
    Fault,
}

/// Reads lines from a source, by a buffer whose memory it takes when it is made.
#[derive(Drop)]
pub struct LineReader {
    window: Window,
    is_stuck: bool,
}

impl Model for LineReader {
    ghost use Rattle.lr_outside.specs.Reading.{Reading};
    ghost use Rattle.lr_outside.specs.Window.{kept_bytes};

    ghost Value = { Reading };

    ghost view = { λ r. record { kept = kept_bytes r.window; stuck = r.is_stuck } };
}

// Where the first LF is.
fn line_end(bytes: &[u8]) -> Option<usize>
    ensures none { IfNone result (HasNoLineEnd bytes.now) }
    ensures within { IfSome result (λ at. at < length bytes.now) }
    ensures before { IfSome result (λ at. HasNoLineEnd (take at bytes.now)) }
    ensures at { IfSome result (λ at. slice_index bytes.now at ≡ 10) }
{
    bytes.iter().position(|byte| *byte == LF)
}

// How many bytes stand before the first LF: all of them where there is none. The first `searched`
// have none.
fn line_len(bytes: &[u8], searched: usize) -> usize
    requires within { searched ≤ length bytes.now }
    requires none { HasNoLineEnd (take searched bytes.now) }
    ensures within { result ≤ length bytes.now }
    ensures before { HasNoLineEnd (take result bytes.now) }
    ensures at { result < length bytes.now → slice_index bytes.now result ≡ 10 }
{
    match line_end(&bytes[searched..]) {
        Some(at) => searched + at,
        None => bytes.len(),
    }
}

impl LineReader {
    /// A reader that has read nothing. It takes all the memory that it ever needs.
    pub fn new(alloc: Global) -> Result<Self, AllocError>
        ensures kept { IfOk result (λ reader. reader.kept ≡ []) }
        ensures free { IfOk result (λ reader. reader.stuck ≡ false) }
    {
        Ok(LineReader {
            window: Window::new(alloc)?,
            is_stuck: false,
        })
    }

    /// The next line of the bytes that are kept and then of what the source has left. It reads only
    /// where the kept bytes don't tell the answer.
    pub fn next<S: Source>(&mut self, source: &mut S) -> LineTurn
        // Where the source tells its bytes, the turn is right about them.
        ensures turn { OnFalse self.old.stuck
            (WhereKnown (λ before after. IsTurn before after result)
            (ahead self.old.kept (S.left source.old))
            (ahead self.new.kept (S.left source.new))) }
        ensures fault { FaultHasCause (S.faults source.old) (S.faults source.new)
            self.new.kept result }

        // No read failed, or at a fault just the last one did.
        ensures counts { CountsFaults (S.faults source.old) (S.faults source.new)
            (is_fault result) }
        ensures later { S.faults source.old ≤ S.faults source.new }

        // From the first line that is too long on nothing changes.
        ensures stuck { IsTrue self.new.stuck ↔ (result ≡ LineTurn.TooLong) }
        ensures stays { OnTrue self.old.stuck
            ((self.new ≡ self.old) × (source.new ≡ source.old)) }

        // A line that is there whole is given without a read.
        ensures prompt { Contains self.old.kept 10 → source.new ≡ source.old }
    {
        if self.is_stuck {
            return LineTurn::TooLong;
        }
        match self.take_kept(0) {
            Some(turn) => turn,
            None => self.read_on(source),
        }
    }

    // Reads until the kept bytes tell the answer.
    fn read_on<S: Source>(&mut self, source: &mut S) -> LineTurn
        requires free { self.old.stuck ≡ false }
        requires undecided { IsUndecided self.old.kept }
        ensures turn { WhereKnown (λ before after. IsTurn before after result)
            (ahead self.old.kept (S.left source.old)) (ahead self.new.kept (S.left source.new)) }
        ensures fault { FaultHasCause (S.faults source.old) (S.faults source.new)
            self.new.kept result }

        // No read failed, or at a fault just the last one did.
        ensures counts { CountsFaults (S.faults source.old) (S.faults source.new)
            (is_fault result) }
        ensures later { S.faults source.old ≤ S.faults source.new }
        ensures stuck { IsTrue self.new.stuck ↔ (result ≡ LineTurn.TooLong) }
    {
        loop {
            let searched = self.window.kept_bytes().len();
            match self.window.fill(source) {
                ReadTurn::Got(_) => {
                    if let Some(turn) = self.take_kept(searched) {
                        return turn;
                    }
                }
                ReadTurn::End => return self.take_last(),
                ReadTurn::Failed => return LineTurn::Fault,
            }
        }
    }

    // Takes the first line of the kept bytes, or says that it is too long, where they tell it. The
    // first `searched` of them have no LF.
    fn take_kept(&mut self, searched: usize) -> Option<LineTurn>
        requires free { self.old.stuck ≡ false }
        requires within { searched ≤ length self.old.kept }
        requires none { HasNoLineEnd (take searched self.old.kept) }
        ensures { IsKeptTurn self.old self.new result }
    {
        let kept = self.window.kept_bytes();
        let len = line_len(kept, searched);
        match Line::of(&kept[..len]) {
            None => {
                self.is_stuck = true;
                Some(LineTurn::TooLong)
            }
            Some(line) => {
                if len == kept.len() {
                    return None;
                }
                self.window.drop_front(len + 1);
                Some(LineTurn::Line(line))
            }
        }
    }

    // Takes the kept bytes as the last line.
    fn take_last(&mut self) -> LineTurn
        requires free { self.old.stuck ≡ false }
        requires undecided { IsUndecided self.old.kept }
        ensures { IsLastTurn self.old self.new result }
    {
        let kept = self.window.kept_bytes();
        let len = kept.len();
        if len == 0 {
            return LineTurn::End;
        }
        let line = Line::of(kept).unwrap();
        self.window.drop_front(len);
        LineTurn::Line(line)
    }
}
