ghost use Rattle.std.specs.Prelude.{◌≡◌, ◌↔◌, ◌+◌, ◌%◌, ◌^◌, [], ◌++◌, IsTrue, IfOk, OnOk, OnErr, length, ◌≤◌};
ghost use Rattle.lr_resp.specs.Limits.{frame_limit};
ghost use Rattle.lr_resp.specs.Stream.{begun};
ghost use Rattle.lr_resp.specs.Next.{NextIs};

use crate::cause::Cause;
use crate::frame::Frame;
use crate::limits::FRAME_BYTES;
use crate::progress::Progress;
use crate::scanner::Scanner;
use bytes::BytesMut;
use std::alloc::{AllocError, Global};
use std::cmp;
use std::marker::Model;

/// What a stream goes on with.
#[derive(Drop)]
pub enum Decoded {
    /// A frame.
    Frame(Frame),
    /// Less than a frame, or nothing.
    More,
    /// What is no frame.
    Broken {
        /// How many bytes of the stream stand before the first one that can't stand there, modulo
        /// 2 to the 64th.
        place: u64,
        /// Why it can't.
        cause: Cause,
    },
}

// Where reading stands in a stream.
#[derive(Clone, Copy)]
struct Place {
    // how many bytes the whole frames have, modulo 2 to the 64th
    start: u64,
    // how many bytes of the next frame were taken
    size: usize,
}

impl Place {
    // How many of the bytes ahead may still belong to the frame.
    fn room(&self, ahead: usize) -> usize
        requires { self.now.size ≤ frame_limit }
        ensures ahead { result ≤ ahead }
        ensures within { self.now.size + result ≤ frame_limit }
    {
        cmp::min(ahead, FRAME_BYTES - self.size)
    }

    fn take(&mut self, count: usize)
        requires { self.old.size + count ≤ frame_limit }
        ensures start { self.new.start ≡ self.old.start }
        ensures size { self.new.size ≡ self.old.size + count }
    {
        self.size += count;
    }

    // The frame is whole with one more byte, and the next one begins.
    fn end_frame(&mut self)
        requires { self.old.size ≤ frame_limit }
        ensures start { self.new.start ≡ (self.old.start + (self.old.size + 1)) % 2 ^ 64 }
        ensures size { self.new.size ≡ 0 }
    {
        self.start = self.start.wrapping_add(self.size as u64 + 1);
        self.size = 0;
    }

    // What is told of a next byte that can't stand there.
    fn fault(&self, cause: Cause) -> Decoded
        ensures { result ≡ Decoded.Broken ((self.now.start + self.now.size) % 2 ^ 64) cause }
    {
        Decoded::Broken {
            place: self.start.wrapping_add(self.size as u64),
            cause,
        }
    }
}

/// A stream of frames that comes in pieces.
///
/// Each byte is looked at once, whatever the pieces are.
#[derive(Drop)]
pub struct Decoder {
    scanner: Scanner,
    place: Place,
    unread: BytesMut,
}

impl Model for Decoder {
    ghost use Rattle.lr_resp.specs.Stream.{Stream};

    ghost Value = { Stream };

    ghost use Rattle.std.specs.Prelude.{◌++◌};
    ghost use Rattle.lr_resp.specs.Spelled.{spelled};
    ghost use Rattle.lr_resp.specs.Stream.{IsReached};

    ghost view = { λ d.
        record { past = d.place.start; unread = spelled d.scanner ++ d.unread.items } };

    ghost invariant = { λ d. IsReached d.place.size d.scanner };
}

impl Decoder {
    /// A stream of which nothing has come. It takes no memory yet.
    pub fn new(alloc: Global) -> Decoder
        ensures { result ≡ begun }
    {
        Decoder {
            scanner: Scanner::new(alloc),
            place: Place { start: 0, size: 0 },
            unread: BytesMut::new(alloc),
        }
    }

    /// Takes the next piece of the stream. An error leaves the decoder as it was.
    pub fn feed(&mut self, piece: &[u8]) -> Result<(), AllocError>
        ensures unread { OnOk result (self.new.unread ≡ self.old.unread ++ piece.now) }
        ensures past { self.new.past ≡ self.old.past }
        ensures err { OnErr result (self.new ≡ self.old) }
    {
        if self.unread.is_empty() {
            self.unread.clear();
        }
        self.unread.extend_from_slice(piece)
    }

    /// Whether the stream stands between frames: all that came is read.
    pub fn is_empty(&self) -> bool
        ensures { IsTrue result ↔ (self.now.unread ≡ []) }
    {
        self.place.size == 0 && self.unread.is_empty()
    }

    /// The next frame of the stream. `More` and `Broken` leave the decoder as it was, and after
    /// `Broken` every call answers the same, whatever is fed. An error leaves it as it was too.
    pub fn next(&mut self) -> Result<Decoded, AllocError>
        ensures ok { IfOk result (λ decoded. NextIs decoded self.old self.new) }
        ensures err { OnErr result (self.new ≡ self.old) }
    {
        while !self.unread.is_empty() {
            if self.place.size == FRAME_BYTES {
                return Ok(self.place.fault(Cause::TooLong));
            }
            let room = self.place.room(self.unread.len());
            let taken = self.scanner.take_body(&self.unread.as_slice()[..room])?;
            if taken > 0 {
                self.unread.advance(taken);
                self.place.take(taken);
                continue;
            }
            match self.scanner.step(self.unread.as_slice()[0])? {
                Progress::GoesOn => {
                    self.unread.advance(1);
                    self.place.take(1);
                }
                Progress::Whole(frame) => {
                    self.unread.advance(1);
                    self.place.end_frame();
                    return Ok(Decoded::Frame(frame));
                }
                Progress::Broken(cause) => return Ok(self.place.fault(cause)),
            }
        }
        Ok(Decoded::More)
    }
}
