ghost use Rattle.std.specs.Prelude.{◌≡◌, ℕ, List, ◌++◌, take, length, decimal, OnOk, OnErr};
ghost use Rattle.std.specs.Fmt.{signed_decimal};
ghost use Rattle.lr_resp.specs.Grammar.{SpellsWritten};
ghost use Rattle.lr_resp.specs.Spelling.{spelling, line_end};

use crate::frame::{Frame, Frames};
use bytes::BytesMut;
use itoa::Buffer;
use std::alloc::AllocError;

const LINE_END: &[u8] = b"\r\n";

/// Appends the spelling of a frame. Within the limits for writing, which are arrays of at most
/// `WRITTEN_ITEMS` items and `WRITTEN_BYTES` bytes in all, no other bytes spell it. A reader takes
/// it as this frame where it is within the limits for reading. An error leaves the bytes as they
/// were.
pub fn encode(frame: &Frame, out: &mut BytesMut) -> Result<(), AllocError>
    ensures ok { OnOk result (out.new.items ≡ out.old.items ++ spelling frame.now) }
    ensures alone { OnOk result ((bytes : List ℕ) → SpellsWritten bytes frame.now
        → out.new.items ≡ out.old.items ++ bytes) }
    ensures err { OnErr result (out.new.items ≡ out.old.items) }
{
    let len = out.len();
    if let Err(fault) = append(frame, out) {
        out.truncate(len);
        return Err(fault);
    }
    Ok(())
}

fn append(frame: &Frame, out: &mut BytesMut) -> Result<(), AllocError>
    ensures ok { OnOk result (out.new.items ≡ out.old.items ++ spelling frame.now) }
    ensures kept { take (length out.old.items) out.new.items ≡ out.old.items }
{
    match frame {
        Frame::Simple(text) => append_line(b"+", text.as_slice(), out),
        Frame::Fault(text) => append_line(b"-", text.as_slice(), out),
        Frame::Number(number) => append_number(*number, out),
        Frame::Bulk(text) => append_bulk(text.as_slice(), out),
        Frame::Null => out.extend_from_slice(b"$-1\r\n"),
        Frame::NullArray => out.extend_from_slice(b"*-1\r\n"),
        Frame::Array(items) => {
            append_length(b"*", items.len(), out)?;
            for item in items.as_slice() {
                append(item, out)?;
            }
            Ok(())
        }
    }
}

fn append_line(mark: &[u8], text: &[u8], out: &mut BytesMut) -> Result<(), AllocError>
    ensures ok { OnOk result
        (out.new.items ≡ out.old.items ++ (mark.now ++ (text.now ++ line_end))) }
    ensures kept { take (length out.old.items) out.new.items ≡ out.old.items }
{
    out.extend_from_slice(mark)?;
    out.extend_from_slice(text)?;
    out.extend_from_slice(LINE_END)
}

fn append_length(mark: &[u8], number: usize, out: &mut BytesMut) -> Result<(), AllocError>
    ensures ok { OnOk result
        (out.new.items ≡ out.old.items ++ (mark.now ++ (decimal number ++ line_end))) }
    ensures kept { take (length out.old.items) out.new.items ≡ out.old.items }
{
    let mut digits = Buffer::new();
    append_line(mark, digits.format(number).as_bytes(), out)
}

fn append_number(number: i64, out: &mut BytesMut) -> Result<(), AllocError>
    ensures ok { OnOk result
        (out.new.items ≡ out.old.items ++ spelling (Frame.Number number)) }
    ensures kept { take (length out.old.items) out.new.items ≡ out.old.items }
{
    let mut digits = Buffer::new();
    append_line(b":", digits.format(number).as_bytes(), out)
}

fn append_bulk(text: &[u8], out: &mut BytesMut) -> Result<(), AllocError>
    ensures ok { OnOk result
        (out.new.items ≡ out.old.items ++ spelling (Frame.Bulk text.now)) }
    ensures kept { take (length out.old.items) out.new.items ≡ out.old.items }
{
    append_length(b"$", text.len(), out)?;
    out.extend_from_slice(text)?;
    out.extend_from_slice(LINE_END)
}
