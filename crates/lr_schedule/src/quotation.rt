ghost use Rattle.std.specs.Prelude.{◌≡◌, ◌<◌, ◌++◌, take, OnOk};
ghost use Rattle.std.specs.List.{flat_map};
ghost use Rattle.lr_schedule.specs.Explanation.{shown_limit, digit_of_sixteen, byte_text, quotation, quotation_end};

use lr_text::Text;
use std::alloc::AllocError;

/// How many bytes of a text are shown at most: no limit of input.
const SHOWN_BYTES: usize = 80;

/// Appends a text in quotes: of its first 80 bytes those that are printable ASCII as they are, the
/// others as `\xNN`. Three dots say that more follow.
pub fn push_quotation(out: &mut Text, text: &[u8]) -> Result<(), AllocError>
    ensures { OnOk result (out.new ≡ out.old ++ quotation text.now) }
{
    out.push_bytes(b"\"")?;
    push_front(out, front(text))?;
    out.push_bytes(quotation_end(text.len()))
}

// The bytes that are shown.
#[tactic(auto, using(std::proofs::lemmas::List::take_min))]
fn front(text: &[u8]) -> &[u8]
    ensures { result.now ≡ take shown_limit text.now }
{
    &text[..SHOWN_BYTES.min(text.len())]
}

fn push_front(out: &mut Text, bytes: &[u8]) -> Result<(), AllocError>
    ensures { OnOk result (out.new ≡ out.old ++ flat_map byte_text bytes.now) }
{
    for byte in bytes {
        push_byte(out, *byte)?;
    }
    Ok(())
}

fn quotation_end(count: usize) -> &'static [u8]
    ensures { result.now ≡ quotation_end count }
{
    if count <= SHOWN_BYTES {
        b"\""
    } else {
        b"\"..."
    }
}

fn push_byte(out: &mut Text, byte: u8) -> Result<(), AllocError>
    ensures { OnOk result (out.new ≡ out.old ++ byte_text byte) }
{
    if b' ' <= byte && byte <= b'~' {
        return out.push(byte);
    }
    out.push_bytes(b"\\x")?;
    out.push(digit_of_sixteen(byte / 16))?;
    out.push(digit_of_sixteen(byte % 16))
}

fn digit_of_sixteen(digit: u8) -> u8
    requires { digit < 16 }
    ensures { result ≡ digit_of_sixteen digit }
{
    if digit < 10 {
        b'0' + digit
    } else {
        b'a' - 10 + digit
    }
}
