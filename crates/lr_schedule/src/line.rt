ghost use Rattle.std.specs.Prelude.{◌≡◌, ◌+◌, ◌≤◌, length, ◌++◌, decimal};

use itoa::Buffer;
use lr_text::ShortText;

/// The room for a short line of a transcript, in bytes: more than any has.
const TRANSCRIPT_BYTES: usize = 256;

/// A line of a transcript, or a part of one, while it is made: it is appended as a whole, or nothing.
pub type Line = ShortText<TRANSCRIPT_BYTES>;

/// Appends a number.
pub fn push_number(line: &mut Line, number: u64)
    requires { length line.old ≤ 236 }
    ensures text { line.new ≡ line.old ++ decimal number }
    ensures short { length line.new ≤ length line.old + 20 }
{
    let mut digits = Buffer::new();
    line.push_bytes(digits.format(number).as_bytes());
}
