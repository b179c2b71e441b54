ghost use Rattle.std.specs.Prelude.{◌≡◌, ◌≢◌, ℕ, ◌<◌, ◌^◌, ◌++◌, ◌↔◌, length, slice_index, decimal, IsTrue, IsNone, IfSome, OnOk, OnErr};

use crate::text::Text;
use itoa::Buffer;
use std::alloc::AllocError;
use std::str;

/// The number that this text spells: `0`, or digits that do not start with 0, at most
/// 18,446,744,073,709,551,615. No other text is a number.
pub fn read_number(text: &[u8]) -> Option<u64>
    ensures some { IfSome result (λ n. text.now ≡ decimal n) }
    ensures none { IsNone result → (n : ℕ) → n < 2 ^ 64 → text.now ≢ decimal n }
{
    if !has_plain_start(text) {
        return None;
    }
    match str::from_utf8(text) {
        Ok(digits) => read_plain(digits),
        Err(_) => None,
    }
}

// std's `parse`, which beyond our numbers takes only a sign and leading zeros.
fn read_plain(text: &str) -> Option<u64>
    requires no_sign { slice_index text.now 0 ≢ 43 }
    requires no_zeros { slice_index text.now 0 ≡ 48 → length text.now ≡ 1 }
    ensures some { IfSome result (λ n. text.now ≡ decimal n) }
    ensures none { IsNone result → (n : ℕ) → n < 2 ^ 64 → text.now ≢ decimal n }
{
    text.parse().ok()
}

// Neither a sign nor a zero that more bytes follow.
fn has_plain_start(text: &[u8]) -> bool
    ensures { IsTrue result ↔
        ((slice_index text.now 0 ≢ 43) × (slice_index text.now 0 ≡ 48 → length text.now ≡ 1)) }
{
    match text {
        [b'+', ..] => false,
        [b'0', _, ..] => false,
        _ => true,
    }
}

/// Appends the spelling of a number. An error leaves the text as it was.
pub fn write_number(out: &mut Text, number: u64) -> Result<(), AllocError>
    ensures ok { OnOk result (out.new ≡ out.old ++ decimal number) }
    ensures err { OnErr result (out.new ≡ out.old) }
{
    let mut buffer = Buffer::new();
    out.push_bytes(buffer.format(number).as_bytes())
}
