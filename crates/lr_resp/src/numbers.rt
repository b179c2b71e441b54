ghost use Rattle.std.specs.Prelude.{◌≡◌};
ghost use Rattle.lr_resp.specs.Scan.{is_digit, limit, may_go_on, signed, NumberFits};

use crate::frame::Frame;
use crate::limits::{ARRAY_ITEMS, BULK_BYTES};
use crate::phase::HeadKind;

/// Whether a byte is a digit.
pub fn is_a_digit(byte: u8) -> bool
    ensures { result ≡ is_digit byte }
{
    47 < byte && byte < 58
}

/// The greatest magnitude of a number of this kind.
pub fn limit_of(kind: HeadKind, negative: bool) -> u64
    ensures { result ≡ limit kind negative }
{
    match kind {
        HeadKind::Number => {
            if negative {
                9_223_372_036_854_775_808
            } else {
                9_223_372_036_854_775_807
            }
        }
        HeadKind::Bulk => BULK_BYTES,
        HeadKind::Array => ARRAY_ITEMS,
    }
}

/// Whether more digits may follow those of this number: behind a first 0 none may, nor behind the
/// `-1` of a null.
pub fn can_go_on(kind: HeadKind, negative: bool, number: u64) -> bool
    ensures { result ≡ may_go_on kind negative number }
{
    number != 0 && (!negative || matches!(kind, HeadKind::Number))
}

/// The frame of a number, given by its sign and its magnitude.
#[tactic(auto, unfolding(crate::specs::Scan::signed))]
pub fn number_frame(negative: bool, number: u64) -> Frame
    requires { NumberFits HeadKind.Number negative number }
    ensures { result ≡ Frame.Number (signed negative number) }
{
    Frame::Number(signed_number(negative, number))
}

#[tactic(auto, unfolding(crate::specs::Scan::signed))]
fn signed_number(negative: bool, number: u64) -> i64
    requires { NumberFits HeadKind.Number negative number }
    ensures { result ≡ signed negative number }
{
    if negative {
        -((number - 1) as i64) - 1
    } else {
        number as i64
    }
}
