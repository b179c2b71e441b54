ghost use Rattle.std.specs.Prelude.{◌≡◌, ◌≢◌, ◌<◌, ◌^◌, ℕ, pos, IsNone, IfSome};

use lr_objects::Integer;
use lr_resp::Frame;

// The frame of a number.
pub fn frame(number: &Integer) -> Frame
    ensures { result ≡ Frame.Number (pos number.now) }
{
    Frame::Number(signed(number))
}

fn signed(number: &Integer) -> i64
    ensures { result ≡ pos number.now }
{
    number.value() as i64
}

// A number that isn't negative: `None` exactly where it is.
pub fn natural(number: &i64) -> Option<Integer>
    ensures some { IfSome result (λ natural. number.now ≡ pos natural) }
    ensures none { IsNone result → (natural : ℕ) → number.now ≢ pos natural }
{
    if *number < 0 {
        return None;
    }
    Some(Integer::new(*number as u64))
}
