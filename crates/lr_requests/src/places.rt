ghost use Rattle.std.specs.Prelude.{◌≡◌, ◌≢◌, ◌<◌, ◌^◌, ℕ, suc, List, ◌∷◌, decimal, IsNone, IfSome};
ghost use Rattle.std.specs.Fmt.{signed_decimal};
ghost use Rattle.lr_requests.specs.Places.{IsPlace, IsPlaceText};

use lr_text::read_number;

/// The magnitude of the least number of 64 bits with a sign.
const LEAST: u64 = 9_223_372_036_854_775_808;

/// The number of 64 bits with a sign that this text spells: `0`, or digits that do not start with
/// 0, with a minus sign before them or none. No other text is such a number, `-0` isn't either.
pub fn read_place(text: &[u8]) -> Option<i64>
    ensures text { IfSome result (λ place. text.now ≡ signed_decimal place) }
    ensures place { IfSome result IsPlace }
    ensures none { IsNone result → ¬ (IsPlaceText text.now) }
{
    match after_minus(text) {
        Some(digits) => read_negative(digits),
        None => read_positive(text),
    }
}

fn after_minus(text: &[u8]) -> Option<&[u8]>
    ensures some { IfSome result (λ digits. text.now ≡ 45 ∷ digits.now) }
    ensures none { IsNone result → (digits : List ℕ) → text.now ≢ 45 ∷ digits }
{
    match text {
        [b'-', digits @ ..] => Some(digits),
        _ => None,
    }
}

fn read_positive(text: &[u8]) -> Option<i64>
    ensures text { IfSome result (λ place. text.now ≡ signed_decimal place) }
    ensures place { IfSome result IsPlace }
    ensures none { IsNone result → (n : ℕ) → n < 2 ^ 63 → text.now ≢ decimal n }
{
    let number = read_number(text)?;
    if number >= LEAST {
        return None;
    }
    Some(number as i64)
}

// The digits behind a minus sign.
fn read_negative(digits: &[u8]) -> Option<i64>
    ensures text { IfSome result (λ place. 45 ∷ digits.now ≡ signed_decimal place) }
    ensures place { IfSome result IsPlace }
    ensures none { IsNone result → (n : ℕ) → n < 2 ^ 63 → digits.now ≢ decimal (suc n) }
{
    let number = read_number(digits)?;
    if number == 0 || number > LEAST {
        return None;
    }
    Some(-((number - 1) as i64) - 1)
}
