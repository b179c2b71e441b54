// The words behind `drill`.
ghost use Rattle.std.specs.Prelude.{◌≡◌, ◌≢◌, ◌<◌, ◌≤◌, ◌^◌, ℕ, [], ◌∷◌, decimal, IsErr, IfOk};
ghost use Rattle.lr_limits.specs.Limits.{event_limit};

use crate::numbers::{NumbersFault, Place, read_within};
use lr_limits::MOST_EVENTS;
use lr_text::{Text, read_number};

/// From which number the events of a drill are drawn, and how many, by the words behind `drill`. An
/// error tells the first word that is wrong.
pub fn read_drill(words: &[Text]) -> Result<(u64, u32), NumbersFault<'_>>
    ensures text { IfOk result (λ drill. words.now ≡ decimal drill.0 ∷ decimal drill.1 ∷ []) }
    ensures size { IfOk result (λ drill. drill.1 ≤ event_limit) }
    ensures none { IsErr result → (number events : ℕ) → number < 2 ^ 64 → events ≤ event_limit
        → words.now ≢ decimal number ∷ decimal events ∷ [] }
{
    let [number, behind @ ..] = words else {
        return Err(NumbersFault::Missing(Place::Number));
    };
    let number = read_first(number)?;
    let [events, behind @ ..] = behind else {
        return Err(NumbersFault::Missing(Place::Events));
    };
    let events = read_events(events)?;
    match behind {
        [] => Ok((number, events)),
        [word, ..] => Err(NumbersFault::TooMuch(word)),
    }
}

fn read_first(word: &Text) -> Result<u64, NumbersFault<'_>>
    ensures ok { IfOk result (λ n. word.now ≡ decimal n) }
    ensures err { IsErr result → (n : ℕ) → n < 2 ^ 64 → word.now ≢ decimal n }
{
    match read_number(word.as_slice()) {
        Some(number) => Ok(number),
        None => Err(NumbersFault::Wrong(Place::Number, word)),
    }
}

fn read_events(word: &Text) -> Result<u32, NumbersFault<'_>>
    ensures ok { IfOk result (λ n. (word.now ≡ decimal n) × (n ≤ event_limit)) }
    ensures err { IsErr result → (n : ℕ) → n ≤ event_limit → word.now ≢ decimal n }
{
    match read_within(word, 0, MOST_EVENTS) {
        Some(events) => Ok(events as u32),
        None => Err(NumbersFault::Wrong(Place::Events, word)),
    }
}
