// The words behind `race`.
ghost use Rattle.std.specs.Prelude.{◌≡◌, ◌≢◌, ◌≤◌, ℕ, [], ◌∷◌, decimal, IsErr, IfOk};
ghost use Rattle.lr_drill.specs.Race.{race_thread_limit, race_call_limit, IsRaceSize};

use crate::numbers::{NumbersFault, Place, read_within};
use lr_text::Text;

/// How many threads a race has at most. It has at least 1.
pub const MOST_THREADS: u64 = 64;

/// How many calls each thread of a race makes at most. It may make none.
pub const MOST_CALLS: u64 = 10_000;

/// How many threads a race has and how many calls each makes, by the words behind `race`. An error
/// tells the first word that is wrong.
pub fn read_race(words: &[Text]) -> Result<(u32, u32), NumbersFault<'_>>
    ensures text { IfOk result (λ race. words.now ≡ decimal race.0 ∷ decimal race.1 ∷ []) }
    ensures size { IfOk result (λ race. IsRaceSize race.0 race.1) }
    ensures none { IsErr result → (threads calls : ℕ) → IsRaceSize threads calls
        → words.now ≢ decimal threads ∷ decimal calls ∷ [] }
{
    let [threads, behind @ ..] = words else {
        return Err(NumbersFault::Missing(Place::Threads));
    };
    let threads = read_threads(threads)?;
    let [calls, behind @ ..] = behind else {
        return Err(NumbersFault::Missing(Place::Calls));
    };
    let calls = read_calls(calls)?;
    match behind {
        [] => Ok((threads, calls)),
        [word, ..] => Err(NumbersFault::TooMuch(word)),
    }
}

fn read_threads(word: &Text) -> Result<u32, NumbersFault<'_>>
    ensures ok { IfOk result (λ n. (word.now ≡ decimal n) × (1 ≤ n) × (n ≤ race_thread_limit)) }
    ensures err { IsErr result → (n : ℕ) → 1 ≤ n → n ≤ race_thread_limit → word.now ≢ decimal n }
{
    match read_within(word, 1, MOST_THREADS) {
        Some(threads) => Ok(threads as u32),
        None => Err(NumbersFault::Wrong(Place::Threads, word)),
    }
}

fn read_calls(word: &Text) -> Result<u32, NumbersFault<'_>>
    ensures ok { IfOk result (λ n. (word.now ≡ decimal n) × (n ≤ race_call_limit)) }
    ensures err { IsErr result → (n : ℕ) → n ≤ race_call_limit → word.now ≢ decimal n }
{
    match read_within(word, 0, MOST_CALLS) {
        Some(calls) => Ok(calls as u32),
        None => Err(NumbersFault::Wrong(Place::Calls, word)),
    }
}
