// The two numbers behind `race` or `drill`.
ghost use Rattle.std.specs.Prelude.{◌≡◌, ◌≢◌, ◌≤◌, ◌↔◌, ℕ, decimal, IsTrue, IsNone, IfSome};

use lr_text::{Text, read_number};

/// A number that stands behind a command.
#[derive(Clone, Copy)]
pub enum Place {
    /// How many threads a race has.
    Threads,
    /// How many calls each thread of a race makes.
    Calls,
    /// The number from which a drill draws its events.
    Number,
    /// How many events a drill has.
    Events,
}

/// What is wrong with the words behind a command that takes two numbers.
#[derive(Clone, Copy)]
pub enum NumbersFault<'a> {
    /// This number isn't there.
    Missing(Place),
    /// The word at the place of this number doesn't spell one, or one outside its limits.
    Wrong(Place, &'a Text),
    /// This word stands behind both numbers.
    TooMuch(&'a Text),
}

/// The number that a word spells, where it is within these limits.
pub fn read_within(word: &Text, least: u64, most: u64) -> Option<u64>
    ensures some { IfSome result (λ n. (word.now ≡ decimal n) × (least ≤ n) × (n ≤ most)) }
    ensures none { IsNone result → (n : ℕ) → least ≤ n → n ≤ most → word.now ≢ decimal n }
{
    let number = read_number(word.as_slice())?;
    if !is_within(number, least, most) {
        return None;
    }
    Some(number)
}

fn is_within(number: u64, least: u64, most: u64) -> bool
    ensures { IsTrue result ↔ ((least ≤ number) × (number ≤ most)) }
{
    least <= number && number <= most
}
