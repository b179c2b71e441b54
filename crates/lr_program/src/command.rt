// What the words of the command line ask for.
ghost use Rattle.std.specs.Prelude.{◌≡◌, ◌↔◌, ℕ, [], ◌∷◌, IsTrue, IsNone, IfSome};
ghost use Rattle.lr_program.specs.Commands.{IsHelp, IsVersion, IsRaceOf, AreNoRace, IsDrillOf, AreNoDrill};

use crate::drill::read_drill;
use crate::race::read_race;
use lr_text::Text;

/// What the words of the command line ask for.
#[derive(Clone, Copy, Debug, PartialEq, Eq)]
pub enum Command {
    /// What the program does.
    Help,
    /// The program's name and version.
    Version,
    /// Threads that call one server at once.
    Race {
        /// How many threads there are.
        threads: u32,
        /// How many calls each makes.
        calls: u32,
    },
    /// Events that are drawn from a number.
    Drill {
        /// The number.
        number: u64,
        /// How many events there are.
        events: u32,
    },
    /// Anything else: one of the other commands, or a fault.
    Run,
}

/// The command of these words, which don't have the program's own name.
pub fn command_of(words: &[Text]) -> Command
    ensures help { (result ≡ Command.Help) ↔ IsHelp words.now }
    ensures version { (result ≡ Command.Version) ↔ IsVersion words.now }
    ensures race { (threads calls : ℕ)
        → (result ≡ Command.Race threads calls) ↔ IsRaceOf words.now threads calls }
    ensures drill { (number events : ℕ)
        → (result ≡ Command.Drill number events) ↔ IsDrillOf words.now number events }
{
    if is_word(words, b"--help") {
        Command::Help
    } else if is_word(words, b"--version") {
        Command::Version
    } else if let Some((threads, calls)) = race_of(words) {
        Command::Race { threads, calls }
    } else if let Some((number, events)) = drill_of(words) {
        Command::Drill { number, events }
    } else {
        Command::Run
    }
}

// Whether this is the one word.
fn is_word(words: &[Text], text: &[u8]) -> bool
    ensures { IsTrue result ↔ (words.now ≡ text.now ∷ []) }
{
    match words {
        [word] => has_bytes(word, text),
        _ => false,
    }
}

fn has_bytes(word: &Text, text: &[u8]) -> bool
    ensures { IsTrue result ↔ (word.now ≡ text.now) }
{
    word.as_slice() == text
}

// The threads and the calls of each, where the words ask for a race.
fn race_of(words: &[Text]) -> Option<(u32, u32)>
    ensures some { IfSome result (λ race. IsRaceOf words.now race.0 race.1) }
    ensures none { IsNone result → AreNoRace words.now }
{
    match words {
        [first, behind @ ..] if has_bytes(first, b"race") => read_race(behind).ok(),
        _ => None,
    }
}

// The number and how many events are drawn from it, where the words ask for a drill.
fn drill_of(words: &[Text]) -> Option<(u64, u32)>
    ensures some { IfSome result (λ drill. IsDrillOf words.now drill.0 drill.1) }
    ensures none { IsNone result → AreNoDrill words.now }
{
    match words {
        [first, behind @ ..] if has_bytes(first, b"drill") => read_drill(behind).ok(),
        _ => None,
    }
}
