ghost use Rattle.std.specs.Prelude.{◌≡◌, ◌≢◌, ◌≤◌, ℕ, List, [], ◌∷◌, ◌++◌, decimal, true, IsErr, IfOk};
ghost use Rattle.lr_limits.specs.Limits.{last_moment};
ghost use Rattle.lr_objects.specs.declared.kinds.Function.{Function};
ghost use Rattle.lr_objects.specs.declared.want.Want.{Want};
ghost use Rattle.lr_objects.specs.Function.{function_word, begins};
ghost use Rattle.lr_objects.specs.Want.{want_words};
ghost use Rattle.lr_waiting.specs.Begin.{CanBegin};
ghost use Rattle.lr_machine.specs.declared.event.Event.{Event};
ghost use Rattle.lr_machine.specs.EventText.{event_text, AreNumbers, IsEvent, IsSpelled};
ghost use Rattle.lr_machine.specs.Transcript.{IsLine};
ghost use Rattle.lr_schedule.specs.declared.spelled.Spelled.{Spelled};
ghost use Rattle.lr_schedule.specs.declared.verb.Verb.{Verb};
ghost use Rattle.lr_schedule.specs.Spelled.{event_of, verb_word, Completes, IsMode, Spells};

use crate::arguments::read_arguments;
use crate::fault::{Expected, Fault};
use crate::kind::read_kind;
use crate::mode::{fits_mode, read_mode};
use crate::reader::Reader;
use crate::spelled::{Spelled, Who};
use crate::verb::{RenewVerb, Verb};
use lr_limits::LAST_MOMENT;
use lr_machine::ScheduleLine;
use lr_objects::{Function, Mode, Want};

/// What the line of a schedule with this number is.
///
/// A line is read to exactly what it spells: to an event whose text it is, if event and number are
/// within the limits, and else to `TooMany`. A line that is the text of no event is `Bad`, whatever
/// its number.
pub fn read_line(number: u64, line: &[u8]) -> ScheduleLine
    ensures { IsLine number line.now result }
{
    match read_spelled(line) {
        Ok(spelled) => spelled.limited(number),
        Err(_) => ScheduleLine::Bad,
    }
}

/// The event that a line spells, within its limits or not. A fault says at which word the line is
/// the text of none.
pub fn read_spelled(line: &[u8]) -> Result<Spelled, Fault>
    ensures text { IfOk result (λ s. line.now ≡ event_text (event_of s)) }
    ensures event { IfOk result (λ s. IsEvent (event_of s)) }
    ensures none { IsErr result → (event : Event) → IsEvent event → line.now ≢ event_text event }
{
    let mut reader = Reader::new(line);
    match read_words(&mut reader) {
        Ok(spelled) => Ok(spelled),
        Err(expected) => Err(Fault {
            place: expected.place(reader.place()),
            expected,
        }),
    }
}

// The event of exactly these words.
fn read_words(reader: &mut Reader<'_>) -> Result<Spelled, Expected>
    ensures some { IfOk result (λ s. Spells reader.old s []) }
    ensures none { IsErr result → (s : Spelled) → ¬ Spells reader.old s [] }
{
    let spelled = read_event(reader)?;
    reader.end()?;
    Ok(spelled)
}

// The event of the first words that are left.
fn read_event(reader: &mut Reader<'_>) -> Result<Spelled, Expected>
    ensures some { IfOk result (λ s. Spells reader.old s reader.new) }
    ensures none { IsErr result → (s : Spelled) (rest : List (List ℕ))
        → ¬ Spells reader.old s rest }
{
    let verb = read_verb(reader)?;
    read_more(verb, reader)
}

fn read_verb(reader: &mut Reader<'_>) -> Result<Verb, Expected>
    ensures some { IfOk result (λ verb. reader.old ≡ verb_word verb ∷ reader.new) }
    ensures none { IsErr result → (verb : Verb) (rest : List (List ℕ))
        → reader.old ≢ verb_word verb ∷ rest }
{
    let word = reader.word(Expected::Verb)?;
    Verb::of_word(word).ok_or(Expected::Verb)
}

// What stands behind a verb.
fn read_more(verb: Verb, reader: &mut Reader<'_>) -> Result<Spelled, Expected>
    ensures some { IfOk result (λ s. Completes verb reader.old s reader.new) }
    ensures none { IsErr result → (s : Spelled) (rest : List (List ℕ))
        → ¬ Completes verb reader.old s rest }
{
    match verb {
        Verb::Begin => read_begin(reader),
        Verb::Thread(verb) => Ok(Spelled::Thread(verb, read_who(reader)?)),
        Verb::Client(verb) => Ok(Spelled::Client(verb, reader.number(Expected::Client)?)),
        Verb::Tick => Ok(Spelled::Tick(read_moment(reader)?)),
        Verb::Renew(verb) => read_renewal(verb, reader),
        Verb::Force => Ok(Spelled::Force(reader.name()?)),
        Verb::Show => Ok(Spelled::Show),
    }
}

// What stands behind `begin`.
fn read_begin(reader: &mut Reader<'_>) -> Result<Spelled, Expected>
    ensures some { IfOk result (λ s. Completes Verb.Begin reader.old s reader.new) }
    ensures none { IsErr result → (s : Spelled) (rest : List (List ℕ))
        → ¬ Completes Verb.Begin reader.old s rest }
{
    let who = read_who(reader)?;
    let mode = read_mode(reader)?;
    let want = read_want(mode, reader)?;
    Ok(Spelled::Begin(who, mode, want))
}

// What stands behind each verb of a renewal: whose hold it is, and of which lock.
fn read_renewal(verb: RenewVerb, reader: &mut Reader<'_>) -> Result<Spelled, Expected>
    ensures some { IfOk result (λ s. Completes (Verb.Renew verb) reader.old s reader.new) }
    ensures none { IsErr result → (s : Spelled) (rest : List (List ℕ))
        → ¬ Completes (Verb.Renew verb) reader.old s rest }
{
    let who = read_who(reader)?;
    let kind = read_kind(reader)?;
    let name = reader.name()?;
    Ok(Spelled::Renew(verb, who, kind, name))
}

// A client and a thread.
fn read_who(reader: &mut Reader<'_>) -> Result<Who, Expected>
    ensures some { IfOk result (λ who.
        reader.old ≡ decimal who.client ∷ decimal who.thread ∷ reader.new) }
    ensures numbers { IfOk result (λ who. AreNumbers who.client who.thread) }
    ensures none { IsErr result → (client thread : ℕ) (rest : List (List ℕ))
        → AreNumbers client thread → reader.old ≢ decimal client ∷ decimal thread ∷ rest }
{
    let client = reader.number(Expected::Client)?;
    let thread = reader.number(Expected::Thread)?;
    Ok(Who { client, thread })
}

// What a request with this mode wants.
fn read_want(mode: Mode, reader: &mut Reader<'_>) -> Result<Want, Expected>
    requires { IsMode mode }
    ensures some { IfOk result (λ want. reader.old ≡ want_words want ++ reader.new) }
    ensures begins { IfOk result (λ want. CanBegin mode want) }
    ensures spelled { IfOk result IsSpelled }
    ensures none { IsErr result → (want : Want) (rest : List (List ℕ)) → CanBegin mode want
        → IsSpelled want → reader.old ≢ want_words want ++ rest }
{
    let function = read_function(reader)?;
    if !fits_mode(mode, function) {
        return Err(Expected::Once(function));
    }
    let name = reader.name()?;
    read_arguments(function.arguments(), function, name, reader)
}

// A function with which a request can begin.
fn read_function(reader: &mut Reader<'_>) -> Result<Function, Expected>
    ensures some { IfOk result (λ function. reader.old ≡ function_word function ∷ reader.new) }
    ensures begins { IfOk result (λ function. begins function ≡ true) }
    ensures none { IsErr result → (function : Function) (rest : List (List ℕ))
        → begins function ≡ true → reader.old ≢ function_word function ∷ rest }
{
    let word = reader.word(Expected::Function)?;
    match Function::of_word(word) {
        Some(function) if function.begins() => Ok(function),
        _ => Err(Expected::Function),
    }
}

// A moment that a clock can show.
fn read_moment(reader: &mut Reader<'_>) -> Result<u64, Expected>
    ensures some { IfOk result (λ moment. reader.old ≡ decimal moment ∷ reader.new) }
    ensures last { IfOk result (λ moment. moment ≤ last_moment) }
    ensures none { IsErr result → (moment : ℕ) (rest : List (List ℕ)) → moment ≤ last_moment
        → reader.old ≢ decimal moment ∷ rest }
{
    let moment = reader.number(Expected::Moment)?;
    if moment > LAST_MOMENT {
        return Err(Expected::Moment);
    }
    Ok(moment)
}
