ghost use Rattle.std.specs.Prelude.{◌≡◌, ◌≢◌, ◌↔◌, ℕ, List, ◌∷◌, ◌++◌, decimal, IsTrue, IsErr, IsNone, IfOk, IfSome};
ghost use Rattle.lr_objects.specs.declared.want.Want.{Want};
ghost use Rattle.lr_objects.specs.Amount.{IsAmount};
ghost use Rattle.lr_objects.specs.Want.{lease_word, argument_words};
ghost use Rattle.lr_objects.specs.declared.want.Lease.{Lease};
ghost use Rattle.lr_machine.specs.EventText.{IsLease, IsMillis};
ghost use Rattle.lr_schedule.specs.Spelled.{IsGiven};

use crate::fault::Expected;
use crate::reader::Reader;
use lr_limits::MOST_AMOUNT;
use lr_names::Name;
use lr_objects::{Arguments, Function, Lease, Want};
use lr_text::read_number;
use uuid::Uuid;

/// Reads what a function with these arguments is given, into a want of the function for the object
/// with this name. What such a function isn't given is absent from it.
pub fn read_arguments(
    arguments: Arguments,
    function: Function,
    name: Name,
    reader: &mut Reader<'_>,
) -> Result<Want, Expected>
    ensures some { IfOk result (λ want.
        reader.old ≡ argument_words arguments want ++ reader.new) }
    ensures given { IfOk result (IsGiven arguments) }
    ensures same { IfOk result (λ want. (want.function ≡ function) × (want.name ≡ name)) }
    ensures none { IsErr result → (want : Want) (rest : List (List ℕ)) → IsGiven arguments want
        → reader.old ≢ argument_words arguments want ++ rest }
{
    let absent = Want {
        function,
        name,
        lease: Lease::For(0),
        number: 0,
        id: Uuid::nil(),
    };
    match arguments {
        Arguments::Lease => {
            let lease = read_lease(reader)?;
            Ok(Want { lease, ..absent })
        }
        Arguments::Number => {
            let number = read_amount(reader)?;
            Ok(Want { number, ..absent })
        }
        Arguments::Nothing => Ok(absent),
        Arguments::Id => {
            let id = reader.id()?;
            Ok(Want { id, ..absent })
        }
        Arguments::IdAndLease => {
            let id = reader.id()?;
            let lease = read_permit_lease(reader)?;
            Ok(Want {
                id,
                lease,
                ..absent
            })
        }
    }
}

// A lease in milliseconds, or the watchdog's.
fn read_lease(reader: &mut Reader<'_>) -> Result<Lease, Expected>
    ensures some { IfOk result (λ lease. reader.old ≡ lease_word lease ∷ reader.new) }
    ensures lease { IfOk result IsLease }
    ensures none { IsErr result → (lease : Lease) (rest : List (List ℕ)) → IsLease lease
        → reader.old ≢ lease_word lease ∷ rest }
{
    let word = reader.word(Expected::Lease)?;
    lease_of_word(word).ok_or(Expected::Lease)
}

fn lease_of_word(word: &[u8]) -> Option<Lease>
    ensures some { IfSome result (λ lease. word.now ≡ lease_word lease) }
    ensures lease { IfSome result IsLease }
    ensures none { IsNone result → (lease : Lease) → IsLease lease → word.now ≢ lease_word lease }
{
    if word == b"watch".as_slice() {
        return Some(Lease::Watch);
    }
    let millis = read_number(word)?;
    Some(Lease::For(millis))
}

// The lease of a permit, which no watchdog renews: in milliseconds.
fn read_permit_lease(reader: &mut Reader<'_>) -> Result<Lease, Expected>
    ensures some { IfOk result (λ lease. reader.old ≡ lease_word lease ∷ reader.new) }
    ensures millis { IfOk result IsMillis }
    ensures none { IsErr result → (lease : Lease) (rest : List (List ℕ)) → IsMillis lease
        → reader.old ≢ lease_word lease ∷ rest }
{
    let millis = reader.number(Expected::PermitLease)?;
    Ok(Lease::For(millis))
}

// A number of permits or counts.
fn read_amount(reader: &mut Reader<'_>) -> Result<u64, Expected>
    ensures some { IfOk result (λ n. reader.old ≡ decimal n ∷ reader.new) }
    ensures amount { IfOk result IsAmount }
    ensures none { IsErr result → (n : ℕ) (rest : List (List ℕ)) → IsAmount n
        → reader.old ≢ decimal n ∷ rest }
{
    let number = reader.number(Expected::Amount)?;
    if !is_amount(number) {
        return Err(Expected::Amount);
    }
    Ok(number)
}

fn is_amount(number: u64) -> bool
    ensures { IsTrue result ↔ IsAmount number }
{
    1 <= number && number <= MOST_AMOUNT
}
