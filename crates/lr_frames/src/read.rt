ghost use Rattle.std.specs.Prelude.{◌≡◌, ◌<◌, ◌^◌, ◌↔◌, decimal, IfOk, IfErr, IsTrue};
ghost use Rattle.lr_names.specs.Name.{IsName};
ghost use Rattle.lr_names.specs.Owner.{IsId, IsOwner, id_text, owner_text};
ghost use Rattle.lr_objects.specs.Amount.{IsAmount};
ghost use Rattle.lr_frames.specs.Faults.{IsOwnerText, IsIdText, IsNumberText, IsAmountText, IsQueueText, IsAccessText};
ghost use Rattle.lr_frames.specs.Given.{queue_word, access_word};
ghost use Rattle.lr_frames.specs.Read.{IsGiven, IsGivenFault};

use crate::fault::OpFault;
use crate::given::Given;
use crate::shape::Shape;
use crate::words::Words;
use lr_limits::MOST_AMOUNT;
use lr_names::{Name, Owner, read_id};
use lr_objects::{Access, Amount};
use lr_text::read_number;
use uuid::Uuid;

/// Reads what a function with this shape is given, behind the name of the object. Owners and ids
/// stand before all numbers, so a `BadName` is told before any `BadNumber`.
pub fn read_given(shape: Shape, words: &Words<'_>) -> Result<Given, OpFault>
    ensures given { IfOk result (IsGiven shape words.now) }
    ensures fault { IfErr result (λ fault. IsGivenFault fault shape words.now) }
{
    let nothing = Given::nothing();
    match shape {
        Shape::Nothing => Ok(nothing),
        Shape::Owner => {
            let owner = owner_of(words.word(1))?;
            Ok(Given::of_owner(&owner))
        }
        Shape::OwnerLease => {
            let owner = owner_of(words.word(1))?;
            let lease = number_of(words.word(2))?;
            Ok(Given::of_lease(&owner, lease))
        }
        Shape::OwnerLeaseQueue => {
            let owner = owner_of(words.word(1))?;
            let lease = number_of(words.word(2))?;
            let queue = queue_of(words.word(3))?;
            Ok(Given {
                queue,
                ..Given::of_lease(&owner, lease)
            })
        }
        Shape::OwnerModeLease => {
            let owner = owner_of(words.word(1))?;
            let access = access_of(words.word(2))?;
            let lease = number_of(words.word(3))?;
            Ok(Given {
                access,
                ..Given::of_lease(&owner, lease)
            })
        }
        Shape::Number => {
            let number = amount_of(words.word(1))?;
            Ok(Given::of_number(number))
        }
        Shape::Id => {
            let id = id_of(words.word(1))?;
            Ok(Given::of_id(&id, 0))
        }
        Shape::IdLease => {
            let id = id_of(words.word(1))?;
            let lease = number_of(words.word(2))?;
            Ok(Given::of_id(&id, lease))
        }
    }
}

/// The name of an object, or `BadName`.
pub fn name_of(word: &[u8]) -> Result<Name, OpFault>
    ensures name { IfOk result (λ name. (name ≡ word.now) × IsName word.now) }
    ensures fault { IfErr result (λ fault. (fault ≡ OpFault.BadName)
        × ¬ (IsName word.now)) }
{
    match Name::parse(word) {
        Ok(name) => Ok(name),
        Err(_) => Err(OpFault::BadName),
    }
}

fn owner_of(word: &[u8]) -> Result<Owner, OpFault>
    ensures owner { IfOk result (λ owner. (word.now ≡ owner_text owner) × IsOwner owner) }
    ensures fault { IfErr result (λ fault. (fault ≡ OpFault.BadName)
        × ¬ (IsOwnerText word.now)) }
{
    match Owner::parse(word) {
        Ok(owner) => Ok(owner),
        Err(_) => Err(OpFault::BadName),
    }
}

fn id_of(word: &[u8]) -> Result<Uuid, OpFault>
    ensures id { IfOk result (λ id. (word.now ≡ id_text id) × IsId id) }
    ensures fault { IfErr result (λ fault. (fault ≡ OpFault.BadName)
        × ¬ (IsIdText word.now)) }
{
    read_id(word).ok_or(OpFault::BadName)
}

fn number_of(word: &[u8]) -> Result<u64, OpFault>
    ensures number { IfOk result (λ number. (word.now ≡ decimal number) × (number < 2 ^ 64)) }
    ensures fault { IfErr result (λ fault. (fault ≡ OpFault.BadNumber)
        × ¬ (IsNumberText word.now)) }
{
    read_number(word).ok_or(OpFault::BadNumber)
}

fn amount_of(word: &[u8]) -> Result<Amount, OpFault>
    ensures number { IfOk result (λ number. (word.now ≡ decimal number) × IsAmount number) }
    ensures fault { IfErr result (λ fault. (fault ≡ OpFault.BadNumber)
        × ¬ (IsAmountText word.now)) }
{
    let number = number_of(word)?;
    if !is_amount(number) {
        return Err(OpFault::BadNumber);
    }
    Ok(Amount::new(number))
}

fn is_amount(number: u64) -> bool
    ensures { IsTrue result ↔ IsAmount number }
{
    1 <= number && number <= MOST_AMOUNT
}

fn queue_of(word: &[u8]) -> Result<bool, OpFault>
    ensures queue { IfOk result (λ queue. word.now ≡ queue_word queue) }
    ensures fault { IfErr result (λ fault. (fault ≡ OpFault.BadNumber)
        × ¬ (IsQueueText word.now)) }
{
    match word {
        b"0" => Ok(false),
        b"1" => Ok(true),
        _ => Err(OpFault::BadNumber),
    }
}

fn access_of(word: &[u8]) -> Result<Access, OpFault>
    ensures access { IfOk result (λ access. word.now ≡ access_word access) }
    ensures fault { IfErr result (λ fault. (fault ≡ OpFault.BadNumber)
        × ¬ (IsAccessText word.now)) }
{
    match word {
        b"0" => Ok(Access::Read),
        b"1" => Ok(Access::Write),
        _ => Err(OpFault::BadNumber),
    }
}
