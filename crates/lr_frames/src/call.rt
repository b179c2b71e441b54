ghost use Rattle.std.specs.Prelude.{◌≡◌, ◌≢◌, ◌∷◌, ◌<◌, length, IfOk, IfErr, IsErr, IfSome, IsTrue, ◌↔◌};
ghost use Rattle.lr_objects.specs.declared.op.Op.{Op};
ghost use Rattle.lr_objects.specs.Function.{function_word};
ghost use Rattle.lr_objects.specs.Op.{IsCall};
ghost use Rattle.lr_frames.specs.Faults.{IsCallFault, IsNoFunction, IsOpFault, IsWordsFault, Fits};
ghost use Rattle.lr_frames.specs.Given.{given_words};
ghost use Rattle.lr_frames.specs.Made.{made_op, made_renewal, made_wanted};
ghost use Rattle.lr_frames.specs.OpWords.{op_function, op_words, op_given, key_count, fcall_words, IsSaid, IsOpOf};
ghost use Rattle.lr_frames.specs.Shape.{shape_of};

use crate::fault::OpFault;
use crate::given::Given;
use crate::read::{name_of, read_given};
use crate::said::check_op;
use crate::shape::Shape;
use crate::words::Words;
use lr_names::Name;
use lr_objects::{Call, Function, Lease, Op, ReadWriteCall, ReadWriteFunction, Want};

/// The count of keys of a call: the name of the object is its one key.
pub const ONE_KEY: &[u8] = b"1";

/// Reads a call by the word of its function and the words behind the count of keys, which are the
/// name of the object and what the function is given. It takes no memory.
///
/// The words are those of the call that is read, and of no other. A fault is the first that fits,
/// in the order of [`OpFault`].
pub fn read_op(function: &[u8], words: &Words<'_>) -> Result<Op, OpFault>
    ensures words { IfOk result (λ op. IsOpOf op function.now words.now) }
    ensures said { IfOk result IsSaid }
    ensures fault { IfErr result (λ fault. IsOpFault fault function.now words.now) }
    ensures alone { IfOk result (λ op. (other : Op) → IsSaid other
        → IsOpOf other function.now words.now → op ≡ other) }
    ensures none { IsErr result → (op : Op) → IsSaid op
        → ¬ (IsOpOf op function.now words.now) }
{
    read_named_op(function, words)
}

fn read_named_op(function: &[u8], words: &Words<'_>) -> Result<Op, OpFault>
    ensures words { IfOk result (λ op. IsOpOf op function.now words.now) }
    ensures said { IfOk result IsSaid }
    ensures fault { IfErr result (λ fault. IsOpFault fault function.now words.now) }
{
    let function = function_of(function)?;
    read_words(function, words)
}

/// Reads a call by the words behind the command of an FCALL: the function, the count of keys, the
/// name of the object and what the function is given. It takes no memory.
///
/// The words are those of the call that is read, and of no other. Without a function or a count of
/// keys the fault is `WrongArguments`. Else it is the first that fits, in the order of [`OpFault`].
pub fn read_call(words: &Words<'_>) -> Result<Op, OpFault>
    ensures words { IfOk result (λ op. words.now ≡ fcall_words op) }
    ensures said { IfOk result IsSaid }
    ensures fault { IfErr result (λ fault. IsCallFault fault words.now) }
    ensures alone { IfOk result (λ op. (other : Op) → IsSaid other
        → words.now ≡ fcall_words other → op ≡ other) }
    ensures none { IsErr result → (op : Op) → IsSaid op → words.now ≢ fcall_words op }
{
    read_keyed(words)
}

fn read_keyed(words: &Words<'_>) -> Result<Op, OpFault>
    ensures words { IfOk result (λ op. words.now ≡ fcall_words op) }
    ensures said { IfOk result IsSaid }
    ensures fault { IfErr result (λ fault. IsCallFault fault words.now) }
{
    if !has_keys(words) {
        return Err(OpFault::WrongArguments);
    }
    let function = function_of(words.word(0))?;
    if !is_one_key(words.word(1)) {
        return Err(OpFault::WrongArguments);
    }
    read_words(function, &words.behind(2))
}

// Whether there are a function and a count of keys.
fn has_keys(words: &Words<'_>) -> bool
    ensures { IsTrue result ↔ (1 < length words.now) }
{
    1 < words.len()
}

fn is_one_key(word: &[u8]) -> bool
    ensures { IsTrue result ↔ (word.now ≡ key_count) }
{
    word == ONE_KEY
}

fn function_of(word: &[u8]) -> Result<Function, OpFault>
    ensures word { IfOk result (λ function. word.now ≡ function_word function) }
    ensures fault { IfErr result (λ fault. (fault ≡ OpFault.NotFunction)
        × IsNoFunction word.now) }
{
    Function::of_word(word).ok_or(OpFault::NotFunction)
}

// Reads the words behind the count of keys.
fn read_words(function: Function, words: &Words<'_>) -> Result<Op, OpFault>
    ensures function { IfOk result (λ op. op_function op ≡ function) }
    ensures words { IfOk result (λ op. words.now ≡ op_words op) }
    ensures said { IfOk result IsSaid }
    ensures fault { IfErr result (λ fault. IsWordsFault fault (shape_of function) words.now) }
{
    let shape = Shape::of(function);
    if words.len() != shape.len() + 1 {
        return Err(OpFault::WrongArguments);
    }
    let name = name_of(words.word(0))?;
    let given = read_given(shape, words)?;
    Ok(said_op(function, &name, &given))
}

// The call of a function on the object with this name, with what it is given.
fn said_op(function: Function, name: &Name, given: &Given) -> Op
    ensures function { op_function result ≡ function }
    ensures words { op_words result ≡ name.now ∷ given_words (shape_of function) given.now }
    ensures said { IsSaid result }
{
    let op = op_of(function, name, given);
    check_op(&op);
    op
}

fn op_of(function: Function, name: &Name, given: &Given) -> Op
    ensures { result ≡ made_op function name.now given.now }
{
    match function {
        Function::ReadWrite(ReadWriteFunction::Renew) => renewal(name, given),
        _ => wanted(function, name, given),
    }
}

// The one call that a want doesn't tell whole.
fn renewal(name: &Name, given: &Given) -> Op
    ensures { result ≡ made_renewal name.now given.now }
{
    Op {
        name: *name,
        call: Call::ReadWrite(ReadWriteCall::Renew {
            access: given.access,
            owner: given.owner,
            lease: given.lease,
        }),
    }
}

fn wanted(function: Function, name: &Name, given: &Given) -> Op
    ensures { result ≡ made_wanted function name.now given.now }
{
    let want = Want {
        function,
        name: *name,
        lease: Lease::For(given.lease),
        number: given.number.number(),
        id: given.id,
    };
    want.op(&given.owner, given.lease, given.queue)
}
