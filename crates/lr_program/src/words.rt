// The words of the command line.
ghost use Rattle.std.specs.Prelude.{◌≡◌, ◌⊎◌, map, drop, string_bytes, Err, IfOk, IfErr, IsOk, OnOk};
ghost use Rattle.std.specs.Vec.Iter.{into_iter_items};
ghost use Rattle.std.specs.IoError.{error_kind};
ghost use Rattle.lr_outside.specs.declared.status.Status.TheVariants.{Usage, NoMemory};
ghost use Rattle.lr_program.specs.Words.{unread_status};

use lr_outside::Status;
use lr_text::{Items, Text};
use std::alloc::{AllocError, Global};
use std::env::Args;
use std::io::ErrorKind;
use std::rt::Env;
use std::{env, io};

/// The words behind the program's own name. A word that isn't UTF-8 is a fault of the command line.
pub fn read_words<R: Env + AllocGlobal>(rt: &R) -> Result<Items, Status>
    ensures { IfErr result (λ status. (status ≡ Usage) ⊎ (status ≡ NoMemory)) }
{
    words_of(rt.alloc(), env::args(rt))
}

// The words behind the first one of a command line as std gives it.
fn words_of(alloc: Global, line: io::Result<Args>) -> Result<Items, Status>
    ensures ok { OnOk result (IsOk line) }
    ensures words { IfOk result (λ words. IfOk line (λ args.
        words ≡ drop 1 (map string_bytes (into_iter_items args)))) }
    ensures no_memory { IfOk line (λ _. IfErr result (λ status. status ≡ NoMemory)) }
    ensures unread { IfErr line (λ error. result ≡ Err (unread_status (error_kind error))) }
{
    match line {
        Ok(args) => behind_first(alloc, args).map_err(|_| Status::NoMemory),
        Err(error) => Err(unread_status(error.kind())),
    }
}

// The status for a command line that std can't give: it has a word that isn't UTF-8, or there is no
// memory for it.
fn unread_status(kind: ErrorKind) -> Status
    ensures { result ≡ unread_status kind }
{
    match kind {
        ErrorKind::OutOfMemory => Status::NoMemory,
        _ => Status::Usage,
    }
}

// The words of a command line as std gives it.
fn collected(alloc: Global, words: Args) -> Result<Vec<String>, AllocError>
    ensures { IfOk result (λ all. all.items ≡ into_iter_items words) }
{
    words.collect(alloc)
}

// Copies of all words but the first.
fn behind_first(alloc: Global, words: Args) -> Result<Items, AllocError>
    ensures { IfOk result (λ copies. copies ≡ drop 1 (map string_bytes (into_iter_items words))) }
{
    let words = collected(alloc, words)?;
    match words.split_first() {
        Some((_, words)) => copied(alloc, words),
        None => Ok(Items::new(alloc)),
    }
}

fn copied(alloc: Global, words: &[String]) -> Result<Items, AllocError>
    ensures { IfOk result (λ copies. copies ≡ map string_bytes words.now) }
{
    let mut copies = Items::new(alloc);
    for word in words {
        copies.push(Text::of(alloc, word.as_bytes())?)?;
    }
    Ok(copies)
}
