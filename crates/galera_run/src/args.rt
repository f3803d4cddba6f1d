ghost use Rattle.std.specs.Prelude.{◌≡◌, ◌↔◌, IfOk, IfErr, is_err, IsTrue};
ghost use Rattle.std.specs.IoError.{error_kind};
ghost use Rattle.std.specs.declared.io.ErrorKind.TheVariants as kind;
ghost use Rattle.galera_run.specs.Args.{words_behind};

use std::alloc::{AllocError, Global};
use std::env::Args;
use std::io;
use std::io::ErrorKind;

/// The words behind the program's name. A word that is not UTF-8 is part of no command: then there
/// is none.
pub(crate) fn words_of(alloc: Global, given: io::Result<Args>) -> Result<Vec<String>, AllocError>
    ensures ok { IfOk result (λ words. words.items ≡ words_behind given) }
    // Where no words were given, there is no memory exactly where the fault was that there is none.
    ensures memory { IfErr given
        (λ fault. IsTrue (is_err result) ↔ (error_kind fault ≡ kind.OutOfMemory)) }
{
    match given {
        Ok(words) => behind_first(alloc, words),
        Err(fault) => match fault.kind() {
            ErrorKind::OutOfMemory => Err(AllocError),
            _ => Ok(Vec::new(alloc)),
        },
    }
}

ghost use Rattle.std.specs.Prelude.{drop};
ghost use Rattle.std.specs.Vec.Iter.{into_iter_items};

// All words but the first.
fn behind_first(alloc: Global, mut given: Args) -> Result<Vec<String>, AllocError>
    ensures { IfOk result (λ words. words.items ≡ drop 1 (into_iter_items given)) }
{
    let mut words = Vec::new(alloc);
    let _name = given.next();
    'words: while let Some(word) = given.next() {
        words.push(word)?;
    }
    Ok(words)
}
