//! The words of the program, out of its arguments.

ghost use Rattle.std.specs.Prelude.{◌≡◌, ◌≢◌, ◌↔◌, drop, IfOk, IsErrOf, IsErrAnd, IsOkAnd};
ghost use Rattle.std.specs.IoError.{error_kind};
ghost use Rattle.std.specs.Vec.Iter.{into_iter_items};
ghost use Rattle.std.specs.declared.io.ErrorKind.TheVariants.{OutOfMemory};

use std::alloc::Global;
use std::env::Args;
use std::io;
use std::io::ErrorKind;
use thiserror::Error;

/// Why the program has no words.
#[derive(Clone, Copy, Debug, PartialEq, Eq, Error)]
pub enum WordsFault {
    /// A word isn't UTF-8.
    #[error("a word is no text")]
    NotText,
    /// The allocation for the words failed.
    #[error("out of memory")]
    NoMemory,
}

/// Returns the words of the program: its arguments after its name. Returns `NotText` exactly if
/// `args` fails for another reason than memory.
// claim words, not_text: The words are the arguments after the program's name, all and unchanged.
pub fn words_of(alloc: Global, args: io::Result<Args>) -> Result<Vec<String>, WordsFault>
    ensures words { IfOk result (λ w. IsOkAnd args (λ a. w.items ≡ drop 1 (into_iter_items a))) }
    ensures not_text { IsErrOf result WordsFault.NotText ↔ IsErrAnd args (λ e. error_kind e ≢ OutOfMemory) }
{
    let mut args = match args {
        Ok(args) => args,
        Err(e) => {
            return Err(match e.kind() {
                ErrorKind::OutOfMemory => WordsFault::NoMemory,
                _ => WordsFault::NotText,
            });
        }
    };
    let _name = args.next();
    let mut words = Vec::new(alloc);
    while let Some(word) = args.next() {
        if words.push(word).is_err() {
            return Err(WordsFault::NoMemory);
        }
    }
    Ok(words)
}
