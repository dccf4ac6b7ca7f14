//! The words of the command line.

ghost use Rattle.std.specs.Prelude.{◌≡◌, IfOk};
ghost use Rattle.std.specs.Iterator.{IsFinite};
ghost use Rattle.std.specs.Iterator.Runs.{WholeRun};

use std::alloc::{AllocError, Global};
use std::env;
use std::env::Env;
use std::io::ErrorKind;

/// The words behind the program's name. Where an argument isn't UTF-8 they are none, since no such
/// words are the program's.
pub fn program_words(rt: &(impl Env + AllocGlobal)) -> Result<Vec<String>, AllocError> {
    match env::args(rt) {
        Ok(args) => all_words(rt.alloc(), args.skip(1)),
        Err(fault) if fault.kind() == ErrorKind::InvalidData => Ok(Vec::new(rt.alloc())),
        Err(_) => Err(AllocError),
    }
}

/// All words that an iterator gives, in order.
fn all_words<W: Iterator<Item = String>>(alloc: Global, words: W) -> Result<Vec<String>, AllocError>
    requires can { W.can_next words }
    requires ends { IsFinite (W.remaining words) }
    ensures { IfOk result (λ all. WholeRun W.next_gives words (λ run. all.items ≡ run.items)) }
{
    words.collect(alloc)
}
