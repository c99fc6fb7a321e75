//! What a command reads of its source.
ghost use Rattle.std.specs.Prelude.{◌≡◌, ◌≢◌, ◌^◌, ◌<◌, ◌≤◌, false, None, Err, IsSome, IsTrue, IfOk, IsErrOf, length};
ghost use Rattle.ivs_base.specs.SourceAndSink.{SourceFailed, LastReadFailed};
ghost use Rattle.program_edge.specs.Words.{limit_of};
ghost use Rattle.program_edge.specs.Inputs.{passes, HasRead, HasReadToTheEnd, IsTooLong};

use crate::words::{Command, limit};
use ivs_base::{ReadEnd, Source, read_all};
use std::alloc::Global;

/// Reads the input of a command to its end. A command without a limit reads nothing.
// claim read, whole, short, small, too_long, fault, last, sound, quiet, nothing, later: A command's
//    input is read to its end, within the command's limit. Otherwise one byte past the limit was
//    read, or the source failed. A command without a limit reads nothing.
pub fn read_input<S: Source>(
    alloc: Global,
    form: Command,
    source: &mut S,
) -> Result<Vec<u8>, ReadEnd>
    ensures read { IfOk result (λ v. HasRead (limit_of form) (S.input source.old) (S.input source.new) v.items) }
    ensures whole { IfOk result (λ v. HasReadToTheEnd (limit_of form) (S.input source.old) (S.input source.new) v.items) }
    ensures short { IfOk result (λ v. passes (limit_of form) v.items ≡ false) }
    ensures small { IfOk result (λ v. length v.items < 2 ^ 63) }
    ensures too_long { IsErrOf result ReadEnd.TooLong → IsTooLong form (S.input source.old) (S.input source.new) }
    ensures fault { IsErrOf result ReadEnd.ReadFault →
        IsSome (limit_of form) × SourceFailed (S.input source.old) (S.input source.new) }
    ensures last { IsErrOf result ReadEnd.ReadFault → LastReadFailed (S.input source.old) (S.input source.new) }
    ensures sound { IsTrue (S.input source.old).never_fails → result ≢ Err ReadEnd.ReadFault }
    ensures quiet { result ≢ Err ReadEnd.ReadFault → (S.input source.new).faults ≡ (S.input source.old).faults }
    ensures nothing { limit_of form ≡ None → source.new ≡ source.old }
    ensures later { (S.input source.old).faults ≤ (S.input source.new).faults }
{
    match limit(form) {
        Some(most) => read_all(alloc, source, most),
        None => Ok(Vec::new(alloc)),
    }
}
