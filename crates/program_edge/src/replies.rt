//! The text that a call writes last.
ghost use Rattle.std.specs.Prelude.{◌≡◌, ◌≢◌, ◌⊎◌, ◌<◌, ◌≤◌, ℕ, IsTrue, length, take};
ghost use Rattle.ivs_base.specs.SourceAndSink.{Took, SinkFailed, LastWriteFailed};
ghost use Rattle.program_edge.specs.Exit.{has_reply};

use crate::exit::Status;
use ivs_base::{Sink, write_whole};

/// Writes `text`. Returns `status` if all of the text was written, and WriteFault otherwise.
// claim whole, cases, part, fault, last, short, quiet, later: A text is written whole, or a front
//    of it with the answer WriteFault.
pub fn write_text<K: Sink>(sink: &mut K, text: &[u8], status: Status) -> Status
    requires { IsTrue (has_reply status) }
    ensures cases { (result ≡ status) ⊎ (result ≡ Status.WriteFault) }
    ensures whole { IsTrue (has_reply result) → Took (K.output sink.old) text.now (K.output sink.new) }
    ensures part { result ≡ Status.WriteFault →
        ((n : ℕ) × Took (K.output sink.old) (take n text.now) (K.output sink.new)) }
    ensures fault { result ≡ Status.WriteFault → SinkFailed (K.output sink.old) (K.output sink.new) }
    ensures last { result ≡ Status.WriteFault → LastWriteFailed (K.output sink.old) (K.output sink.new) }
    ensures short { result ≡ Status.WriteFault → (K.output sink.old).room < length text.now }
    ensures quiet { result ≢ Status.WriteFault → (K.output sink.new).faults ≡ (K.output sink.old).faults }
    ensures later { (K.output sink.old).faults ≤ (K.output sink.new).faults }
{
    match write_whole(sink, text) {
        Ok(()) => status,
        Err(_) => Status::WriteFault,
    }
}
