//! The top call.
ghost use Rattle.std.specs.Prelude.{◌≡◌, None, IfOk, IsErrOf, map};
ghost use Rattle.std.specs.String.{string_bytes};
ghost use Rattle.program_edge.specs.Words.{form_of};
ghost use Rattle.program_edge.specs.Exit.{IsUsage};
ghost use Rattle.ivshm_explain.specs.Explained.{HasCause};

use crate::explaining::{Reply, reply_to, too_many};
use ivs_base::{ReadEnd, Sink, Source};
use program_edge::{Status, WordsFault, read_form, read_input, write_text};
use std::alloc::Global;

/// The line that says which words the program knows.
const USAGE: &[u8] =
    b"usage: ivshm_explain sim | run | replay | renew | dump | config P | load N | capture P | feed P | ports | bridge\n";

/// Runs the words of the program, which are its arguments after its name and those of `ivshm`.
/// Reads the input of that form to its end, and explains the answer of `ivshm` to it. Nothing is
/// written before the explanation is whole. `load N` reads nothing, and is never refused. The
/// status is that of `ivshm` on the same words and bytes.
// claim cause: Each status has its cause. An explanation begins with the line that `ivshm` answers
//    and with the faulty line or bytes. A difference has the line found, and the line due in the
//    lawful history.
// claim usage, unread: Other words read nothing, and are answered by Usage.
pub fn explain<S: Source, K: Sink>(
    alloc: Global,
    words: &[String],
    source: &mut S,
    sink: &mut K,
) -> Status
    ensures cause { HasCause result (form_of (map string_bytes words.now)) (S.input source.old) (S.input source.new)
        (K.output sink.old) (K.output sink.new) }
    // Words that are no form read nothing, and are never answered by NoMemory.
    ensures usage { form_of (map string_bytes words.now) ≡ None → IsUsage result }
    ensures unread { form_of (map string_bytes words.now) ≡ None → source.new ≡ source.old }
{
    let Some(form) = read_form(words) else {
        return write_text(sink, USAGE, Status::Usage);
    };
    let bytes = match read_input(alloc, form, source) {
        Ok(bytes) => bytes,
        Err(ReadEnd::ReadFault) => return Status::ReadFault,
        Err(ReadEnd::NoMemory) => return Status::NoMemory,
        Err(ReadEnd::TooLong) => match too_many(alloc, form) {
            Ok(text) => return write_text(sink, &text, Status::Refused),
            Err(_) => return Status::NoMemory,
        },
    };
    match reply_to(alloc, form, &bytes) {
        Ok(reply) => {
            let Reply { status, text } = reply;
            write_text(sink, &text, status)
        }
        Err(_) => Status::NoMemory,
    }
}

/// The status of the program on its words, or on words that can't be had. A word that isn't UTF-8
/// is no form.
pub fn status_of_words<S: Source, K: Sink>(
    alloc: Global,
    words: Result<Vec<String>, WordsFault>,
    source: &mut S,
    sink: &mut K,
) -> Status
    ensures words { IfOk words (λ w. HasCause result (form_of (map string_bytes w.items))
        (S.input source.old) (S.input source.new) (K.output sink.old) (K.output sink.new)) }
    ensures not_text { IsErrOf words WordsFault.NotText → HasCause result None (S.input source.old) (S.input source.new)
        (K.output sink.old) (K.output sink.new) }
    ensures no_memory { IsErrOf words WordsFault.NoMemory →
        (result ≡ Status.NoMemory) × (source.new ≡ source.old) × (sink.new ≡ sink.old) }
{
    match words {
        Ok(words) => explain(alloc, words.as_slice(), source, sink),
        Err(WordsFault::NotText) => write_text(sink, USAGE, Status::Usage),
        Err(WordsFault::NoMemory) => Status::NoMemory,
    }
}
