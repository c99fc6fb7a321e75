//! The top call.
ghost use Rattle.std.specs.Prelude.{◌≡◌, None, IfOk, IsErrOf, map};
ghost use Rattle.std.specs.String.{string_bytes};
ghost use Rattle.ivshm_chart.specs.Forms.{form_of};
ghost use Rattle.ivshm_chart.specs.Charts.{HasCause};
ghost use Rattle.program_edge.specs.Exit.{IsUsage};

use crate::replies::{Drawn, Reply, reply_to};
use crate::words::read_form;
use ivs_base::{ReadEnd, Sink, Source, read_all};
use program_edge::{RECORD_LIMIT, Status, WordsFault, write_text};
use std::alloc::Global;

/// The usage line, which lists the program's words.
const USAGE: &[u8] = b"usage: ivshm_chart [--text] [FROM TO]\n";

/// Runs the program's words, its arguments after its name. Reads a record to its end, and writes
/// the picture of its lines, as an SVG file or as a text for a terminal. Nothing is written before
/// the text is complete.
///
/// `drawn` is `None` before the call. After the call it holds the picture and the line that it
/// marks, if the text that was due is a picture.
// claim cause: If the chart is done, the source was read to its end, its bytes spell a record, and
//    a picture of the lines asked for was written. It marks the line of the verdict of `ivshm
//    replay`. Another text is refused by its first fault's line.
// claim unread, usage: The words are none, or FROM and TO with 1 ≤ FROM ≤ TO, after `--text` or
//    without it. Words that are no form read nothing.
pub fn chart<S: Source, K: Sink>(
    alloc: Global,
    words: &[String],
    source: &mut S,
    sink: &mut K,
    drawn: &mut Option<Drawn>,
) -> Status
    requires { drawn.old ≡ None }
    ensures cause { HasCause result (form_of (map string_bytes words.now)) (S.input source.old) (S.input source.new)
        (K.output sink.old) (K.output sink.new) drawn.new }
    // For words that the program doesn't know nothing is read, and NoMemory is never the answer.
    ensures usage { form_of (map string_bytes words.now) ≡ None → IsUsage result }
    ensures unread { form_of (map string_bytes words.now) ≡ None → source.new ≡ source.old }
{
    let Some(form) = read_form(words) else {
        return write_text(sink, USAGE, Status::Usage);
    };
    let bytes = match read_all(alloc, source, RECORD_LIMIT) {
        Ok(bytes) => bytes,
        Err(ReadEnd::ReadFault) => return Status::ReadFault,
        Err(ReadEnd::NoMemory) => return Status::NoMemory,
        Err(ReadEnd::TooLong) => return write_text(sink, b"refused 0 TooLong\n", Status::Refused),
    };
    match reply_to(alloc, form, &bytes) {
        Ok(reply) => {
            let Reply {
                status,
                text,
                drawn: made,
            } = reply;
            *drawn = made;
            write_text(sink, &text, status)
        }
        Err(_) => Status::NoMemory,
    }
}

/// Returns the status of the program for the words that it has, or for `words` that can't be had. A
/// word that isn't UTF-8 is none that the program knows.
pub fn status_of_words<S: Source, K: Sink>(
    alloc: Global,
    words: Result<Vec<String>, WordsFault>,
    source: &mut S,
    sink: &mut K,
    drawn: &mut Option<Drawn>,
) -> Status
    requires { drawn.old ≡ None }
    ensures words { IfOk words (λ w. HasCause result (form_of (map string_bytes w.items))
        (S.input source.old) (S.input source.new) (K.output sink.old) (K.output sink.new) drawn.new) }
    ensures not_text { IsErrOf words WordsFault.NotText → HasCause result None (S.input source.old) (S.input source.new)
        (K.output sink.old) (K.output sink.new) drawn.new }
    ensures no_memory { IsErrOf words WordsFault.NoMemory →
        (result ≡ Status.NoMemory) × (source.new ≡ source.old) × (sink.new ≡ sink.old) }
{
    match words {
        Ok(words) => chart(alloc, words.as_slice(), source, sink, drawn),
        Err(WordsFault::NotText) => write_text(sink, USAGE, Status::Usage),
        Err(WordsFault::NoMemory) => Status::NoMemory,
    }
}
