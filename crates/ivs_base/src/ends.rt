//! Sources and sinks of bytes. A call may read or write fewer bytes than it was passed, and may
//! fail. So `read_all` and `write_whole` are loops over calls.
ghost use Rattle.std.specs.Prelude.{◌≡◌, ◌≢◌, ℕ, ◌+◌, ◌-◌, ◌<◌, ◌≤◌, ◌^◌, [], IfOk, IsOk, IsTrue, OnOk, OnErr, IsErrOf, length, take};
ghost use Rattle.ivs_base.specs.SourceAndSink.{Input, Output, Gave, GaveCount, GaveAtMost, HasEnded, Took, SourceFailed, SinkFailed, LastReadFailed, LastWriteFailed};
ghost use Rattle.ivs_base.specs.declared.ends.ReadEnd.TheVariants.{ReadFault as SourceFault, NoMemory as OutOfMemory};

use std::alloc::{AllocError, Global};
use thiserror::Error;

/// The greatest number of bytes that `read_all` reads in one call.
const CHUNK: usize = 65536;

/// The error of a call of a source or a sink.
#[derive(Clone, Copy, Debug, PartialEq, Eq, Error)]
#[error("the call failed")]
pub struct Failed;

/// A source of bytes.
pub trait Source {
    /// The view of the source.
    ghost input: { Self → Input };

    /// Reads the next bytes into the front of `into`, and returns their number. 0 is the end of the
    /// source. A failed call consumes no bytes and increments the fault count, which no other call
    /// changes.
    // claim nothing, fault, cause: A failed read takes no bytes, and leaves the account of a failed
    //    source.
    // claim fits, gives, end: A read returns the next bytes of the source, at most as many as it
    //    has room for; 0 is returned at the end alone.
    fn read(&mut self, into: &mut [u8]) -> Result<usize, Failed>
        requires { 0 < length into.old }
        ensures fits { IfOk result (λ k. k ≤ length into.old) }
        ensures gives { IfOk result (λ k. Gave (input self.old) (take k into.new) (input self.new)) }
        ensures end { IfOk result (λ k. k ≡ 0 → HasEnded (input self.new)) }
        ensures quiet { OnOk result ((input self.new).faults ≡ (input self.old).faults) }
        ensures later { (input self.old).faults ≤ (input self.new).faults }
        ensures cause { OnErr result (SourceFailed (input self.old) (input self.new)) }
        ensures fault { OnErr result (LastReadFailed (input self.old) (input self.new)) }
        ensures nothing { OnErr result (Gave (input self.old) [] (input self.new)) }
        ensures sound { IsTrue (input self.old).never_fails → IsOk result }
        ensures same { (input self.new).never_fails ≡ (input self.old).never_fails };
}

/// A sink of bytes.
pub trait Sink {
    /// The view of the sink.
    ghost output: { Self → Output };

    /// Writes a non-empty prefix of `bytes` and returns its length. A failed call writes no bytes
    /// and increments the fault count, which no other call changes.
    // claim some, fits, appends: A write takes at least one byte from the front of its input, and
    //    appends exactly these.
    // claim nothing, fault, cause, quiet, later: A failed write takes no bytes and adds one to the
    //    count of faults; no other write adds to it.
    // claim sound, room: A write succeeds if the sink is certain to have room for all its bytes,
    //    and uses no more room than it took bytes.
    fn write(&mut self, bytes: &[u8]) -> Result<usize, Failed>
        requires { 0 < length bytes.now }
        ensures some { IfOk result (λ k. 0 < k) }
        ensures fits { IfOk result (λ k. k ≤ length bytes.now) }
        ensures appends { IfOk result (λ k. Took (output self.old) (take k bytes.now) (output self.new)) }
        ensures quiet { OnOk result ((output self.new).faults ≡ (output self.old).faults) }
        ensures nothing { OnErr result (Took (output self.old) [] (output self.new)) }
        ensures later { (output self.old).faults ≤ (output self.new).faults }
        ensures cause { OnErr result (SinkFailed (output self.old) (output self.new)) }
        ensures fault { OnErr result (LastWriteFailed (output self.old) (output self.new)) }
        ensures sound { length bytes.now ≤ (output self.old).room → IsOk result }
        ensures room { IfOk result (λ k. (output self.old).room ≤ (output self.new).room + k) };
}

/// The reason for which a source wasn't read to its end.
#[derive(Clone, Copy, Debug, PartialEq, Eq, Error)]
pub enum ReadEnd {
    /// A call of the source failed.
    #[error("the source failed")]
    ReadFault,
    /// The source has more bytes than the limit.
    #[error("the source has too many bytes")]
    TooLong,
    /// An allocation for the bytes failed.
    #[error("out of memory")]
    NoMemory,
}

impl From<Failed> for ReadEnd {
    ghost from_gives = { λ _ e. e ≡ SourceFault };

    fn from(_e: Failed) -> ReadEnd {
        ReadEnd::ReadFault
    }
}

impl From<AllocError> for ReadEnd {
    ghost from_gives = { λ _ e. e ≡ OutOfMemory };

    fn from(_e: AllocError) -> ReadEnd {
        ReadEnd::NoMemory
    }
}

/// Reads all bytes of a source up to its end, at most `limit` bytes. It never consumes more than
/// `limit + 1` bytes, and calls the source no more after a failed call.
// claim bytes, end, within: A whole read returns exactly the bytes up to the end of the source, at
//    most `limit` of them.
// claim too_long, no_memory: `TooLong` is returned exactly if one byte past the limit was taken; no
//    call takes more.
// claim fault, last, front: `ReadFault` is returned only if a call of the source failed. That call
//    was the last one, and the bytes before it were within the limit.
// claim quiet, sound, later with Source::read.quiet, Source::read.sound, Source::read.later,
//    Source::read.same: A call adds one to the count of faults exactly if it fails. A source that
//    never fails gives no `ReadFault`.
pub fn read_all<S: Source>(alloc: Global, source: &mut S, limit: u64) -> Result<Vec<u8>, ReadEnd>
    requires { limit < 2 ^ 64 - 1 }
    ensures bytes { IfOk result (λ v. Gave (S.input source.old) v.items (S.input source.new)) }
    ensures end { OnOk result (HasEnded (S.input source.new)) }
    ensures within { IfOk result (λ v. length v.items ≤ limit) }

    // The byte after the limit shows that there are too many; no byte after it is consumed.
    ensures too_long { IsErrOf result ReadEnd.TooLong →
        GaveCount (S.input source.old) (limit + 1) (S.input source.new) }
    ensures fault { IsErrOf result ReadEnd.ReadFault → SourceFailed (S.input source.old) (S.input source.new) }
    ensures last { IsErrOf result ReadEnd.ReadFault → LastReadFailed (S.input source.old) (S.input source.new) }
    ensures front { IsErrOf result ReadEnd.ReadFault → GaveAtMost (S.input source.old) limit (S.input source.new) }
    ensures sound { IsTrue (S.input source.old).never_fails → result ≢ Err ReadEnd.ReadFault }
    ensures no_memory { IsErrOf result ReadEnd.NoMemory →
        GaveAtMost (S.input source.old) (limit + 1) (S.input source.new) }
    ensures quiet { result ≢ Err ReadEnd.ReadFault → (S.input source.new).faults ≡ (S.input source.old).faults }
    ensures later { (S.input source.old).faults ≤ (S.input source.new).faults }
{
    let mut bytes = Vec::new(alloc);
    let mut chunk = [0u8; CHUNK];
    while (bytes.len() as u64) <= limit {
        let room = limit - bytes.len() as u64 + 1;
        let want = room.min(CHUNK as u64) as usize;
        let taken = source.read(&mut chunk[..want])?;
        if taken == 0 {
            return Ok(bytes);
        }
        bytes.extend_from_slice(&chunk[..taken])?;
    }
    Err(ReadEnd::TooLong)
}

/// The error of a write of which the sink wrote only a part.
#[derive(Clone, Copy, Debug, PartialEq, Eq, Error)]
#[error("the sink failed")]
pub struct WriteFault;

impl From<Failed> for WriteFault {
    fn from(_e: Failed) -> WriteFault {
        WriteFault
    }
}

/// Writes all bytes in order. After a fault a prefix of the bytes is written, and the sink is
/// called no more. It never returns NoMemory.
// claim whole, quiet: A whole write appends all bytes, and no call of the sink failed.
// claim front, fault, last, sound, later: If a call fails, a front of the bytes was written, the
//    failed call was the last one, and the sink had no certain room for all bytes.
pub fn write_whole<K: Sink>(sink: &mut K, bytes: &[u8]) -> Result<(), WriteFault>
    ensures whole { OnOk result (Took (K.output sink.old) bytes.now (K.output sink.new)) }
    ensures quiet { OnOk result ((K.output sink.new).faults ≡ (K.output sink.old).faults) }
    ensures front { OnErr result ((count : ℕ) × Took (K.output sink.old) (take count bytes.now) (K.output sink.new)) }
    ensures fault { OnErr result (SinkFailed (K.output sink.old) (K.output sink.new)) }
    ensures last { OnErr result (LastWriteFailed (K.output sink.old) (K.output sink.new)) }
    ensures sound { OnErr result ((K.output sink.old).room < length bytes.now) }
    ensures later { (K.output sink.old).faults ≤ (K.output sink.new).faults }
{
    let mut at = 0;
    while at < bytes.len() {
        at += sink.write(&bytes[at..])?;
    }
    Ok(())
}
