//! Standard input and standard output as a source and a sink. Their views are the views of their
//! reader and writer. The bytes of standard input and standard output are unknown to contracts:
//! that boundary is trusted.
ghost use Rattle.std.specs.Prelude.{◌≡◌, ◌+◌, ◌<◌, ◌≤◌, ◌↔◌, [], IfOk, IsOk, OnOk, OnErr, IsTrue, false, length, take};
ghost use Rattle.ivs_base.specs.SourceAndSink.{counted, Gave, HasEnded, Took, SourceFailed, SinkFailed, LastReadFailed, LastWriteFailed};

use super::ends::{Failed, Sink, Source};
use std::io::{Read, Write};
use std::marker::Model;

/// Standard input, or another reader. It counts each error of the reader as a fault.
#[derive(Drop)]
pub struct InputSource<R: Read> {
    reader: R,
    ended: bool,
    failed: bool,
    faults: u64,
}

impl<R: Read> Model for InputSource<R> {
    ghost use Rattle.std.specs.Prelude.{false};
    ghost use Rattle.ivs_base.specs.SourceAndSink.{Input};

    ghost Value = { Input };

    ghost view = { λ s. record { left = R.remaining s.reader; ended = s.ended; failed = s.failed; faults = s.faults; never_fails = false } };
}

impl<R: Read> InputSource<R> {
    /// Returns a source over a reader, with no faults. Its bytes left are the reader's.
    pub fn new(reader: R) -> Self
        ensures { result ≡
            record { left = R.remaining reader; ended = false; failed = false; faults = 0; never_fails = false } }
    {
        InputSource {
            reader,
            ended: false,
            failed: false,
            faults: 0,
        }
    }

    /// Returns the number of failed calls, at most 2^64 - 1.
    pub fn faults(&self) -> u64
        ensures { result ≡ self.now.faults }
    {
        self.faults
    }
}

impl<R: Read> Source for InputSource<R> {
    ghost input = { λ s. s };

    // claim end, last, counts, kept with OutputSink::write.counts, OutputSink::write.kept: Standard
    //    ends count every error; the error of a reader is never its end, and a write that takes
    //    nothing is an error.
    fn read(&mut self, into: &mut [u8]) -> Result<usize, Failed>
        requires { 0 < length into.old }
        ensures end { IfOk result (λ k. IsTrue self.new.ended ↔ (k ≡ 0)) }
        ensures kept { OnOk result (self.new.faults ≡ self.old.faults) }
        ensures counts { OnErr result (self.new.faults ≡ counted self.old.faults) }

        // The contract of every source.
        ensures fits { IfOk result (λ k. k ≤ length into.old) }
        ensures gives { IfOk result (λ k. Gave self.old (take k into.new) self.new) }
        ensures last { IfOk result (λ k. k ≡ 0 → HasEnded self.new) }
        ensures quiet { OnOk result (self.new.faults ≡ self.old.faults) }
        ensures later { self.old.faults ≤ self.new.faults }
        ensures cause { OnErr result (SourceFailed self.old self.new) }
        ensures fault { OnErr result (LastReadFailed self.old self.new) }
        ensures nothing { OnErr result (Gave self.old [] self.new) }
        ensures sound { IsTrue self.old.never_fails → IsOk result }
        ensures same { self.new.never_fails ≡ self.old.never_fails }
    {
        match self.reader.read(into) {
            Ok(count) => {
                self.ended = count == 0;
                self.failed = false;
                Ok(count)
            }
            Err(_) => {
                self.faults = self.faults.saturating_add(1);
                self.failed = true;
                Err(Failed)
            }
        }
    }
}

/// Standard output, or another writer. It counts each error of the writer as a fault, and each
/// write of no bytes.
#[derive(Drop)]
pub struct OutputSink<W: Write> {
    writer: W,
    failed: bool,
    faults: u64,
}

impl<W: Write> Model for OutputSink<W> {
    ghost use Rattle.ivs_base.specs.SourceAndSink.{Output};

    ghost Value = { Output };

    ghost view = { λ s. record { written = W.contents s.writer; failed = s.failed; faults = s.faults; room = 0 } };
}

impl<W: Write> OutputSink<W> {
    /// Returns a sink over a writer, with no faults. Its bytes written are the writer's.
    pub fn new(writer: W) -> Self
        ensures { result ≡ record { written = W.contents writer; failed = false; faults = 0; room = 0 } }
    {
        OutputSink {
            writer,
            failed: false,
            faults: 0,
        }
    }

    /// Returns the number of failed calls, at most 2^64 - 1.
    pub fn faults(&self) -> u64
        ensures { result ≡ self.now.faults }
    {
        self.faults
    }
}

impl<W: Write> Sink for OutputSink<W> {
    ghost output = { λ s. s };

    fn write(&mut self, bytes: &[u8]) -> Result<usize, Failed>
        requires { 0 < length bytes.now }
        ensures kept { OnOk result (self.new.faults ≡ self.old.faults) }
        ensures counts { OnErr result (self.new.faults ≡ counted self.old.faults) }

        // The contract of every sink.
        ensures some { IfOk result (λ k. 0 < k) }
        ensures fits { IfOk result (λ k. k ≤ length bytes.now) }
        ensures appends { IfOk result (λ k. Took self.old (take k bytes.now) self.new) }
        ensures quiet { OnOk result (self.new.faults ≡ self.old.faults) }
        ensures nothing { OnErr result (Took self.old [] self.new) }
        ensures later { self.old.faults ≤ self.new.faults }
        ensures cause { OnErr result (SinkFailed self.old self.new) }
        ensures fault { OnErr result (LastWriteFailed self.old self.new) }
        ensures sound { length bytes.now ≤ self.old.room → IsOk result }
        ensures room { IfOk result (λ k. self.old.room ≤ self.new.room + k) }
    {
        match self.writer.write(bytes) {
            Ok(count) if count > 0 => {
                self.failed = false;
                Ok(count)
            }
            _ => {
                self.faults = self.faults.saturating_add(1);
                self.failed = true;
                Err(Failed)
            }
        }
    }
}
