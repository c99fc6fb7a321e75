//! A source and a sink in memory, which fail at listed calls. Their contracts determine each call,
//! so that a test can follow the effect of a fault on its caller.
ghost use Rattle.std.specs.Prelude.{◌≡◌, ◌<◌, ◌≤◌, ◌+◌, ◌↔◌, ◌⊎◌, [], IfOk, IsOk, IsTrue, OnOk, OnErr, IsErr, Contains, length, take};
ghost use Rattle.ivs_base.specs.SourceAndSink.{counted, Gave, HasEnded, Took, SourceFailed, SinkFailed, LastReadFailed, LastWriteFailed};
ghost use Rattle.ivs_base.specs.MemorySourceAndSink.{source_at_start, sink_at_start, input_of, read_count, source_after, source_failed, output_of, written_count, sink_after, sink_failed};

use super::ends::{Failed, Sink, Source};
use super::frames::NoMemory;
use std::alloc::Global;
use std::marker::Model;

/// A source over bytes in memory. A call reads the least of `piece`, the length of `into` and the
/// number of bytes left. It fails exactly if its number, counted from 1, is listed.
#[derive(Debug, Drop)]
pub struct MemorySource {
    bytes: Vec<u8>,
    at: usize,
    piece: usize,
    fails: Vec<u64>,
    calls: u64,
    faults: u64,
    failed: bool,
}

impl Model for MemorySource {
    ghost use Rattle.std.specs.Prelude.{◌<◌, ◌≤◌, drop, vec_len};
    ghost use Rattle.ivs_base.specs.MemorySourceAndSink.{MemoryInput};

    ghost Value = { MemoryInput };

    ghost view = { λ s. record { left = drop s.at s.bytes.items; piece = s.piece; fails = s.fails.items; calls = s.calls; faults = s.faults; failed = s.failed } };

    ghost invariant = { λ s. (s.at ≤ vec_len s.bytes) × (0 < s.piece) };
}

impl MemorySource {
    /// Returns a source of these bytes that gives at most `piece` of them in one call. It fails at
    /// the calls whose numbers, counted from 1, are in `fails`.
    // claim with MemorySink::new, MemorySink::bytes, MemorySource::faults, MemorySink::faults,
    //    InputSource::new, InputSource::faults, OutputSink::new, OutputSink::faults: A new source
    //    or sink has the account that its definition gives; its bytes and its count of faults are
    //    that account's.
    pub fn new(
        alloc: Global,
        bytes: &[u8],
        piece: usize,
        fails: &[u64],
    ) -> Result<MemorySource, NoMemory>
        requires { 0 < piece }
        ensures { IfOk result (λ s. s ≡ source_at_start bytes.now piece fails.now) }
    {
        let bytes = bytes.to_vec(alloc)?;
        let fails = fails.to_vec(alloc)?;
        Ok(MemorySource {
            bytes,
            at: 0,
            piece,
            fails,
            calls: 0,
            faults: 0,
            failed: false,
        })
    }

    /// Returns the number of failed calls.
    pub fn faults(&self) -> u64
        ensures { result ≡ self.now.faults }
    {
        self.faults
    }
}

impl Source for MemorySource {
    ghost input = { input_of };

    // claim fails with MemorySink::write.fails: A source or sink in memory fails exactly at the
    //    calls listed, a sink also past its room.
    // claim given, bytes, after, failed with MemorySink::write.taken, MemorySink::write.after,
    //    MemorySink::write.failed: A source or sink in memory moves exactly the bytes that its
    //    piece size and its content allow.
    fn read(&mut self, into: &mut [u8]) -> Result<usize, Failed>
        requires { 0 < length into.old }
        ensures fails { IsErr result ↔ Contains self.old.fails (counted self.old.calls) }
        ensures given { IfOk result (λ k. k ≡ read_count self.old (length into.old)) }
        ensures bytes { IfOk result (λ k. take k into.new ≡ take k self.old.left) }
        ensures after { IfOk result (λ k. self.new ≡ source_after self.old k) }
        ensures failed { OnErr result (self.new ≡ source_failed self.old) }

        // The contract of every source.
        ensures fits { IfOk result (λ k. k ≤ length into.old) }
        ensures gives { IfOk result (λ k. Gave (input_of self.old) (take k into.new) (input_of self.new)) }
        ensures end { IfOk result (λ k. k ≡ 0 → HasEnded (input_of self.new)) }
        ensures quiet { OnOk result ((input_of self.new).faults ≡ (input_of self.old).faults) }
        ensures later { (input_of self.old).faults ≤ (input_of self.new).faults }
        ensures cause { OnErr result (SourceFailed (input_of self.old) (input_of self.new)) }
        ensures fault { OnErr result (LastReadFailed (input_of self.old) (input_of self.new)) }
        ensures nothing { OnErr result (Gave (input_of self.old) [] (input_of self.new)) }
        ensures sound { IsTrue (input_of self.old).never_fails → IsOk result }
        ensures same { (input_of self.new).never_fails ≡ (input_of self.old).never_fails }
    {
        self.calls = self.calls.saturating_add(1);
        if self.fails.contains(&self.calls) {
            self.faults = self.faults.saturating_add(1);
            self.failed = true;
            return Err(Failed);
        }
        self.failed = false;
        let left = self.bytes.len() - self.at;
        let count = left.min(self.piece).min(into.len());
        into[..count].copy_from_slice(&self.bytes[self.at..self.at + count]);
        self.at += count;
        Ok(count)
    }
}

/// A sink into memory that was reserved for it. A call writes the lesser of `piece` and the length
/// of `bytes`. It fails exactly if its number, counted from 1, is listed, or if the bytes that it
/// would write don't fit into `room`.
#[derive(Debug, Drop)]
pub struct MemorySink {
    bytes: Vec<u8>,
    room: usize,
    piece: usize,
    fails: Vec<u64>,
    calls: u64,
    faults: u64,
    failed: bool,
}

impl Model for MemorySink {
    ghost use Rattle.std.specs.Prelude.{◌<◌, ◌≤◌, vec_len, vec_capacity};
    ghost use Rattle.ivs_base.specs.MemorySourceAndSink.{MemoryOutput};

    ghost Value = { MemoryOutput };

    ghost view = { λ s. record { written = s.bytes.items; room = s.room; piece = s.piece; fails = s.fails.items; calls = s.calls; faults = s.faults; failed = s.failed } };

    ghost invariant = { λ s. (s.room ≤ vec_capacity s.bytes) × (vec_len s.bytes ≤ s.room) × (0 < s.piece) };
}

impl MemorySink {
    /// Returns an empty sink for `room` bytes that writes at most `piece` bytes in one call. It
    /// fails at the calls whose numbers, counted from 1, are in `fails`.
    pub fn new(
        alloc: Global,
        room: usize,
        piece: usize,
        fails: &[u64],
    ) -> Result<MemorySink, NoMemory>
        requires { 0 < piece }
        ensures { IfOk result (λ s. s ≡ sink_at_start room piece fails.now) }
    {
        let bytes = Vec::with_capacity(alloc, room)?;
        let fails = fails.to_vec(alloc)?;
        Ok(MemorySink {
            bytes,
            room,
            piece,
            fails,
            calls: 0,
            faults: 0,
            failed: false,
        })
    }

    /// Returns the bytes written.
    pub fn bytes(&self) -> &[u8]
        ensures { result.now ≡ self.now.written }
    {
        self.bytes.as_slice()
    }

    /// Returns the number of failed calls.
    pub fn faults(&self) -> u64
        ensures { result ≡ self.now.faults }
    {
        self.faults
    }
}

impl Sink for MemorySink {
    ghost output = { output_of };

    fn write(&mut self, bytes: &[u8]) -> Result<usize, Failed>
        requires { 0 < length bytes.now }
        ensures fails { IsErr result ↔ (Contains self.old.fails (counted self.old.calls)
            ⊎ (self.old.room < length self.old.written + written_count self.old bytes.now)) }
        ensures taken { IfOk result (λ k. k ≡ written_count self.old bytes.now) }
        ensures after { IfOk result (λ k. self.new ≡ sink_after self.old (take k bytes.now)) }
        ensures failed { OnErr result (self.new ≡ sink_failed self.old) }

        // The contract of every sink.
        ensures some { IfOk result (λ k. 0 < k) }
        ensures fits { IfOk result (λ k. k ≤ length bytes.now) }
        ensures appends { IfOk result (λ k. Took (output_of self.old) (take k bytes.now) (output_of self.new)) }
        ensures quiet { OnOk result ((output_of self.new).faults ≡ (output_of self.old).faults) }
        ensures nothing { OnErr result (Took (output_of self.old) [] (output_of self.new)) }
        ensures later { (output_of self.old).faults ≤ (output_of self.new).faults }
        ensures cause { OnErr result (SinkFailed (output_of self.old) (output_of self.new)) }
        ensures fault { OnErr result (LastWriteFailed (output_of self.old) (output_of self.new)) }
        ensures sound { length bytes.now ≤ (output_of self.old).room → IsOk result }
        ensures room { IfOk result (λ k. (output_of self.old).room ≤ (output_of self.new).room + k) }
    {
        self.calls = self.calls.saturating_add(1);
        let count = bytes.len().min(self.piece);
        if self.fails.contains(&self.calls) || count > self.room - self.bytes.len() {
            self.faults = self.faults.saturating_add(1);
            self.failed = true;
            return Err(Failed);
        }
        self.failed = false;
        self.bytes.extend_from_slice(&bytes[..count]).unwrap();
        Ok(count)
    }
}
