//! Reads a record's text line by line. A reader keeps only the bytes that it hasn't read.
ghost use Rattle.std.specs.Prelude.{◌≡◌, ◌≢◌, ◌++◌, ◌+◌, ◌≤◌, ◌<◌, ◌^◌, ℕ, List, IfSome, IsNone, length};

use crate::drafts::{RecordDraft, RecordPosition};
use crate::faults::RecordFault;
use crate::growing::put_lines;
use crate::taking::{LineContent, read_line};
use ivs_base::NoMemory;
use lawful_history::Line;
use line_format::{LineFault, TakeLines, cut};
use scenario_text::Scenario;
use std::alloc::Global;

/// A record's text, read up to a line of its history.
#[derive(Drop)]
pub struct Reader<'a> {
    /// The bytes after the last line that was read.
    pub rest: &'a [u8],
    /// The number of that line. The record's first line is line 1.
    pub number: u64,
    /// The number of lines of the history that were read.
    pub count: u64,
    /// The text of the lines that `pass` compares.
    pub part: Vec<u8>,
    pub ghost few: { number + length rest.now < 2 ^ 63 },
    pub ghost counted: { count ≤ number },
}

/// Returns the bytes after `part`, or `None` if `bytes` doesn't begin with it.
fn after_part<'a>(part: &[u8], bytes: &'a [u8]) -> Option<&'a [u8]>
    ensures rest { IfSome result (λ rest. bytes.now ≡ part.now ++ rest.now) }
    ensures none { IsNone result → (rest : List ℕ) → bytes.now ≢ part.now ++ rest }
{
    if bytes.len() < part.len() {
        return None;
    }
    let (front, rest) = bytes.split_at(part.len());
    if front != part {
        return None;
    }
    Some(rest)
}

impl<'a> Reader<'a> {
    ghost use Rattle.std.specs.Prelude.{◌≡◌, ◌↔◌, ◌++◌, [], ℕ, List, IfOk, IfErr, true};
    ghost use Rattle.scenario_text.specs.Spelling.{world_of};
    ghost use Rattle.lawful_history.specs.Frames.{HaveFrames};
    ghost use Rattle.lawful_history.specs.Versions.{is_version};
    ghost use Rattle.record_text.specs.Judge.{answer};
    ghost use Rattle.record_text.specs.Answers.{Refuses};
    ghost use Rattle.record_text.specs.Readers.{IsReading, BeginWith, InEachReading, ReadsOn, GoesPast};

    /// Reads the record's version and its scenario, up to the history. Returns the text's first
    /// fault if it is before the history, and `NoMemory` if memory ran out.
    pub fn begin(alloc: Global, bytes: &'a [u8]) -> Result<(u32, Scenario, Reader<'a>), RecordFault>
        ensures begun { IfOk result (λ front. IsReading bytes.now front.0 (world_of front.1) [] front.2) }
        ensures known { IfOk result (λ front. is_version front.0 ≡ true) }
        ensures refused { IfErr result (λ fault. Refuses fault (answer bytes.now)) }
    {
        let mut draft = RecordDraft::new(alloc);
        let mut rest = bytes;
        let mut number: u64 = 0;
        while draft.position != RecordPosition::AtHistory {
            let Some((line, more)) = cut(b'\n', rest) else {
                return Err(RecordFault::NoEnd);
            };
            match draft.take(alloc, line) {
                Err(LineFault::NoMemory) => return Err(RecordFault::NoMemory),
                Err(LineFault::Wrong(cause)) => return Err(cause.at(number + 1)),
                Ok(()) => {}
            }
            number += 1;
            rest = more;
        }
        let RecordDraft { version, head, .. } = draft;
        let reader = Reader {
            rest,
            number,
            count: 0,
            part: Vec::new(alloc),
        };
        Ok((version, head.finish(), reader))
    }

    /// Reads the next line of the history. Returns `None` at the end of the text, if the count of
    /// lines is right. After a fault no clause says what the reader is. Returns `NoMemory` if
    /// memory ran out.
    // claim reads, shorter with Reader::begin.begun, Reader::begin.known, Reader::begin.refused: A
    //    reader returns the lines of a record one at a time, and keeps none. After them the text is
    //    the record of these lines, or has the fault that `parse` names.
    pub fn next(&mut self, alloc: Global) -> Result<Option<Line>, RecordFault>
        ensures shorter { IfOk result
            (λ found. IfSome found (λ _. length self.new.rest.now < length self.old.rest.now)) }
        ensures reads { InEachReading self.old
            (λ bytes version world lines. ReadsOn bytes version world lines result self.new) }
    {
        let Some((line, more)) = cut(b'\n', self.rest) else {
            return Err(RecordFault::NoEnd);
        };
        match read_line(alloc, line) {
            Err(LineFault::NoMemory) => Err(RecordFault::NoMemory),
            Err(LineFault::Wrong(cause)) => Err(cause.at(self.number + 1)),
            Ok(LineContent::Line(found)) => {
                self.rest = more;
                self.number += 1;
                self.count += 1;
                Ok(Some(found))
            }
            Ok(LineContent::Count(kept)) => {
                let found = self.count;
                if kept != found {
                    return Err(RecordFault::BadCount { kept, found });
                }
                if !more.is_empty() {
                    return Err(RecordFault::BadLine(self.number + 2));
                }
                Ok(None)
            }
        }
    }

    /// Reads these lines and returns true, exactly if the text continues with them. Otherwise reads
    /// no line. The lines are written and their bytes are compared, so no line is parsed. Returns
    /// `NoMemory` if memory ran out.
    // claim past, exact, shorter: Lines may be skipped by their bytes, as if they had been read,
    //    exactly if the text continues with them.
    pub fn pass(&mut self, lines: &[Line]) -> Result<bool, NoMemory>
        requires { HaveFrames lines.now }
        ensures exact { IfOk result (λ is. (is ≡ true) ↔ BeginWith self.old.rest.now lines.now) }
        ensures shorter { IfOk result (λ is. is ≡ true →
            length self.new.rest.now + length lines.now ≤ length self.old.rest.now) }
        ensures past { InEachReading self.old (λ bytes version world before.
            IfOk result (λ is. GoesPast bytes version world before lines.now is self.new)) }
    {
        self.part.clear();
        put_lines(&mut self.part, lines)?;
        let Some(rest) = after_part(self.part.as_slice(), self.rest) else {
            return Ok(false);
        };
        self.rest = rest;
        self.number += lines.len() as u64;
        self.count += lines.len() as u64;
        Ok(true)
    }
}
