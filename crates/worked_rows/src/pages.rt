//! Pages: their rows, one after another. Each row is answered once its last line was read.
use crate::answers::{Answer, Question};
use crate::calls;
use crate::rows::{Row, Texts};
use std::alloc::{AllocError, Global};
use std::collections::BTreeMap;
use std::io;
use std::thread::Threads;

/// The texts that rows may use, and the number of rows and lines with a fault.
#[derive(Drop)]
pub(crate) struct Pages {
    texts: Texts,
    faults: u64,
}

/// A line of a page, with its number.
#[derive(Clone, Copy)]
struct Place<'a> {
    page: &'a str,
    number: usize,
    line: &'a str,
}

/// The question about the output of a row.
#[derive(Clone, Copy)]
struct Next<'a> {
    is_call: bool,
    words: &'a str,
}

/// Returns the question of the line about the output of the row before it, if it has one.
fn next_of(line: &str) -> Option<Next<'_>> {
    let (is_call, words) = match line.strip_prefix("then ") {
        Some(words) => (false, words),
        None => (true, line.strip_prefix("then_call ")?),
    };
    Some(Next { is_call, words })
}

/// Returns the row that a line begins. Other lines between rows are for the reader.
fn row_of(alloc: Global, line: &str) -> io::Result<Option<Row>> {
    Ok(match line.strip_prefix("row ") {
        Some(name) => Some(Row::new(alloc, name)?),
        None => None,
    })
}

/// Returns the difference between an answer and what the row expects.
fn fault_of(alloc: Global, row: &Row, answer: &Answer) -> Result<Option<String>, AllocError> {
    if answer.status != row.status {
        let (found, wanted) = (answer.status, row.status);
        return Ok(Some(format!(in alloc; "status {found}, and must be {wanted}")?));
    }
    if answer.has_run != (row.status == 0 && row.question.runs()) {
        return Ok(Some(String::from_str(alloc, "peers ran, or must run")?));
    }
    for wanted in &row.wanted {
        if let Some(fault) = wanted.fault(alloc, answer.output.as_slice())? {
            return Ok(Some(fault));
        }
    }
    Ok(None)
}

impl Pages {
    pub(crate) fn new(alloc: Global) -> Pages {
        Pages {
            texts: BTreeMap::new(alloc),
            faults: 0,
        }
    }

    /// Whether every row so far was answered as its page says.
    pub(crate) fn all_hold(&self) -> bool {
        self.faults == 0
    }

    /// Computes the answer of a row, reports whether it is the expected one, and returns the
    /// output.
    fn try_row<R: Threads + Sync + Print>(
        &mut self,
        rt: &R,
        alloc: Global,
        row: &Row,
    ) -> io::Result<Vec<u8>> {
        let answer = if row.question.is_call {
            calls::answer(alloc, &row.question)?
        } else {
            row.question.answer(rt, alloc)?
        };
        let name = row.name.as_str();
        match fault_of(alloc, row, &answer)? {
            None => println!(rt; "{name}")?,
            Some(fault) => {
                self.faults = self.faults.saturating_add(1);
                let fault = fault.as_str();
                println!(rt; "FAILED {name}: {fault}")?;
            }
        }
        Ok(answer.output)
    }

    /// Returns the row with this question about the output of the row before.
    fn row_after<R: Threads + Sync + Print>(
        &mut self,
        rt: &R,
        alloc: Global,
        before: &Row,
        next: Next<'_>,
    ) -> io::Result<Row> {
        let words = next.words;
        let name = before.name.as_str();
        let name = format!(in alloc; "{name}, then {words}")?;
        let mut row = Row::new(alloc, name.as_str())?;
        row.question.input = self.try_row(rt, alloc, before)?;
        row.question.ask(alloc, next.is_call, words)?;
        Ok(row)
    }

    /// Ends a row. A row without a question is a text for others to use.
    fn end_row<R: Threads + Sync + Print>(
        &mut self,
        rt: &R,
        alloc: Global,
        row: Row,
    ) -> io::Result<()> {
        if row.question.is_asked {
            self.try_row(rt, alloc, &row)?;
            return Ok(());
        }
        let Row { name, question, .. } = row;
        let Question { input, .. } = question;
        self.texts.insert(name, input)?;
        Ok(())
    }

    /// Takes a line of a row, and reports a line that can't be taken.
    fn next_line<R: Threads + Sync + Print>(
        &mut self,
        rt: &R,
        alloc: Global,
        mut row: Row,
        place: Place<'_>,
    ) -> io::Result<Row> {
        let line = place.line;
        if let Some(next) = next_of(line) {
            return self.row_after(rt, alloc, &row, next);
        }
        if row.take_line(alloc, &self.texts, line).is_err() {
            self.faults = self.faults.saturating_add(1);
            let (page, number) = (place.page, place.number);
            println!(rt; "FAILED {page}: line {number} can't be taken: {line}")?;
        }
        Ok(row)
    }

    /// Tries each row of a page.
    pub(crate) fn try_page<R: Threads + Sync + Print>(
        &mut self,
        rt: &R,
        alloc: Global,
        name: &str,
        page: &str,
    ) -> io::Result<()> {
        let mut open: Option<Row> = None;
        for (place, line) in page.split_terminator('\n').enumerate() {
            open = match open {
                None => row_of(alloc, line)?,
                Some(row) if line == "end" => {
                    self.end_row(rt, alloc, row)?;
                    None
                }
                Some(row) => Some(self.next_line(
                    rt,
                    alloc,
                    row,
                    Place {
                        page: name,
                        number: place.saturating_add(1),
                        line,
                    },
                )?),
            };
        }
        if let Some(row) = open {
            self.end_row(rt, alloc, row)?;
        }
        Ok(())
    }
}
