//! A row while it is read: its question, the expected answer, and each of its lines.
use crate::answers::Question;
use crate::bytes;
use crate::bytes::{halves, number};
use crate::checks::{Kind, Wanted};
use crate::runs::Run;
use std::alloc::Global;
use std::collections::BTreeMap;
use std::io;
use std::io::ErrorKind;

/// Texts by their names.
pub(crate) type Texts = BTreeMap<String, Vec<u8>>;

/// A question, the expected status of its answer, and the expectations of its output.
#[derive(Drop)]
pub(crate) struct Row {
    pub(crate) name: String,
    pub(crate) question: Question,
    pub(crate) status: u64,
    pub(crate) wanted: Vec<Wanted>,
}

impl Row {
    pub(crate) fn new(alloc: Global, name: &str) -> io::Result<Row> {
        Ok(Row {
            name: String::from_str(alloc, name)?,
            question: Question::new(alloc),
            status: 0,
            wanted: Vec::new(alloc),
        })
    }

    /// Returns the bytes that lines are added to: the input, and then the last expectation.
    fn bytes(&mut self) -> &mut Vec<u8> {
        match self.wanted.last_mut() {
            Some(wanted) => &mut wanted.bytes,
            None => &mut self.question.input,
        }
    }

    /// Begins an expectation of this kind, to which the next lines are added.
    fn want(&mut self, alloc: Global, kind: Kind) -> io::Result<()> {
        self.wanted.push(Wanted {
            kind,
            beginning: Vec::new(alloc),
            bytes: Vec::new(alloc),
        })?;
        Ok(())
    }

    /// Begins an expectation of the lines of the output with this beginning.
    fn want_only(&mut self, alloc: Global, beginning: &str) -> io::Result<()> {
        self.wanted.push(Wanted {
            kind: Kind::Only,
            beginning: beginning.as_bytes().to_vec(alloc)?,
            bytes: Vec::new(alloc),
        })?;
        Ok(())
    }

    /// Begins an expectation of lines of the output, by a number and a text.
    fn want_lines(&mut self, alloc: Global, head: &str, rest: &str) -> io::Result<()> {
        let (count, text) = halves(rest);
        let count = number(count)?;
        let kind = match head {
            "count" => Kind::Count(count),
            "lines" => Kind::Lines(count),
            _ => Kind::Line(count),
        };
        self.want(alloc, kind)?;
        bytes::add_text(self.bytes(), text)
    }

    /// Expects a run of lines of the output, by its first number, its last number and a text.
    fn want_run(&mut self, alloc: Global, rest: &str) -> io::Result<()> {
        let (first, rest) = halves(rest);
        let (last, text) = halves(rest);
        let (first, last) = (number(first)?, number(last)?);
        self.want(alloc, Kind::Run(Run { first, last }))?;
        bytes::add_text(self.bytes(), text)
    }

    /// Adds the text with this name, repeated if a number follows. The name `input` is that of the
    /// row's input.
    fn add_named(&mut self, texts: &Texts, rest: &str) -> io::Result<()> {
        let (name, count) = halves(rest);
        let count = if count.is_empty() { 1 } else { number(count)? };
        let text = if name == "input" {
            self.question.input.clone()?
        } else {
            texts.get(name).ok_or(ErrorKind::NotFound)?.clone()?
        };
        for _ in 0..count {
            self.bytes().extend_from_slice(text.as_slice())?;
        }
        Ok(())
    }

    /// Takes a line that changes bytes.
    fn take_change(&mut self, alloc: Global, head: &str, rest: &str) -> io::Result<()> {
        let bytes = self.bytes();
        match head {
            "each" => bytes::add_each(alloc, bytes, rest),
            "hex" => bytes::add_hex(alloc, bytes, rest),
            "set" => bytes::set(alloc, bytes, rest),
            "word" => bytes::set_word(bytes, rest),
            "cut" => bytes::cut(bytes, rest),
            "change" => bytes::change(alloc, bytes, rest),
            _ => Err(io::Error::from(ErrorKind::InvalidData)),
        }
    }

    /// Takes a line that states an expectation.
    fn take_wanted(&mut self, alloc: Global, head: &str, rest: &str) -> io::Result<()> {
        match head {
            "output" => self.want(alloc, Kind::Whole),
            "begins" => self.want(alloc, Kind::Begins),
            "ends" => self.want(alloc, Kind::Ends),
            "has" => self.want(alloc, Kind::Has),
            "only" => self.want_only(alloc, rest),
            "count" | "lines" | "line" => self.want_lines(alloc, head, rest),
            "run" => self.want_run(alloc, rest),
            _ => self.take_change(alloc, head, rest),
        }
    }

    /// Takes a line of the row.
    pub(crate) fn take_line(&mut self, alloc: Global, texts: &Texts, line: &str) -> io::Result<()> {
        if let Some(text) = line.strip_prefix(' ') {
            bytes::add_text(self.bytes(), text)?;
            self.bytes().push(b'\n')?;
            return Ok(());
        }
        let (head, rest) = halves(line);
        match head {
            "words" | "call" => self.question.ask(alloc, head == "call", rest)?,
            "status" => self.status = number(rest)?,
            "piece" => self.question.piece = number(rest)?,
            "failing_read" => self.question.failing_reads.push(number(rest)?)?,
            "failing_write" => self.question.failing_writes.push(number(rest)?)?,
            "use" => self.add_named(texts, rest)?,
            _ => self.take_wanted(alloc, head, rest)?,
        }
        Ok(())
    }
}
