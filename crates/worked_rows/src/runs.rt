//! Runs of lines: the same form, with a number that rises by one from line to line.
use crate::checks::add_shown;
use std::alloc::{AllocError, Global};

/// The first and the last number of a run.
#[derive(Clone, Copy, PartialEq, Eq)]
pub(crate) struct Run {
    pub(crate) first: u64,
    pub(crate) last: u64,
}

impl Run {
    /// The run with this number as well, if the number is the next one.
    fn with(self, number: u64) -> Option<Run> {
        if self.last.checked_add(1) != Some(number) {
            return None;
        }
        Some(Run {
            first: self.first,
            last: number,
        })
    }

    /// The count of its lines, less one.
    fn length(self) -> u64 {
        self.last.saturating_sub(self.first)
    }
}

/// A form of lines: the bytes before the number, and those after it.
#[derive(Clone, Copy)]
struct Form<'a> {
    before: &'a [u8],
    after: &'a [u8],
}

impl<'a> Form<'a> {
    /// The form that the bytes spell, with `#` for the number. Without `#` the number comes last.
    fn of(bytes: &'a [u8]) -> Form<'a> {
        let mut parts = bytes.splitn(2, |byte| *byte == b'#');
        let before = parts.next().unwrap_or(&[]);
        let after = parts.next().unwrap_or(&[]);
        Form { before, after }
    }

    /// The number in a line of this form.
    fn number_in(self, line: &[u8]) -> Option<u64> {
        let digits = line.strip_prefix(self.before)?.strip_suffix(self.after)?;
        str::from_utf8(digits).ok()?.parse::<u64>().ok()
    }
}

/// The runs that were read so far.
#[derive(Clone, Copy)]
struct Runs {
    wanted: Run,
    is_found: bool,
    open: Option<Run>,
    longest: Option<Run>,
}

impl Runs {
    /// Ends the run that is open.
    fn end(&mut self) {
        let Some(open) = self.open else {
            return;
        };
        self.is_found = self.is_found || open == self.wanted;
        let is_longer = match self.longest {
            Some(longest) => longest.length() < open.length(),
            None => true,
        };
        if is_longer {
            self.longest = Some(open);
        }
        self.open = None;
    }

    /// Takes the number of the next line, or `None` for a line of another form.
    fn take(&mut self, number: Option<u64>) {
        let goes_on = match (self.open, number) {
            (Some(open), Some(number)) => open.with(number),
            _ => None,
        };
        if goes_on.is_none() {
            self.end();
        }
        self.open = match (goes_on, number) {
            (Some(run), _) => Some(run),
            (None, Some(first)) => Some(Run { first, last: first }),
            (None, None) => None,
        };
    }
}

/// Reports that no run of the form has exactly the wanted numbers. Only lines that begin like the
/// form are compared, and a run ends where the next of them has another number.
pub(crate) fn run_difference(
    alloc: Global,
    wanted: Run,
    found: &[u8],
    bytes: &[u8],
) -> Result<Option<String>, AllocError> {
    let form = Form::of(bytes);
    let mut runs = Runs {
        wanted,
        is_found: false,
        open: None,
        longest: None,
    };
    for line in found.split(|byte| *byte == b'\n') {
        if line.starts_with(form.before) {
            runs.take(form.number_in(line));
        }
    }
    runs.end();
    if runs.is_found {
        return Ok(None);
    }
    let mut text = String::from_str(alloc, "no run of ")?;
    add_shown(&mut text, bytes)?;
    let Run { first, last } = wanted;
    write!(text, " is from {first} to {last}")?;
    if let Some(Run { first, last }) = runs.longest {
        write!(text, ", and the longest is from {first} to {last}")?;
    }
    Ok(Some(text))
}
