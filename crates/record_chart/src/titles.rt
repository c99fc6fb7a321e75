//! The subject of a picture, in one line, the row that it marks, and the lines that it leaves out.

use crate::labels::grouped;
use crate::rows::Row;
use std::alloc::{AllocError, Global};

/// Returns the number of lines of these rows.
pub fn shown_by(rows: &[Row]) -> u64 {
    let mut shown: u64 = 0;
    for row in rows {
        shown = shown.saturating_add(row.count);
    }
    shown
}

/// Whether the row has the line of this number.
pub fn has_line(row: &Row, number: Option<u64>) -> bool {
    match number {
        Some(number) => row.first <= number && number - row.first < row.count,
        None => false,
    }
}

/// Returns the words below a picture that leaves out this number of lines.
pub fn left_out_words(alloc: Global, left_out: u64) -> Result<String, AllocError> {
    let left_out = grouped(alloc, left_out)?;
    format!(in alloc; "{left_out} more lines are left out here")
}

/// Returns the title: the numbers of the lines shown, `shown` of `total` lines from `first` on. It
/// names the line that differs from the lawful history, if there is one.
pub fn title_of(
    alloc: Global,
    first: u64,
    shown: u64,
    total: u64,
    differs: Option<u64>,
) -> Result<String, AllocError> {
    let lines = if shown == 0 {
        format!(in alloc; "No history lines from {first} on: there are {total}")?
    } else {
        let last = first.saturating_add(shown - 1);
        format!(in alloc; "History lines {first} to {last} of {total}")?
    };
    match differs {
        None => Ok(lines),
        Some(number) if number > total => format!(in alloc;
            "{lines}; the lawful history has a line {number}"
        ),
        Some(number) => format!(in alloc;
            "{lines}; line {number} isn't that of the lawful history"
        ),
    }
}
