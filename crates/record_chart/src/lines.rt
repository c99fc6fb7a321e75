//! Lines of a history by their numbers.

use lawful_history::Line;

/// Returns the line of this number, counted from 1, if there is one.
pub fn line_at(lines: &[Line], number: u64) -> Option<&Line> {
    lines.get(number.checked_sub(1)? as usize)
}
