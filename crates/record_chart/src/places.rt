//! The places of a picture's parts, in pixels.
ghost use Rattle.std.specs.Prelude.{◌≤◌};

/// The height of a row.
pub const ROW: u64 = 16;

/// The width of a peer's column.
pub const COLUMN: u64 = 300;

/// The width of the space between two columns, in which the arrows of frames run down.
pub const GUTTER: u64 = 40;

/// The width of a label, from its left edge to the end of its column.
pub const LABEL: u64 = COLUMN - 46 - 10;

/// The right edge of the numbers of lines. A number has at most nine digits.
pub const NUMBER: u64 = 72;

/// The left edge of the first column; the numbers of lines are left of it.
const LEFT: u64 = 80;

/// The upper edge of the first row.
pub const TOP: u64 = 104;

/// The number of rows that are drawn at places of their own.
pub const MOST_ROWS: usize = 4_000;

/// Returns the upper edge of a row.
pub fn row_y(row: usize) -> u64
    ensures least { 104 ≤ result }
    ensures most { result ≤ 100000 }
{
    TOP + ROW * (row.min(MOST_ROWS) as u64)
}

/// Returns the left edge of a peer's column.
pub fn column_x(column: u32) -> u64
    ensures least { 80 ≤ result }
    ensures most { result ≤ 10000 }
{
    LEFT + (COLUMN + GUTTER) * u64::from(column.min(8))
}
