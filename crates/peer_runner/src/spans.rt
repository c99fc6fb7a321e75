//! The number of turns that a running peer takes before each reset.

use line_format::List;

/// The turns of a running peer up to its first reset, between each two resets, and after the last.
pub type Spans = List<u64>;
