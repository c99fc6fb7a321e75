//! The lines that share a row.
ghost use Rattle.std.specs.Prelude.{◌≡◌, ℕ, ◌+◌, ◌<◌, ◌^◌, IfOk, length, take, sum_by};
ghost use Rattle.record_chart.specs.Rows.{goes_on, storms_of, rows_of};

use ivs_base::NoMemory;
use lawful_history::Line;
use scenario_text::Act;
use std::alloc::Global;

/// The most rows of a picture.
pub const MOST_ROWS: usize = 2000;

/// A row of a picture: `count` lines of the history from line `first` on, counted from 1.
#[derive(Clone, Copy, Debug, PartialEq, Eq)]
pub struct Row {
    pub first: u64,
    pub count: u64,
}

/// The rows of a picture, and the number of lines after them that have no row.
#[derive(Debug, Drop)]
pub struct Rows {
    pub items: Vec<Row>,
    pub left_out: u64,
}

/// Returns the peers of a schedule that storm: their writes are generated.
pub fn storms_of(alloc: Global, acts: &[Act]) -> Result<Vec<u32>, NoMemory>
    ensures { IfOk result (λ peers. peers.items ≡ storms_of acts.now) }
{
    let peers = acts
        .iter()
        .filter_map(|act| match act {
            Act::Storm { peer, .. } => Some(*peer),
            _ => None,
        })
        .collect(alloc)?;
    Ok(peers)
}

/// Whether the line continues the row of the line before it.
pub fn goes_on(storms: &[u32], before: &Line, line: &Line) -> bool
    ensures { result ≡ goes_on storms.now before.now line.now }
{
    match (before, line) {
        (Line::Idle { peer }, Line::Idle { peer: other }) => *peer == *other,
        (
            Line::Write { peer, word, value },
            Line::Write {
                peer: other,
                word: next,
                value: last,
            },
        ) => {
            *peer == *other
                && (storms.contains(peer)
                    || (*value == 0 && *last == 0 && u64::from(*next) == u64::from(*word) + 1))
        }
        _ => false,
    }
}

/// Returns the rows of these lines, at most 2,000, in one pass over the lines that get a row.
/// `first` is the number of the first line.
// claim rows, counted with storms_of, rows_are_the_lines: The rows of all lines, unfolded, are
//    these lines, each once and in order. A line joins the row before it exactly if both are idle
//    lines of one peer, writes of one storming peer, or writes of 0 to one word after the other.
pub fn rows_of(alloc: Global, storms: &[u32], lines: &[Line], first: u64) -> Result<Rows, NoMemory>
    requires { first + length lines.now < 2 ^ 64 }
    ensures rows { IfOk result (λ rows. rows.items.items ≡ take 2000 (rows_of storms.now first lines.now)) }
    // Each line is in one row, or left out.
    ensures counted { IfOk result
        (λ rows. sum_by (λ row. row.count) rows.items.items + rows.left_out ≡ length lines.now) }
{
    let mut items = Vec::new(alloc);
    if lines.is_empty() {
        return Ok(Rows { items, left_out: 0 });
    }
    let mut growing = Row { first, count: 1 };
    for at in 1..lines.len() {
        if goes_on(storms, &lines[at - 1], &lines[at]) {
            growing.count += 1;
            continue;
        }
        items.push(growing)?;
        if items.len() == MOST_ROWS {
            let left_out = (lines.len() - at) as u64;
            return Ok(Rows { items, left_out });
        }
        growing = Row {
            first: first + at as u64,
            count: 1,
        };
    }
    items.push(growing)?;
    Ok(Rows { items, left_out: 0 })
}
