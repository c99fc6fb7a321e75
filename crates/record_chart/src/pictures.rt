//! The content of a picture.
ghost use Rattle.std.specs.Prelude.{◌≡◌, ◌+◌, ◌<◌, ◌≤◌, ◌^◌, IfOk, IfSome, length};
ghost use Rattle.scenario_text.specs.Spelling.{world_of};
ghost use Rattle.record_chart.specs.Rows.{lines_between};
ghost use Rattle.record_chart.specs.Pictures.{pair_arrows, IsPicture, IsPictureOfFront};

use crate::arrows::{Arrow, arrows_of};
use crate::rows::{Row, Rows, rows_of, storms_of};
use ivs_base::NoMemory;
use lawful_history::Line;
use record_text::Trace;
use scenario_text::Scenario;
use std::alloc::Global;

/// The content of a picture of a history.
#[derive(Debug, Drop)]
pub struct Picture {
    /// The rows, at most 2,000.
    pub rows: Vec<Row>,
    /// The number of wanted lines after the rows.
    pub left_out: u64,
    /// The peers that storm.
    pub storms: Vec<u32>,
    /// The arrows to the lines of the rows.
    pub arrows: Vec<Arrow>,
}

/// Returns the lines from number `first` to number `last`, counted from 1.
fn lines_between(lines: &[Line], first: u64, last: u64) -> &[Line]
    requires { 1 ≤ first }
    ensures between { result.now ≡ lines_between first last lines.now }
    ensures fits { first + length result.now < 2 ^ 64 }
{
    let end = last.min(lines.len() as u64) as usize;
    let front = &lines[..end];
    let start = (first - 1).min(front.len() as u64) as usize;
    &front[start..]
}

/// Returns the arrows to the deliveries of an honest pair, from line number `first` on. The lines
/// are a prefix of a history.
fn pair_arrows(
    alloc: Global,
    scenario: &Scenario,
    first: u64,
    lines: &[Line],
) -> Result<Vec<Arrow>, NoMemory>
    ensures { IfOk result (λ arrows. arrows.items ≡ pair_arrows (world_of scenario.now) first lines.now) }
{
    if !(scenario.is_link(0) && scenario.is_link(1)) {
        return Ok(Vec::new(alloc));
    }
    let mut arrows = arrows_of(alloc, 0, first, lines)?;
    let others = arrows_of(alloc, 1, first, lines)?;
    arrows.extend_from_slice(&others)?;
    Ok(arrows)
}

/// Returns the picture of the lines of a record from number `first` to number `last`, counted from
/// 1. Returns `NoMemory` if an allocation fails.
// claim: A picture has the first 2,000 rows of the lines asked for, and the lines after them are
//    counted. A frame that a hostile peer sent has no arrow.
pub fn picture_of(alloc: Global, trace: &Trace, first: u64, last: u64) -> Result<Picture, NoMemory>
    requires { 1 ≤ first }
    ensures { IfOk result (IsPicture (world_of trace.now.scenario) trace.now.lines first last) }
{
    let lines = trace.lines.items();
    let shown = lines_between(lines, first, last);
    let storms = storms_of(alloc, trace.scenario.acts.items())?;
    let Rows {
        items: rows,
        left_out,
    } = rows_of(alloc, &storms, shown, first)?;
    let drawn = shown.len() - left_out as usize;
    let end = (first - 1).min(lines.len() as u64) as usize + drawn;
    let arrows = pair_arrows(alloc, &trace.scenario, first, &lines[..end])?;
    Ok(Picture {
        rows,
        left_out,
        storms,
        arrows,
    })
}

/// Returns the picture of a record with the first lines `trace`, which `others` lines follow. The
/// picture is the same for all lines that follow. Returns nothing if more lines are needed. Returns
/// `NoMemory` if an allocation fails.
// claim: A picture of the first lines of a record is that of the whole, if the other lines change
//    only how many are left out.
pub fn picture_of_front(
    alloc: Global,
    trace: &Trace,
    others: u64,
    first: u64,
    last: u64,
) -> Result<Option<Picture>, NoMemory>
    requires { 1 ≤ first }
    ensures { IfOk result
        (λ found. IfSome found (IsPictureOfFront (world_of trace.now.scenario) trace.now.lines others first last)) }
{
    let mut picture = picture_of(alloc, trace, first, last)?;
    if others == 0 {
        return Ok(Some(picture));
    }
    let kept = trace.lines.items().len() as u64;
    if last <= kept {
        if last < first {
            return Ok(None);
        }
        return Ok(Some(picture));
    }
    if picture.left_out == 0 {
        return Ok(None);
    }
    let Some(left_out) = picture.left_out.checked_add(others.min(last - kept)) else {
        return Ok(None);
    };
    picture.left_out = left_out;
    Ok(Some(picture))
}
