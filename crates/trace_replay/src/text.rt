//! The text of a verdict.
ghost use Rattle.std.specs.Prelude.{◌≡◌, IfOk};
ghost use Rattle.trace_replay.specs.VerdictText.{difference_line, verdict_line};

use crate::verdict::Verdict;
use link_model::Unlawful;
use std::alloc::{AllocError, Global};

/// Returns the line that names the first line that differs and the law that it breaks.
pub fn difference_line(alloc: Global, fault: Unlawful) -> Result<Vec<u8>, AllocError>
    ensures { IfOk result (λ text. text.items ≡ difference_line fault) }
{
    let line = fault.line;
    let law = fault.law.name();
    let text = format!(in alloc; "differs {line} {law}\n")?;
    Ok(text.into_bytes())
}

/// Returns the line of a verdict.
// claim with difference_line: The line of a verdict is `same`, or has the number of the first line
//    that differs and the name of the law that it breaks.
pub fn verdict_line(alloc: Global, verdict: Verdict) -> Result<Vec<u8>, AllocError>
    ensures { IfOk result (λ text. text.items ≡ verdict_line verdict) }
{
    match verdict {
        Verdict::Same => b"same\n".to_vec(alloc),
        Verdict::Differs(fault) => difference_line(alloc, fault),
    }
}
