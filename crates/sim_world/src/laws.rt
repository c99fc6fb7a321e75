//! The law that both ways to write a record make the same text.
ghost use Rattle.std.specs.Prelude.{◌≡◌, true, IfOk};

use crate::{simulate, simulate_text};
use ivs_base::NoMemory;
use record_text::print;
use scenario_text::Scenario;
use std::alloc::Global;

/// Whether `simulate_text` makes the text that `print` makes of the simulated record. The result is
/// true for every scenario. Returns `NoMemory` if memory ran out.
// claim: `simulate_text` writes what `print` writes of `simulate`.
pub fn writes_alike(alloc: Global, scenario: Scenario) -> Result<bool, NoMemory>
    ensures { IfOk result (λ alike. alike ≡ true) }
{
    let recorded = simulate_text(alloc, &scenario)?;
    let printed = print(alloc, &simulate(alloc, scenario)?)?;
    Ok(recorded == printed)
}
