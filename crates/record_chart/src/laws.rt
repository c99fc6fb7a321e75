//! Laws of all pictures. Each function does nothing: its contract is the law.
ghost use Rattle.record_chart.specs.Laws.{RowsAreTheLines};
ghost use Rattle.record_chart.specs.Own.{DeliveriesHaveTheirArrows};

use history_laws::histories_run_the_machine;

/// Law: the rows, unfolded, are the lines, each once and in order. In a row each line continues the
/// one before it.
#[tactic(auto, using(crate::proofs::RowsUnfold::unfold_rows))]
pub fn rows_are_the_lines()
    ensures { RowsAreTheLines }
{}

/// Law: in a lawful history each frame that a peer of an honest pair delivers has the arrow from
/// its own acceptance. This is the line at which the other peer accepted that frame.
// claim: In a lawful history each delivery of an honest pair has the arrow from the line at which
//    the other accepted this very frame.
pub fn deliveries_have_their_arrows()
    ensures { DeliveriesHaveTheirArrows }
{
    histories_run_the_machine();
}
