//! Compares a history of a scenario with the lawful one, line by line. `lawful_history` defines
//! both, and `simulator` plays the lawful history while lines are compared. The contract of `Run`
//! promises that a step takes a line exactly if the lines so far begin the lawful history.
//! Otherwise the step returns the number of the first line that differs and the law that it breaks.
//!
//! # Design
//!
//! - A run plays the simulator, and has no calls, checks and rings of its own. Its lines are
//!   compared with those that `simulate` returns, by the same contract.
//! - The view of a run is its scenario, the record's version, the lines that it took and its fault
//!   (`Taking`). A run counts the lines and doesn't keep them: they are the first lines that a
//!   record of the version has of the lawful history. Only `close` has a condition: no step of the
//!   run returned `NoMemory`.
//! - A step plays until the next line waits or the schedule is over. So `close` needs no memory,
//!   and changes nothing, to decide whether a line is missing.
//! - A `Run` owns its scenario, which `Run::new` copies once. So a `Run` has no lifetime and can be
//!   a field of any struct. `ExpectedRun` is given its scenario and copies nothing.
//! - The crate exports `Line`, `Lines` and the laws of `lawful_history`, so a reader of histories
//!   needs this crate alone.
// tested: Large records are replayed in bounded memory (`checks/loads`).
#![tactic(auto)]

mod copying;
mod expected_run;
mod fault;
mod law;
mod run;

pub use expected_run::ExpectedRun;
pub use fault::{Law, StepFault, Unlawful};
pub use lawful_history::{
    Line, Lines, cut_histories_begin, history_is_lawful, memory_is_kept, one_history,
    records_hold_one_history, versions_differ_in_marks,
};
pub use run::Run;
