//! Scenarios as values and as text: a world's sizes, its kinds of peers, and the acts of a
//! schedule. The crate uses `line_format` for lines and forms, and `section_map`, `split_ring` and
//! `pci_space` for the head of a scenario. Its contracts promise that each value has one spelling.
//! They promise that parsing succeeds exactly if the bytes are a spelling. Each fault is the first
//! in the order of the format (docs/FORMATS.md).
//!
//! # Design
//!
//! - `IsWorld` defines a scenario without any order of reading. `specs/Judge` defines line by line
//!   which fault comes first. The two are proved to agree, both ways.
//! - A form has two variants if two words can be at one position (`irq msix V` and `irq intx`, `cfg
//!   P r ..` and `cfg P w ..`).
//! - The geometry is made on the `out` line and the queue on the `mtu` line, each once, and stored
//!   in the draft. So judging a line and making its value are one operation.
//! - A draft's version is at least 1, even if a line gives 0, which the form of that line doesn't
//!   allow (`add_head`). Scenarios and refusals don't depend on this. It lets the queue be made
//!   from the draft without a test that never fails.
//! - `Draft`, `Cause` and `put_scenario` are public for `record_text`, which passes on its scenario
//!   part line by line.
#![tactic(auto)]

mod acts;
mod drafts;
mod ends;
mod faults;
mod forms;
mod judging;
mod laws;
mod limits;
mod link_peers;
mod loads;
mod positions;
mod printing;
mod reading;
mod running;
mod scenarios;
mod taking;

pub use acts::{Act, Acts, Flags};
pub use drafts::Draft;
pub use faults::{Cause, ScenarioFault};
pub use laws::{
    bytes_after_end_are_bad_line, cut_is_no_end, fault_is_first, printed_is_read_again,
};
pub use limits::{LOAD_OUT, LOAD_ROUNDS, LOAD_STEPS, LONGEST_TEXT, MOST_ACTS, MOST_LOAD};
pub use loads::{link_scenario, load, push_rounds, region};
pub use printing::{print, put_scenario};
pub use reading::parse;
pub use running::not_running;
pub use scenarios::Scenario;
