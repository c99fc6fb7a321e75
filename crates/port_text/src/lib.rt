//! Schedules of sampling ports as values and as text: a region's sizes, the limit of a message, the
//! kinds of the peers, and their acts. The crate uses `line_format` for lines and forms,
//! `scenario_text` for the sizes of a region, and `section_map` for the region itself. Its
//! contracts promise that each value has one spelling. They promise that parsing succeeds exactly
//! if the bytes are a spelling. Each fault is the first in the order of the format
//! (docs/FORMATS.md).
#![tactic(auto)]

mod acts;
mod drafts;
mod faults;
mod forms;
mod judging;
mod laws;
mod limits;
mod positions;
mod printing;
mod reading;
mod scenarios;
mod taking;

pub use acts::{Act, Acts, Message};
pub use faults::{Cause, PortsFault};
pub use laws::{
    bytes_after_end_are_bad_line, cut_is_no_end, fault_is_first, printed_is_read_again,
};
pub use limits::{LONGEST_MESSAGE, MOST_TURNS};
pub use printing::put_scenario;
pub use reading::parse;
pub use scenarios::Scenario;
