//! Records as values and as text, in version 1 or 2: a scenario with a history of it, lawful or
//! not. It uses `scenario_text` for the scenario's text, `lawful_history` for the lines of a
//! history, and `line_format` for lines and forms. Its contracts promise that a record has one
//! spelling, and that parsing succeeds exactly if the bytes are one. Each fault is the first in the
//! format's order (docs/FORMATS.md).
//!
//! # Design
//!
//! - A record's machine hands its scenario part to the scenario's own step. So the scenario's
//!   faults keep their names, and lines are counted from the record's first. The scenario is
//!   finished at the end alone, where the whole text is known to spell a record.
//! - The first line is defined once over the version, and written and read by the one function;
//!   both versions have one table of lines. So a line `session P A B` is no fault of a text of
//!   version 1: `lawful_history` alone decides which history is lawful in which version. Each field
//!   that `refuse` can name is a form of its own.
//! - A reader keeps the rest of the text. The relation `IsReading` ties it to a text, a version, a
//!   scenario and the lines read so far. So a line that was read need not be stored, and a caller
//!   chooses the lines to keep. The fault that the reader names is that of `parse` by the same
//!   laws. `pass` says the same of lines that weren't read: their bytes are compared.
//! - A common line is recognized by its spelling. `quick_line` promises only that the bytes are
//!   the one spelling of the line found. The table of forms decides the rest. Since a spelling is
//!   read as what it spells, no rule of the table is said twice.
//! - `put_front`, `put_lines` and `put_count` put a text together for callers that keep no history.
//!   That their parts are the spelling, and that lines may be put in parts, is a law
//!   (`parts_are_the_record`).
#![tactic(auto)]

mod drafts;
mod faults;
mod forms;
mod growing;
mod laws;
mod limits;
mod own_trace;
mod own_traces;
mod printing;
mod quick;
mod reader;
mod reading;
mod run_forms;
mod run_printing;
mod run_trace;
mod taking;
mod trace;
mod versions;

pub use faults::{RecordCause, RecordFault};
pub use growing::{put_count, put_front, put_lines};
pub use laws::{bytes_after_end_are_bad_line, cut_is_no_end, fault_is_first, parts_are_the_record};
pub use limits::LONGEST_RECORD;
pub use own_trace::OwnTrace;
pub use own_traces::OwnTraces;
pub use printing::print;
pub use reader::Reader;
pub use reading::parse;
pub use run_printing::print_run;
pub use run_trace::RunTrace;
pub use trace::Trace;
