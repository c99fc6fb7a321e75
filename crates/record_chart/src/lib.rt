//! A picture of a record. It has the lines of a history that share a row, the arrows from a frame's
//! acceptance to its delivery, and the output. The crate uses `record_text` for records. Its
//! contracts promise that the rows are the lines of the record, each once and in order. They
//! promise that a delivered frame of an honest pair has the arrow from its own acceptance.
//!
//! # Design
//!
//! - A picture needs only the first lines of a record. A line at the end changes no row but the
//!   last one. So once there are more rows than are drawn, further lines change only the number of
//!   lines that are left out. Lines after the last wanted one change nothing. `picture_of_front`
//!   promises this, and returns nothing if more lines are needed. So `ivshm_chart` reads the rest
//!   of a large record, judges it and drops it.
//! - The rows are defined from the end. A line is put before the rows of the lines after it, into
//!   the first of them if that row continues it. The code goes the other way, with the row that
//!   grows. `rows_are_the_lines` is a law on the definition.
//! - Writes of a storm are folded, and those of a scenario's `poke` lines are not, since they are
//!   what an attack shows.
//! - An arrow is found by counts since each peer's write of State 2, and not by the frames' bytes,
//!   since two frames may be equal. That both ends of an arrow have the same frame follows from the
//!   rows of the link machine.
// tested: The SVG file around the rows and arrows, by `checks/pictures`, which also reads it as
//    XML, and the text for a terminal, by `worked_rows`.
#![tactic(auto)]

mod arrows;
mod drawing;
mod labels;
mod laws;
mod lines;
mod pages;
mod pictures;
mod places;
mod rows;
mod sheets;
mod texts;
mod titles;
mod tracks;
mod words;

pub use arrows::{Arrow, arrows_of};
pub use drawing::draw;
pub use laws::{deliveries_have_their_arrows, rows_are_the_lines};
pub use pictures::{Picture, picture_of, picture_of_front};
pub use rows::{Row, Rows, rows_of, storms_of};
pub use texts::draw_text;
