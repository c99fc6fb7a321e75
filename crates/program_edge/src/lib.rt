//! The common edge of the programs: the words out of the arguments, the commands that they name,
//! the limits of inputs, and the reading of an input. So are the status with its exit number, the
//! text that a call writes last, and the lines that refuse an input. The work of a program is in
//! its own crate.
#![tactic(auto)]

mod arguments;
mod exit;
mod inputs;
mod limits;
mod refusals;
mod replies;
mod words;

pub use arguments::{WordsFault, words_of};
pub use exit::Status;
pub use inputs::read_input;
pub use limits::{MOST_FRAMES, RECORD_LIMIT, TEXT_LIMIT};
pub use refusals::{Place, Reason, Refusal, refusal_line};
pub use replies::write_text;
pub use words::{Command, limit, read_form};
