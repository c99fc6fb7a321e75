//! A learning bridge between 2 to 8 links (profile), and the text of its run: the numbers of ports
//! and rounds, and the frames that each station sends. The bridge learns the port of each address.
//! It forwards a frame to the port of its destination, or to all other ports. The crate uses
//! `line_format` for lines and forms, and the map of std.
//!
//! Its contracts promise that each text has one value and each value one spelling, and that each
//! fault is the first in the order of the format. They promise that knowledge and forwarding are
//! those of `specs/Forwarding`, which looks back over the list of arrivals.
//!
//! # Design
//!
//! - A port that the run doesn't have is BadNumber, so the range of a `frame` line's port depends
//!   on the `ports` line above it.
//! - The definition has no map. It looks back over the list of arrivals for whether an address is
//!   learned, and for its port. The code has a map, and its refinement says that both agree on
//!   every address. It allocates for nothing else, so after a failed allocation a bridge is
//!   unchanged.
//! - A port's run is that of two honest ends over memory (`HonestRuns` of `link_invariant`), and
//!   its laws are cited once a port. The definition of the run is a function (`run_of`). A separate
//!   record says what holds of it (`Delivers`).
//! - The counts of a port, forwarded and delivered, stop at the greatest number of 64 bits. That
//!   they are exact is proved at the run's end, since a text has at most 10,000 frames.
//! - A port's `out` lines are written as its station delivers, and moved to the output at the end.
//!   In addition to the regions and the text there is one copy of a frame for each port to which it
//!   goes.
#![tactic(auto)]

mod auto_ends;
mod bridging;
mod drafts;
mod faults;
mod forms;
mod laws;
mod learning;
mod limits;
mod output;
mod ports;
mod positions;
mod reading;
mod run;
mod scripts;
mod taking;
mod text_laws;

pub use bridging::bridge;
pub use faults::{BridgeFault, Cause};
pub use laws::frames_are_forwarded;
pub use learning::Bridge;
pub use limits::{MOST_FRAMES, MOST_ROUNDS};
pub use reading::parse;
pub use scripts::{Script, Sent, SentFrames};
pub use text_laws::{bytes_after_end_are_bad_line, cut_is_no_end, fault_is_first, spelled_is_read};
