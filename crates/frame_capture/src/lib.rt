//! Capture files: the classic format that tcpdump writes, of Ethernet frames with their times. The
//! crate uses `ivs_base` for frames and `byteorder` for numbers in either byte order. Its contracts
//! promise that what `print` writes is a file of the capture. They promise that `parse` returns a
//! capture exactly if the bytes are a file of it. Each fault is the first one in reading order.
// tested: That tshark reads the files (`checks/capture`).
#![tactic(auto)]

mod deliveries;
mod faults;
mod feeding;
mod laws;
mod order;
mod packets;
mod printing;
mod reading;

pub use deliveries::captured;
pub use faults::CaptureFault;
pub use feeding::{FEED_MTU, FEED_OUT, FEED_STEPS, FeedFault, LONGEST_OFFERED, scenario_of};
pub use laws::{faults_are_exact, file_is_of_one_capture, frames_are_delivered};
pub use order::MAGIC;
pub use packets::{Capture, Packet, Packets};
pub use printing::print;
pub use reading::{HEADER_LEN, LONGEST_CAPTURED, PACKET_HEADER_LEN, parse};
pub use scenario_text::MOST_ACTS;
