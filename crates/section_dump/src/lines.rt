//! The lines of a listing. Each function appends one line.
ghost use Rattle.std.specs.Prelude.{◌≡◌, ◌++◌, OnOk, length, string_bytes};
ghost use Rattle.section_dump.specs.Lines.{line_of, Peers, Table, Common, Out, QueueSizes, NoQueue, State, Section, Frame, Bad, End};

use split_ring::FieldName;
use std::alloc::{AllocError, Global};

/// Appends the number of peers.
#[tactic(auto, unfolding(crate::specs::Lines::line_of))]
pub fn put_peers(text: &mut String, peers: u32) -> Result<(), AllocError>
    ensures { OnOk result (string_bytes text.new ≡ string_bytes text.old ++ line_of (Peers peers)) }
{
    writeln!(text, "peers {peers}")
}

/// Appends the size of the State Table, in bytes.
#[tactic(auto, unfolding(crate::specs::Lines::line_of))]
pub fn put_table(text: &mut String, table: u32) -> Result<(), AllocError>
    ensures { OnOk result (string_bytes text.new ≡ string_bytes text.old ++ line_of (Table table)) }
{
    writeln!(text, "table {table}")
}

/// Appends the size of the common section, in bytes.
#[tactic(auto, unfolding(crate::specs::Lines::line_of))]
pub fn put_common(text: &mut String, common: u64) -> Result<(), AllocError>
    ensures { OnOk result (string_bytes text.new ≡ string_bytes text.old ++ line_of (Common common)) }
{
    writeln!(text, "common {common}")
}

/// Appends the size of an output section, in bytes.
#[tactic(auto, unfolding(crate::specs::Lines::line_of))]
pub fn put_out(text: &mut String, out: u64) -> Result<(), AllocError>
    ensures { OnOk result (string_bytes text.new ≡ string_bytes text.old ++ line_of (Out out)) }
{
    writeln!(text, "out {out}")
}

/// Appends the queue size, and the sizes of its rings and its data area in bytes.
#[tactic(auto, unfolding(crate::specs::Lines::line_of))]
pub fn put_queue(text: &mut String, size: u32, ring: u32, room: u32) -> Result<(), AllocError>
    ensures { OnOk result (string_bytes text.new ≡ string_bytes text.old ++ line_of (QueueSizes size ring room)) }
{
    writeln!(text, "queue {size} {ring} {room}")
}

/// Appends the line that says that no queue size fits.
#[tactic(auto, unfolding(crate::specs::Lines::line_of))]
pub fn put_no_queue(text: &mut String) -> Result<(), AllocError>
    ensures { OnOk result (string_bytes text.new ≡ string_bytes text.old ++ line_of NoQueue) }
{
    writeln!(text, "queue none")
}

/// Appends the state of a peer.
#[tactic(auto, unfolding(crate::specs::Lines::line_of))]
pub fn put_state(text: &mut String, peer: u32, value: u32) -> Result<(), AllocError>
    ensures { OnOk result (string_bytes text.new ≡ string_bytes text.old ++ line_of (State peer value)) }
{
    writeln!(text, "state {peer} {value}")
}

/// Appends a peer's available index and the other's used index.
#[tactic(auto, unfolding(crate::specs::Lines::line_of))]
pub fn put_section(
    text: &mut String,
    peer: u32,
    available: u16,
    used: u16,
) -> Result<(), AllocError>
    ensures { OnOk result (string_bytes text.new ≡ string_bytes text.old ++ line_of (Section peer available used)) }
{
    writeln!(text, "section {peer} {available} {used}")
}

/// Appends a frame with its position, entry and address.
#[tactic(auto, unfolding(crate::specs::Lines::line_of))]
pub fn put_frame(
    alloc: Global,
    text: &mut String,
    position: u16,
    entry: u32,
    address: u32,
    frame: &[u8],
) -> Result<(), AllocError>
    ensures { OnOk result (string_bytes text.new ≡
        string_bytes text.old ++ line_of (Frame position entry address (length frame.now) frame.now)) }
{
    let length = frame.len();
    let digits = hex::encode(alloc, frame)?;
    writeln!(text, "frame {position} {entry} {address} {length} {digits}")
}

/// Appends a field that a receiver would refuse at a position, and its value.
#[tactic(auto, unfolding(crate::specs::Lines::line_of))]
pub fn put_bad(
    text: &mut String,
    position: u16,
    field: FieldName,
    value: u64,
) -> Result<(), AllocError>
    ensures { OnOk result (string_bytes text.new ≡ string_bytes text.old ++ line_of (Bad position field value)) }
{
    let name = field.name();
    writeln!(text, "bad {position} {name} {value}")
}

/// Appends the end of the listing.
#[tactic(auto, unfolding(crate::specs::Lines::line_of))]
pub fn put_end(text: &mut String) -> Result<(), AllocError>
    ensures { OnOk result (string_bytes text.new ≡ string_bytes text.old ++ line_of End) }
{
    writeln!(text, "end")
}
