//! The reason and the place of a refusal of an input, and the line that states them.
ghost use Rattle.std.specs.Prelude.{◌≡◌, IfOk};
ghost use Rattle.program_edge.specs.Refusals.{place_line_of, count_line_of, refusal_line_of, number_of, name_of, verdict_of, at, whole, at_bytes, at_packet, of_scenario, of_record, of_ports, of_bridge, of_sizes, of_image, of_capture};

use frame_bridge::BridgeFault;
use frame_capture::CaptureFault;
use port_text::PortsFault;
use record_text::RecordFault;
use scenario_text::ScenarioFault;
use section_dump::{DumpFault, HEADER_LEN};
use section_map::{GeometryFault, Part};
use std::alloc::{AllocError, Global};

/// The place of a fault in a text or a file.
#[derive(Clone, Copy, Debug, PartialEq, Eq)]
pub enum Place {
    /// The text as a whole.
    Whole,
    /// The line with this number, from 1.
    Line(u64),
    /// As many bytes from a place on, which counts from 0.
    Bytes { first: u64, count: u64 },
    /// The packet of a capture file with this number, from 1.
    Packet(u64),
}

/// The fault there, by the name that `ivshm` gives it.
#[derive(Clone, Copy, Debug, PartialEq, Eq)]
pub enum Reason {
    TooLong,
    BadLine,
    BadOrder,
    BadNumber,
    BadPeer,
    BadFrame,
    BadMessage,
    BadGeometry,
    TooManyTurns,
    TooManyFrames,
    NotRunning,
    NoEnd,
    /// The record states `kept` lines and has `found`.
    BadCount { kept: u64, found: u64 },
    BadHeader,
    /// The image's header requires `need` bytes, and the input has `found`, which are fewer.
    ShortImage { need: u64, found: u64 },
    /// The image's header requires `need` bytes, and the input has `found`, which are more.
    LongImage { need: u64, found: u64 },
    Short,
    BadMagic,
    BadVersion,
    BadLinkType,
    BadPacket,
    CutPacket,
    TooLarge,
}

/// The place of a text's fault, and the fault.
#[derive(Clone, Copy, Debug, PartialEq, Eq)]
pub struct Refusal {
    pub place: Place,
    pub reason: Reason,
}

/// Returns the `refused` line with the fault's name and its place. The place is the number of a
/// line or of a packet, or 0 for the whole input.
fn place_line(alloc: Global, name: &'static str, number: u64) -> Result<Vec<u8>, AllocError>
    ensures { IfOk result (λ v. v.items ≡ place_line_of name.now number) }
{
    let line = format!(in alloc; "refused {number} {name}\n")?;
    Ok(line.into_bytes())
}

/// Returns the `refused` line for an input with too few or too many lines or bytes.
fn count_line(
    alloc: Global,
    name: &'static str,
    number: u64,
    need: u64,
    found: u64,
) -> Result<Vec<u8>, AllocError>
    ensures { IfOk result (λ v. v.items ≡ count_line_of name.now number need found) }
{
    let line = format!(in alloc; "refused {number} {name} {need} {found}\n")?;
    Ok(line.into_bytes())
}

/// Returns the line of a refusal. Want of memory refuses nothing.
// claim with Place::number, Reason::name, Refusal::at, Refusal::whole, Refusal::verdict,
//    Refusal::of_scenario, Refusal::of_record, Refusal::of_ports, Refusal::of_bridge,
//    Refusal::of_image, Refusal::of_capture: A `refused` line has its fault's place, name and
//    counts.
pub fn refusal_line(alloc: Global, refusal: Option<Refusal>) -> Result<Vec<u8>, AllocError>
    ensures { IfOk result (λ line. line.items ≡ refusal_line_of refusal) }
{
    match refusal {
        Some(refusal) => refusal.verdict(alloc),
        None => place_line(alloc, "NoMemory", 0),
    }
}

impl Place {
    /// The number that the line names: the line's, the packet's, or 0.
    pub fn number(self) -> u64
        ensures { result ≡ number_of self }
    {
        match self {
            Place::Whole | Place::Bytes { .. } => 0,
            Place::Line(number) | Place::Packet(number) => number,
        }
    }
}

impl Reason {
    /// The name of the reason.
    pub fn name(self) -> &'static str
        ensures { result.now ≡ name_of self }
    {
        match self {
            Reason::TooLong => "TooLong",
            Reason::BadLine => "BadLine",
            Reason::BadOrder => "BadOrder",
            Reason::BadNumber => "BadNumber",
            Reason::BadPeer => "BadPeer",
            Reason::BadFrame => "BadFrame",
            Reason::BadMessage => "BadMessage",
            Reason::BadGeometry => "BadGeometry",
            Reason::TooManyTurns => "TooManyTurns",
            Reason::TooManyFrames => "TooManyFrames",
            Reason::NotRunning => "NotRunning",
            Reason::NoEnd => "NoEnd",
            Reason::BadCount { .. } => "BadCount",
            Reason::BadHeader => "BadHeader",
            Reason::ShortImage { .. } => "ShortImage",
            Reason::LongImage { .. } => "LongImage",
            Reason::Short => "Short",
            Reason::BadMagic => "BadMagic",
            Reason::BadVersion => "BadVersion",
            Reason::BadLinkType => "BadLinkType",
            Reason::BadPacket => "BadPacket",
            Reason::CutPacket => "CutPacket",
            Reason::TooLarge => "TooLarge",
        }
    }
}

impl Refusal {
    /// The refusal of a line.
    pub fn at(line: u64, reason: Reason) -> Option<Refusal>
        ensures { result ≡ at line reason }
    {
        Some(Refusal {
            place: Place::Line(line),
            reason,
        })
    }

    /// The refusal of a text as a whole.
    pub fn whole(reason: Reason) -> Option<Refusal>
        ensures { result ≡ whole reason }
    {
        Some(Refusal {
            place: Place::Whole,
            reason,
        })
    }

    /// The refusal of bytes.
    fn at_bytes(first: u64, count: u64, reason: Reason) -> Option<Refusal>
        ensures { result ≡ at_bytes first count reason }
    {
        Some(Refusal {
            place: Place::Bytes { first, count },
            reason,
        })
    }

    /// The refusal of a packet.
    fn at_packet(number: u64, reason: Reason) -> Option<Refusal>
        ensures { result ≡ at_packet number reason }
    {
        Some(Refusal {
            place: Place::Packet(number),
            reason,
        })
    }

    /// The line of the refusal.
    pub fn verdict(self, alloc: Global) -> Result<Vec<u8>, AllocError>
        ensures { IfOk result (λ line. line.items ≡ verdict_of self) }
    {
        let number = self.place.number();
        let name = self.reason.name();
        match self.reason {
            Reason::BadCount { kept, found } => count_line(alloc, name, number, kept, found),
            Reason::ShortImage { need, found } => count_line(alloc, name, number, need, found),
            Reason::LongImage { need, found } => count_line(alloc, name, number, need, found),
            _ => place_line(alloc, name, number),
        }
    }

    /// The refusal of a scenario's text. Want of memory refuses nothing.
    pub fn of_scenario(fault: ScenarioFault) -> Option<Refusal>
        ensures { result ≡ of_scenario fault }
    {
        match fault {
            ScenarioFault::BadLine(line) => Refusal::at(line, Reason::BadLine),
            ScenarioFault::BadNumber(line) => Refusal::at(line, Reason::BadNumber),
            ScenarioFault::BadFrame(line) => Refusal::at(line, Reason::BadFrame),
            ScenarioFault::BadPeer(line) => Refusal::at(line, Reason::BadPeer),
            ScenarioFault::BadGeometry(line) => Refusal::at(line, Reason::BadGeometry),
            ScenarioFault::BadOrder(line) => Refusal::at(line, Reason::BadOrder),
            ScenarioFault::TooManyTurns(line) => Refusal::at(line, Reason::TooManyTurns),
            ScenarioFault::NoEnd => Refusal::whole(Reason::NoEnd),
            ScenarioFault::NoMemory => None,
        }
    }

    /// The refusal of a record's text.
    pub fn of_record(fault: RecordFault) -> Option<Refusal>
        ensures { result ≡ of_record fault }
    {
        match fault {
            RecordFault::Scenario(fault) => Refusal::of_scenario(fault),
            RecordFault::BadLine(line) => Refusal::at(line, Reason::BadLine),
            RecordFault::BadNumber(line) => Refusal::at(line, Reason::BadNumber),
            RecordFault::BadCount { kept, found } => {
                Refusal::whole(Reason::BadCount { kept, found })
            }
            RecordFault::NoEnd => Refusal::whole(Reason::NoEnd),
            RecordFault::NoMemory => None,
        }
    }

    /// The refusal of a text of sampling ports.
    pub fn of_ports(fault: PortsFault) -> Option<Refusal>
        ensures { result ≡ of_ports fault }
    {
        match fault {
            PortsFault::BadLine(line) => Refusal::at(line, Reason::BadLine),
            PortsFault::BadNumber(line) => Refusal::at(line, Reason::BadNumber),
            PortsFault::BadMessage(line) => Refusal::at(line, Reason::BadMessage),
            PortsFault::BadPeer(line) => Refusal::at(line, Reason::BadPeer),
            PortsFault::BadGeometry(line) => Refusal::at(line, Reason::BadGeometry),
            PortsFault::BadOrder(line) => Refusal::at(line, Reason::BadOrder),
            PortsFault::TooManyTurns(line) => Refusal::at(line, Reason::TooManyTurns),
            PortsFault::NoEnd => Refusal::whole(Reason::NoEnd),
            PortsFault::NoMemory => None,
        }
    }

    /// The refusal of a text of a bridge.
    pub fn of_bridge(fault: BridgeFault) -> Option<Refusal>
        ensures { result ≡ of_bridge fault }
    {
        match fault {
            BridgeFault::BadLine(line) => Refusal::at(line, Reason::BadLine),
            BridgeFault::BadNumber(line) => Refusal::at(line, Reason::BadNumber),
            BridgeFault::BadFrame(line) => Refusal::at(line, Reason::BadFrame),
            BridgeFault::BadOrder(line) => Refusal::at(line, Reason::BadOrder),
            BridgeFault::TooManyFrames(line) => Refusal::at(line, Reason::TooManyFrames),
            BridgeFault::NoEnd => Refusal::whole(Reason::NoEnd),
            BridgeFault::NoMemory => None,
        }
    }

    /// The refusal of an image whose header has these faulty sizes.
    fn of_sizes(fault: GeometryFault) -> Option<Refusal>
        ensures { result ≡ of_sizes fault }
    {
        match fault {
            GeometryFault::BadPeers(_) => Refusal::at_bytes(8, 4, Reason::BadGeometry),
            GeometryFault::BadPage { part, .. } => match part {
                Part::Table => Refusal::at_bytes(12, 4, Reason::BadGeometry),
                Part::Common => Refusal::at_bytes(16, 8, Reason::BadGeometry),
                Part::Out => Refusal::at_bytes(24, 8, Reason::BadGeometry),
            },
            GeometryFault::TableTooSmall { .. } => Refusal::at_bytes(12, 4, Reason::BadGeometry),
            GeometryFault::TooLarge { .. } => Refusal::at_bytes(8, 24, Reason::BadGeometry),
        }
    }

    /// The refusal of the image of a region.
    pub fn of_image(fault: DumpFault) -> Option<Refusal>
        ensures { result ≡ of_image fault }
    {
        match fault {
            DumpFault::BadHeader => Refusal::at_bytes(0, HEADER_LEN, Reason::BadHeader),
            DumpFault::Geometry(fault) => Refusal::of_sizes(fault),
            DumpFault::ShortImage { need, found } => {
                Refusal::at_bytes(found, 1, Reason::ShortImage { need, found })
            }
            DumpFault::LongImage { need, found } => {
                Refusal::at_bytes(need, 16, Reason::LongImage { need, found })
            }
            DumpFault::NoMemory => None,
        }
    }

    /// The refusal of a capture file.
    pub fn of_capture(fault: CaptureFault) -> Option<Refusal>
        ensures { result ≡ of_capture fault }
    {
        match fault {
            CaptureFault::Short(found) => Refusal::at_bytes(found, 1, Reason::Short),
            CaptureFault::BadMagic(_) => Refusal::at_bytes(0, 4, Reason::BadMagic),
            CaptureFault::BadVersion { .. } => Refusal::at_bytes(4, 4, Reason::BadVersion),
            CaptureFault::BadLinkType(_) => Refusal::at_bytes(20, 4, Reason::BadLinkType),
            CaptureFault::BadPacket(number) => Refusal::at_packet(number, Reason::BadPacket),
            CaptureFault::CutPacket(number) => Refusal::at_packet(number, Reason::CutPacket),
            CaptureFault::NoMemory => None,
        }
    }
}
