//! The law that a line breaks if the lawful history has another line there, or no line.
ghost use Rattle.std.specs.Prelude.{◌≡◌, ◌==◌, Some};
ghost use Rattle.std.specs.Option.{option_copied};
ghost use Rattle.link_model.specs.BrokenLaw.{kind_of, law_by, law_between};
ghost use Rattle.link_model.specs.BrokenLaw as broken;

use crate::fault::Law;
use lawful_history::Line;

/// The kind of a line, by which the law that it breaks is chosen.
#[derive(Clone, Copy, Debug, PartialEq, Eq)]
pub enum Kind {
    /// A turn without a step, or a device reset. The schedule alone decides its place.
    Scheduled,
    /// An interrupt, or an access to a part of the device.
    OfDevice,
    /// A write that was denied.
    WasDenied,
    /// A read of this word.
    WasRead(u32),
    /// A mark of the link.
    Marked,
    /// Another access: a write, a State write or a doorbell.
    Accessed,
}

impl Kind {
    fn is_scheduled(self) -> bool
        ensures { result ≡ broken.is_scheduled self }
    {
        matches!(self, Kind::Scheduled)
    }

    fn is_of_device(self) -> bool
        ensures { result ≡ broken.is_of_device self }
    {
        matches!(self, Kind::OfDevice)
    }

    fn is_denied(self) -> bool
        ensures { result ≡ broken.is_denied self }
    {
        matches!(self, Kind::WasDenied)
    }

    fn is_mark(self) -> bool
        ensures { result ≡ broken.is_mark self }
    {
        matches!(self, Kind::Marked)
    }

    /// Whether both are reads of the same word.
    fn reads_with(self, found: Kind) -> bool
        ensures { result ≡ broken.are_reads_of_one self found }
    {
        match self {
            Kind::WasRead(word) => match found {
                Kind::WasRead(another) => word == another,
                _ => false,
            },
            _ => false,
        }
    }
}

/// Returns the kind of the line.
fn kind_of(line: &Line) -> Kind
    ensures { result ≡ kind_of line.now }
{
    match line {
        Line::Reset { .. } | Line::Idle { .. } => Kind::Scheduled,
        Line::Interrupt { .. }
        | Line::Lost { .. }
        | Line::ConfigRead { .. }
        | Line::ConfigWrite { .. }
        | Line::RegisterRead { .. }
        | Line::RegisterWrite { .. }
        | Line::MsixRead { .. }
        | Line::MsixWrite { .. } => Kind::OfDevice,
        Line::Denied { .. } => Kind::WasDenied,
        Line::Read { word, .. } => Kind::WasRead(*word),
        Line::Write { .. } | Line::State { .. } | Line::Doorbell { .. } => Kind::Accessed,
        _ => Kind::Marked,
    }
}

/// Returns the law of the first rule that applies to the kinds of the two lines. `one_peer` says
/// whether both lines are of one peer.
fn law_of(due: Kind, found: Kind, one_peer: bool) -> Law
    ensures { result ≡ law_by due found one_peer }
{
    if due.is_scheduled() || found.is_scheduled() {
        Law::Order
    } else if due.is_of_device() || found.is_of_device() {
        Law::Device
    } else if !one_peer {
        Law::Order
    } else if due.is_denied() || found.is_denied() {
        Law::Touch
    } else if due.reads_with(found) {
        Law::Memory
    } else if due.is_mark() || found.is_mark() {
        Law::Link
    } else {
        Law::Call
    }
}

/// Returns the law that the line `found` breaks. The lawful history has the line `due` there, or is
/// over if that is `None`.
pub fn broken_law(due: Option<&Line>, found: &Line) -> Law
    ensures { result ≡ law_between (option_copied due.entry) (Some found.now) }
{
    let Some(due) = due else {
        return Law::Order;
    };
    law_of(kind_of(due), kind_of(found), due.peer() == found.peer())
}
