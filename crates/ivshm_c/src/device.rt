//! The description of a device and its sections that the C interface returns.
ghost use Rattle.std.specs.Prelude.{◌≡◌, ◌+◌, ◌*◌, IfOk, IfErr, unwrap_or};
ghost use Rattle.section_map.specs.Geometry.{IsShape};
ghost use Rattle.split_ring.specs.Layout.{IsQueue, IsVersion};
ghost use Rattle.ivshm_c.specs.Sizes.{no_msix, found_crossed, capability_status, queue_status, shape_found, sizes_found, HasSizes, IsSizeFault, layout_of, longest_delivery};

use c_status::{Status, geometry_status};
use pci_space::{CapabilityFault, MsixFound};
use section_map::Geometry;
use split_ring::{FRAME_OVERHEAD, LONGEST_FRAME, Queue, QueueFault};

/// The result of a walk over a device's configuration space. Sizes are in bytes.
///
/// A place has the number of its Base Address Register, 0 to 7, and the offset in it. Without a
/// base the region is in Base Address Register 2.
#[repr(C)]
#[derive(Clone, Copy)]
pub struct Found {
    pub common: u64,
    pub out: u64,
    pub base: u64,
    pub table: u32,
    pub protocol: u32,
    pub one_shot: u32,
    pub has_base: u32,
    pub vectors: u32,
    pub vectors_bar: u32,
    pub vectors_offset: u32,
    pub pending_bar: u32,
    pub pending_offset: u32,
}

/// The words of a region by name. `first` is the first word of peer 0's output section, which has
/// `words` words; the sections of the other peers follow. The words of the rings are numbered from
/// the start of a section. `slot` and `data_area` are in bytes, the latter from the start of a
/// section.
#[repr(C)]
#[derive(Clone, Copy)]
pub struct Layout {
    pub first: u32,
    pub words: u32,
    pub queue_size: u32,
    pub limit: u32,
    pub slot: u32,
    pub data_area: u32,
    pub available_index: u32,
    pub available_entries: u32,
    pub used_event: u32,
    pub used_index: u32,
    pub used_elements: u32,
    pub available_event: u32,
    pub longest_offer: u32,
    pub longest_delivery: u32,
}

/// The highest version of the link, and the bounds of its numbers in bytes.
#[repr(C)]
#[derive(Clone, Copy)]
pub struct Limits {
    pub version: u32,
    pub least_mtu: u32,
    pub most_mtu: u32,
    pub shortest_frame: u32,
    pub longest_frame: u32,
    pub largest_region: u32,
}

/// Returns MSI-X as a walk found it, without a vector if there is none.
fn msix_of(found: Option<MsixFound>) -> MsixFound
    ensures { result ≡ unwrap_or found no_msix }
{
    match found {
        Some(msix) => msix,
        None => MsixFound {
            vectors: 0,
            table: 0,
            pending: 0,
        },
    }
}

/// Returns a base, or 0 if there is none.
fn base_of(found: Option<u64>) -> u64
    ensures { result ≡ unwrap_or found 0 }
{
    match found {
        Some(base) => base,
        None => 0,
    }
}

pub(crate) fn found_crossed(found: &pci_space::Found) -> Found
    ensures { result ≡ found_crossed found.now }
{
    let msix = msix_of(found.msix);
    Found {
        common: found.common,
        out: found.out,
        base: base_of(found.base),
        table: found.table,
        protocol: u32::from(found.protocol),
        one_shot: u32::from(found.one_shot),
        has_base: u32::from(found.base.is_some()),
        vectors: msix.vectors,
        vectors_bar: msix.table % 8,
        vectors_offset: msix.table - msix.table % 8,
        pending_bar: msix.pending % 8,
        pending_offset: msix.pending - msix.pending % 8,
    }
}

/// Returns the status of a walk that finds no device.
pub(crate) fn capability_status(fault: &CapabilityFault) -> Status
    ensures { result ≡ capability_status fault.now }
{
    match fault {
        CapabilityFault::NotThisDevice { .. } => Status::OtherDevice,
        CapabilityFault::BadClass(_) => Status::BadClass,
        CapabilityFault::OutOfSpace(_) => Status::OutOfSpace,
        CapabilityFault::Loop(_) => Status::Loop,
        CapabilityFault::BadVendorLength(_) => Status::BadVendorLength,
        CapabilityFault::NoVendor => Status::NoVendor,
    }
}

/// Returns the status of a section that has no queue.
fn queue_status(fault: &QueueFault) -> Status
    ensures { result ≡ queue_status fault.now }
{
    match fault {
        QueueFault::BadMtu(_) => Status::BadMtu,
        QueueFault::TooSmall(_) => Status::SmallOut,
        QueueFault::NoSlot { .. } => Status::NoSlot,
    }
}

/// Returns the geometry of these sizes and the queue of its sections in a link of this version.
/// Returns the status of the first test that fails.
pub(crate) fn sized(
    found: &Found,
    version: u32,
    peers: u32,
    mtu: u32,
) -> Result<(Geometry, Queue), Status>
    requires version { IsVersion version }
    ensures shape { IfOk result (λ r. (r.0 ≡ shape_found found.now peers) × IsShape r.0) }
    ensures sizes { IfOk result (λ _. HasSizes found.now peers) }
    ensures queue { IfOk result (λ r. (r.1 ≡ sizes_found found.now version mtu) × IsQueue r.1) }
    ensures whole { IfOk result (λ r. r.1.out ≡ 4 * r.0.out) }
    ensures fault { IfErr result (λ status. IsSizeFault found.now version peers mtu status) }
{
    match Geometry::new(peers, found.table, found.common, found.out) {
        Err(fault) => Err(geometry_status(&fault)),
        Ok(geometry) => match Queue::of_version(version, found.out, mtu) {
            Err(fault) => Err(queue_status(&fault)),
            Ok(queue) => Ok((geometry, queue)),
        },
    }
}

pub(crate) fn layout_of(geometry: &Geometry, queue: &Queue) -> Layout
    ensures { result ≡ layout_of geometry.now queue.now }
{
    let words = geometry.out_words();
    Layout {
        first: geometry.section_start(0),
        words,
        queue_size: queue.size(),
        limit: queue.limit(),
        slot: queue.slot(),
        data_area: queue.payload(),
        available_index: queue.avail_word(),
        available_entries: queue.entry_word(0),
        used_event: queue.used_event_word(),
        used_index: queue.used_word(),
        used_elements: queue.used_id(0),
        available_event: queue.avail_event_word(),
        longest_offer: queue.mtu() + FRAME_OVERHEAD as u32,
        longest_delivery: longest_delivery(queue),
    }
}

/// Returns the greatest length in bytes of a delivered frame.
fn longest_delivery(queue: &Queue) -> u32
    ensures { result ≡ longest_delivery queue.now }
{
    let room = queue.out() - queue.payload();
    room.min(LONGEST_FRAME)
}
