//! The exports that need no end. They are the walk over a configuration space, the words of a
//! region, the bounds of the link's numbers, and the versions of the library.
ghost use Rattle.std.specs.Prelude.{◌≡◌, Result, Ok, Err};
ghost use Rattle.pci_space.specs.Walk.{IsWalk};
ghost use Rattle.pci_space.specs.declared.found.Found.{Found as Walked};
ghost use Rattle.pci_space.specs.declared.found.CapabilityFault.{CapabilityFault as WalkFault};
ghost use Rattle.c_status.specs.declared.status.Status.{Status as Answer};
ghost use Rattle.c_status.specs.Statuses.{number_of};
ghost use Rattle.ivshm_c.specs.Sizes.{walk_status, found_after, LaysOut, limits};
ghost use Rattle.ivshm_c.specs.Versions.{abi_version, library_version};

use crate::device::{Found, Layout, Limits, capability_status, found_crossed, layout_of, sized};
use c_status::Status;
use pci_space::walk;
use section_map::LARGEST_REGION;
use split_ring::{LEAST_MTU, LONGEST_FRAME, MOST_MTU, SHORTEST_FRAME};

/// The version of the binary interface.
const INTERFACE: u32 = 1;

/// The version of the library, 1.0: 1,000 times its first number, plus its second.
const LIBRARY: u32 = 1_000;

/// Finds the device in the 256 bytes of a configuration space, which isn't trusted.
// claim with ivshm_layout, ivshm_limits: A walk is answered as `pci_space` walks, or by its fault.
//    The words of a region are the layout's, and the limits are the link's.
#[unsafe(no_mangle)]
pub extern "C" fn ivshm_walk(space: &[u8; 256], found: &mut Found) -> u32
    ensures { (answer : Result Walked WalkFault) × IsWalk space.now answer × (result ≡ number_of (walk_status answer)) ×
        (found.new ≡ found_after answer found.old) }
{
    match walk(space) {
        Ok(walked) => {
            *found = found_crossed(&walked);
            Status::Done.number()
        }
        Err(fault) => capability_status(&fault).number(),
    }
}

/// Writes the words of a region of these sizes by name into `layout`. They are the same in each
/// version of the link.
#[unsafe(no_mangle)]
pub extern "C" fn ivshm_layout(found: &Found, peers: u32, mtu: u32, layout: &mut Layout) -> u32
    ensures { (answer : Answer) × (result ≡ number_of answer) ×
        LaysOut found.now peers mtu layout.old answer layout.new }
{
    match sized(found, 1, peers, mtu) {
        Ok((geometry, queue)) => {
            *layout = layout_of(&geometry, &queue);
            Status::Done.number()
        }
        Err(status) => status.number(),
    }
}

/// Writes the highest version of the link and the bounds of its numbers.
#[unsafe(no_mangle)]
pub extern "C" fn ivshm_limits(reported: &mut Limits)
    ensures { reported.new ≡ limits }
{
    *reported = Limits {
        version: 3,
        least_mtu: LEAST_MTU,
        most_mtu: MOST_MTU,
        shortest_frame: SHORTEST_FRAME,
        longest_frame: LONGEST_FRAME,
        largest_region: LARGEST_REGION,
    };
}

/// Returns the version of the binary interface.
// claim with ivshm_library_version: The library reports the version of its interface and its own,
//    as the header has them.
#[unsafe(no_mangle)]
pub extern "C" fn ivshm_abi_version() -> u32
    ensures { result ≡ abi_version }
{
    INTERFACE
}

/// Returns the version of the library: 1,000 times its first number, plus its second.
#[unsafe(no_mangle)]
pub extern "C" fn ivshm_library_version() -> u32
    ensures { result ≡ library_version }
{
    LIBRARY
}
