//! The walk over configuration bytes that cannot be trusted.
ghost use Rattle.std.specs.Prelude.{◌≡◌, ℕ, ◌<◌, ◌≤◌, List, [], None};
ghost use Rattle.pci_space.specs.Walk.{pointer_at, vendor_at, msix_at, listed_with, FollowsList, IsWalk, nothing_listed};
ghost use Rattle.pci_space.specs.declared.sizes.TheConstants.{SPACE_LEN};

use crate::found::{CapabilityFault, Found, Listed, MsixFound, Vendor};
use crate::number::number_in;
use crate::sizes::SPACE_LEN;

/// The ID of a vendor-specific capability (PCI 3.0).
const VENDOR_ID: u8 = 0x09;
/// The ID of the MSI-X capability (PCI 3.0).
const MSIX_ID: u8 = 0x11;

/// Finds the device in configuration bytes that cannot be trusted.
///
/// Only the first vendor capability and the first MSI-X capability of the list count. Returns the
/// first fault in the order of the list. A walk ends on every input: a pointer that occurs twice is
/// a fault.
// claim: A walk over 256 foreign bytes ends, with the answer of its rules.
pub fn walk(bytes: &[u8; SPACE_LEN]) -> Result<Found, CapabilityFault>
    ensures { IsWalk bytes.now result }
{
    let vendor = number_in(&bytes[..], 0x00, 2) as u16;
    let device = number_in(&bytes[..], 0x02, 2) as u16;
    if vendor != 0x110A || device != 0x4106 {
        return Err(CapabilityFault::NotThisDevice { vendor, device });
    }
    if bytes[0x0B] != 0xFF {
        return Err(CapabilityFault::BadClass(bytes[0x0B]));
    }
    // Status bit 4 is set if there is a list.
    if bytes[0x06] / 16 % 2 == 0 {
        return Err(CapabilityFault::NoVendor);
    }
    let listed = follow_list(bytes)?;
    let Some(vendor) = listed.vendor else {
        return Err(CapabilityFault::NoVendor);
    };
    Ok(Found {
        protocol: number_in(&bytes[..], 0x09, 2) as u16,
        one_shot: vendor.one_shot,
        table: vendor.table,
        common: vendor.common,
        out: vendor.out,
        base: vendor.base,
        msix: listed.msix,
    })
}

/// Follows the list of capabilities to its end.
fn follow_list(bytes: &[u8; SPACE_LEN]) -> Result<Listed, CapabilityFault>
    ensures { FollowsList bytes.now [] (pointer_at bytes.now 0x34) nothing_listed result }
{
    let mut met = [false; SPACE_LEN];
    let mut so_far = Listed {
        vendor: None,
        msix: None,
    };
    let mut p = pointer(bytes, 0x34);
    while p != 0 {
        if p < 0x40 {
            return Err(CapabilityFault::OutOfSpace(p as u16));
        }
        if met[p] {
            return Err(CapabilityFault::Loop(p as u16));
        }
        met[p] = true;
        so_far = with_capability(bytes, p, so_far)?;
        p = pointer(bytes, p + 1);
    }
    Ok(so_far)
}

/// Returns the pointer at an offset, with its low two bits cleared (PCI 3.0, 6.7).
fn pointer(bytes: &[u8; SPACE_LEN], at: usize) -> usize
    requires { at < SPACE_LEN }
    ensures is { result ≡ pointer_at bytes.now at }
    ensures small { result ≤ 252 }
{
    let byte = usize::from(bytes[at]);
    byte - byte % 4
}

/// Returns the findings in the list after the capability at `p`.
fn with_capability(
    bytes: &[u8; SPACE_LEN],
    p: usize,
    so_far: Listed,
) -> Result<Listed, CapabilityFault>
    requires { p ≤ 252 }
    ensures { result ≡ listed_with bytes.now p so_far }
{
    if bytes[p] == VENDOR_ID && so_far.vendor.is_none() {
        let vendor = read_vendor(bytes, p)?;
        return Ok(Listed {
            vendor: Some(vendor),
            msix: so_far.msix,
        });
    }
    if bytes[p] == MSIX_ID && so_far.msix.is_none() {
        let msix = read_msix(bytes, p)?;
        return Ok(Listed {
            vendor: so_far.vendor,
            msix: Some(msix),
        });
    }
    Ok(so_far)
}

/// Reads the vendor capability at `p`.
fn read_vendor(bytes: &[u8; SPACE_LEN], p: usize) -> Result<Vendor, CapabilityFault>
    requires { p ≤ 252 }
    ensures { result ≡ vendor_at bytes.now p }
{
    let length = bytes[p + 2];
    if length != 0x18 && length != 0x20 {
        return Err(CapabilityFault::BadVendorLength(length));
    }
    if p + usize::from(length) > SPACE_LEN {
        return Err(CapabilityFault::OutOfSpace(p as u16));
    }
    let base = if length == 0x20 {
        Some(number_in(&bytes[..], p + 24, 8))
    } else {
        None
    };
    Ok(Vendor {
        one_shot: bytes[p + 3] % 2 == 1,
        table: number_in(&bytes[..], p + 4, 4) as u32,
        common: number_in(&bytes[..], p + 8, 8),
        out: number_in(&bytes[..], p + 16, 8),
        base,
    })
}

/// Reads the MSI-X capability at `p`.
fn read_msix(bytes: &[u8; SPACE_LEN], p: usize) -> Result<MsixFound, CapabilityFault>
    requires { p ≤ 252 }
    ensures { result ≡ msix_at bytes.now p }
{
    if p + 12 > SPACE_LEN {
        return Err(CapabilityFault::OutOfSpace(p as u16));
    }
    Ok(MsixFound {
        vectors: number_in(&bytes[..], p + 2, 2) as u32 % 2048 + 1,
        table: number_in(&bytes[..], p + 4, 4) as u32,
        pending: number_in(&bytes[..], p + 8, 4) as u32,
    })
}

/// Law: two walks over the same bytes have one result.
// claim: A walk has one answer.
pub fn one_walk()
    ensures { (bytes : List ℕ) (first second : _) → IsWalk bytes first → IsWalk bytes second → first ≡ second }
{}
