//! Accesses of 1, 2, 4 and 8 bytes to the windows of a peer's device.
//!
//! A configuration space has aligned accesses of 1, 2 and 4 bytes. The register page has aligned
//! words. The MSI-X region has aligned words and aligned pairs of words, the lower word first (PCI
//! 3.0, 6.8.2). Every other access reads 0, and its write is ignored.
ghost use Rattle.std.specs.Prelude.{◌≡◌, ◌<◌, ◌^◌, ℕ, List, if◌then◌else◌};
ghost use Rattle.pci_space.specs.Numbers.{number_from};
ghost use Rattle.pci_space.specs.Fields.{is_access};
ghost use Rattle.doorbell_irq.specs.Events.{Devices, Event, Config};
ghost use Rattle.doorbell_irq.specs.DeviceRules.{bytes_after};
ghost use Rattle.doorbell_irq.specs.Refinement.{Refines, peer_count};
ghost use Rattle.ivshm_device.specs.Windows.{AddsAll, window_of, low_word, high_word, config_at, page_at, msix_region_at, read_at, config_events, page_events, msix_events, events_of, no_effect, page_effect, effect_at};

use crate::peer_devices::PeerDevices;
use arrayvec::ArrayVec;
use doorbell_irq::Effect;

/// The number of the register page's window in C.
pub(crate) const REGISTER_PAGE: u32 = 1;

/// A window of a peer's device.
#[derive(Clone, Copy, Debug, PartialEq, Eq)]
pub(crate) enum Window {
    /// The configuration space.
    ConfigSpace,
    /// The register page: the window of Base Address Register 0.
    RegisterPage,
    /// The MSI-X region: the window of Base Address Register 1.
    MsixRegion,
}

/// Returns the window of a number in C, which is below 3.
pub(crate) fn window_of(number: u32) -> Window
    ensures { result ≡ window_of number }
{
    match number {
        0 => Window::ConfigSpace,
        REGISTER_PAGE => Window::RegisterPage,
        _ => Window::MsixRegion,
    }
}

/// Returns the lower word of a value.
pub(crate) fn low_word(value: u64) -> u32
    ensures { result ≡ low_word value }
{
    (value % 0x1_0000_0000) as u32
}

/// Returns the upper word of a value.
fn high_word(value: u64) -> u32
    ensures { result ≡ high_word value }
{
    (value / 0x1_0000_0000) as u32
}

/// Returns the effect of a call that writes no State and triggers no peer.
fn no_effect() -> Effect
    ensures { result ≡ no_effect }
{
    Effect {
        state: None,
        deliveries: ArrayVec::new(),
    }
}

/// Reads a configuration space.
fn read_config(devices: &PeerDevices, peer: u32, offset: u32, width: u32) -> u64
    requires { peer < peer_count devices.now }
    ensures { (w : Devices) (events : List Event) → Refines w events devices.now →
        result ≡ config_at (bytes_after w events peer) offset width }
{
    if offset > 255 || width > 4 {
        return 0;
    }
    match devices.config_read(peer, offset as u16, width as u16) {
        Ok(value) => u64::from(value),
        Err(_) => 0,
    }
}

/// Reads a register page.
fn read_page(devices: &PeerDevices, peer: u32, offset: u32, width: u32) -> u64
    requires { peer < peer_count devices.now }
    ensures { (w : Devices) (events : List Event) → Refines w events devices.now →
        result ≡ page_at (bytes_after w events peer) offset width }
{
    if width == 4 {
        u64::from(devices.register_read(peer, offset))
    } else {
        0
    }
}

/// Reads an MSI-X region.
fn read_msix(devices: &PeerDevices, peer: u32, offset: u32, width: u32) -> u64
    requires { peer < peer_count devices.now }
    ensures { (w : Devices) (events : List Event) → Refines w events devices.now →
        result ≡ msix_region_at w.wiring (bytes_after w events peer) offset width }
{
    if width == 4 {
        return u64::from(devices.msix_read(peer, offset));
    }
    if width != 8 || offset % 8 != 0 {
        return 0;
    }
    let low = devices.msix_read(peer, offset);
    let high = devices.msix_read(peer, offset + 4);
    u64::from(low) + 0x1_0000_0000 * u64::from(high)
}

/// Reads a window.
pub(crate) fn read_window(
    devices: &PeerDevices,
    peer: u32,
    window: Window,
    offset: u32,
    width: u32,
) -> u64
    requires { peer < peer_count devices.now }
    ensures { (w : Devices) (events : List Event) → Refines w events devices.now →
        result ≡ read_at w.wiring (bytes_after w events peer) window offset width }
{
    match window {
        Window::ConfigSpace => read_config(devices, peer, offset, width),
        Window::RegisterPage => read_page(devices, peer, offset, width),
        Window::MsixRegion => read_msix(devices, peer, offset, width),
    }
}

/// Writes a configuration space.
fn write_config(devices: &mut PeerDevices, peer: u32, offset: u32, width: u32, value: u64)
    requires { peer < peer_count devices.old }
    ensures { AddsAll (config_events peer offset width value) devices.old devices.new }
{
    if offset <= 255 && width <= 4 {
        let _ = devices.config_write(peer, offset as u16, width as u16, low_word(value));
    }
}

/// Writes a register page.
fn write_page(devices: &mut PeerDevices, peer: u32, offset: u32, width: u32, value: u64) -> Effect
    requires { peer < peer_count devices.old }
    ensures refines { AddsAll (page_events peer offset width value) devices.old devices.new }
    ensures effect { (w : Devices) (events : List Event) → Refines w events devices.old →
        result ≡ page_effect w events peer offset width value }
{
    if width == 4 {
        devices.register_write(peer, offset, low_word(value))
    } else {
        no_effect()
    }
}

/// Writes an MSI-X region.
fn write_msix(devices: &mut PeerDevices, peer: u32, offset: u32, width: u32, value: u64)
    requires { peer < peer_count devices.old }
    ensures { AddsAll (msix_events peer offset width value) devices.old devices.new }
{
    if width == 4 {
        devices.msix_write(peer, offset, low_word(value));
    } else if width == 8 && offset % 8 == 0 {
        devices.msix_write(peer, offset, low_word(value));
        devices.msix_write(peer, offset + 4, high_word(value));
    }
}

/// Writes a window.
pub(crate) fn write_window(
    devices: &mut PeerDevices,
    peer: u32,
    window: Window,
    offset: u32,
    width: u32,
    value: u64,
) -> Effect
    requires { peer < peer_count devices.old }
    ensures refines { AddsAll (events_of peer window offset width value) devices.old devices.new }
    ensures effect { (w : Devices) (events : List Event) → Refines w events devices.old →
        result ≡ effect_at w events peer window offset width value }
{
    match window {
        Window::ConfigSpace => {
            write_config(devices, peer, offset, width, value);
            no_effect()
        }
        Window::RegisterPage => write_page(devices, peer, offset, width, value),
        Window::MsixRegion => {
            write_msix(devices, peer, offset, width, value);
            no_effect()
        }
    }
}
