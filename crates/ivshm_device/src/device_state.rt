//! The state that a handle holds.
use crate::peer_devices::PeerDevices;

/// The devices of a world, as a handle holds them.
#[derive(Drop)]
pub(crate) struct DeviceState {
    pub(crate) device: PeerDevices,
}
