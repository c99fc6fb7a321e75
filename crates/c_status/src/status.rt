//! The statuses, by the names that the headers give them.
ghost use Rattle.std.specs.Prelude.{◌≡◌};
ghost use Rattle.c_status.specs.Statuses.{number_of, geometry_status};

use section_map::{GeometryFault, Part};

/// What a call of a C library returns. `c/ivshm_c.h` and `c/ivshm_device.h` say when a call returns
/// each of them.
#[derive(Clone, Copy, Debug, PartialEq, Eq)]
pub enum Status {
    Done,
    NoEnd,
    NoDevice,
    HasEnd,
    HasDevice,
    CallOpen,
    NoCall,
    NoMemory,
    BadCall,
    ShortFrame,
    LongFrame,
    ShortRoom,
    BadPeer,
    BadPeers,
    BadTable,
    BadCommon,
    BadOut,
    SmallTable,
    LargeRegion,
    BadMtu,
    SmallOut,
    NoSlot,
    OtherDevice,
    BadClass,
    OutOfSpace,
    Loop,
    BadVendorLength,
    NoVendor,
    OtherAccess,
    BadCount,
    BadVersion,
    BadVector,
    BadVectors,
    BadAccess,
    BadWindow,
    BadBase,
}

impl Status {
    /// Returns the number of the status in C, as the headers have it.
    // claim: Each status has the number that the headers give it.
    pub fn number(self) -> u32
        ensures { result ≡ number_of self }
    {
        match self {
            Status::Done => 0,
            Status::NoEnd | Status::NoDevice => 1,
            Status::HasEnd | Status::HasDevice => 2,
            Status::CallOpen => 3,
            Status::NoCall => 4,
            Status::NoMemory => 5,
            Status::BadCall => 6,
            Status::ShortFrame => 7,
            Status::LongFrame => 8,
            Status::ShortRoom => 9,
            Status::BadPeer => 10,
            Status::BadPeers => 11,
            Status::BadTable => 12,
            Status::BadCommon => 13,
            Status::BadOut => 14,
            Status::SmallTable => 15,
            Status::LargeRegion => 16,
            Status::BadMtu => 17,
            Status::SmallOut => 18,
            Status::NoSlot => 19,
            Status::OtherDevice => 20,
            Status::BadClass => 21,
            Status::OutOfSpace => 22,
            Status::Loop => 23,
            Status::BadVendorLength => 24,
            Status::NoVendor => 25,
            Status::OtherAccess => 26,
            Status::BadCount => 27,
            Status::BadVersion => 28,
            Status::BadVector => 29,
            Status::BadVectors => 40,
            Status::BadAccess => 41,
            Status::BadWindow => 42,
            Status::BadBase => 43,
        }
    }
}

/// Returns the status of sizes that no region has.
// claim: Each fault of a region's sizes has a status of its own: the part whose size is no whole
//    page, too small a table, too large a region, or a wrong number of peers.
pub fn geometry_status(fault: &GeometryFault) -> Status
    ensures { result ≡ geometry_status fault.now }
{
    match fault {
        GeometryFault::BadPeers(_) => Status::BadPeers,
        GeometryFault::BadPage { part, .. } => match part {
            Part::Table => Status::BadTable,
            Part::Common => Status::BadCommon,
            Part::Out => Status::BadOut,
        },
        GeometryFault::TableTooSmall { .. } => Status::SmallTable,
        GeometryFault::TooLarge { .. } => Status::LargeRegion,
    }
}
