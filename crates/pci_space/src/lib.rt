//! The configuration space of the device, as a field table, and the walk that finds the device in
//! configuration bytes that cannot be trusted. The crate uses `section_map` for the sizes of the
//! region. Its contracts promise that a read returns the bytes of the fields, and 0 if there is no
//! field. They promise that a write changes exactly the masked bits, and that a walk ends with the
//! one result of its bytes.
//!
//! # Design
//!
//! - The view of a space is the rows of its table and the bytes that it reads. In the definitions
//!   it reads 0 after its end, so that no law about its bytes needs the size of the space. The code
//!   refuses a read that ends after the space.
//! - Two clauses define the bytes of the fields. One gives the value of each byte at reset
//!   (`reset_byte`). By the other, bits outside the masks always have their reset values
//!   (`KeepsUnmasked`).
//! - A walk is a relation with five rules (`specs/Walk`). The list ends, a pointer is too low, a
//!   pointer occurs twice, a capability is faulty, or the list continues. A law says that two walks
//!   over the same bytes have one result (`one_walk`).
// tested: `lspci` reads the device's bytes as this device with its two capabilities
//    (`checks/lspci`).
#![tactic(auto)]

mod capabilities;
mod device;
mod field;
mod found;
mod number;
mod place;
mod sizes;
mod space;
mod table;
mod wiring;

pub use capabilities::{one_walk, walk};
pub use device::{ConfigSpace, device_space, placed_space, walk_finds_the_device};
pub use field::{Field, FieldFault};
pub use found::{CapabilityFault, Found, MsixFound};
pub use place::{RegionPlace, USUAL_BASE};
pub use sizes::{MOST_VECTORS, SPACE_LEN};
pub use space::{BadAccess, Space};
pub use table::{FieldTable, table_of};
pub use wiring::Wiring;
