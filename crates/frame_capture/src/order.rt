//! The byte order of a file.
ghost use Rattle.std.specs.Prelude.{◌≡◌, ◌+◌, ◌≤◌, length, IfSome, IfNone};
ghost use Rattle.frame_capture.specs.CaptureFile.{IsInOrder, number_at};

use byteorder::{BigEndian, ByteOrder, LittleEndian};

/// The magic number at the start of a file, in the file's byte order.
pub const MAGIC: u32 = 0xa1b2_c3d4;

/// The byte order of all numbers of a file.
#[derive(Clone, Copy, Debug, PartialEq, Eq)]
pub enum Order {
    Little,
    Big,
}

impl Order {
    /// Returns the order in which these bytes begin with the magic number, if there is one.
    pub fn of(bytes: &[u8]) -> Option<Order>
        requires { 4 ≤ length bytes.now }
        ensures found { IfSome result (λ order. IsInOrder order bytes.now) }
        ensures none { IfNone result ((order : Order) → ¬ IsInOrder order bytes.now) }
    {
        if LittleEndian::read_u32(bytes) == MAGIC {
            Some(Order::Little)
        } else if BigEndian::read_u32(bytes) == MAGIC {
            Some(Order::Big)
        } else {
            None
        }
    }

    /// Returns the 16-bit number at byte offset `place`.
    pub fn u16_at(self, bytes: &[u8], place: usize) -> u16
        requires { place + 2 ≤ length bytes.now }
        ensures { result ≡ number_at self 2 place bytes.now }
    {
        match self {
            Order::Little => LittleEndian::read_u16(&bytes[place..]),
            Order::Big => BigEndian::read_u16(&bytes[place..]),
        }
    }

    /// Returns the 32-bit number at byte offset `place`.
    pub fn u32_at(self, bytes: &[u8], place: usize) -> u32
        requires { place + 4 ≤ length bytes.now }
        ensures { result ≡ number_at self 4 place bytes.now }
    {
        match self {
            Order::Little => LittleEndian::read_u32(&bytes[place..]),
            Order::Big => BigEndian::read_u32(&bytes[place..]),
        }
    }
}
