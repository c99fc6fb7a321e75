//! Ethernet frames, and the error NoMemory.
ghost use Rattle.std.specs.Prelude.{◌≡◌, ℕ, List, IfOk};
ghost use Rattle.std.specs.Str.{bytes_eq};
ghost use Rattle.std.specs.Cmp.Rules.{comparing};
ghost use Rattle.std.proofs.Common.{rules};

use std::alloc::{AllocError, AllocFailed, Global};
use std::marker::Model;
use thiserror::Error;

/// An allocation failed. The call made nothing.
#[derive(Clone, Copy, Debug, PartialEq, Eq, Error)]
#[error("out of memory")]
pub struct NoMemory;

impl From<AllocError> for NoMemory {
    fn from(_e: AllocError) -> NoMemory {
        NoMemory
    }
}

/// The conversion for `?` after `push`. The value that wasn't stored is dropped.
impl<T> From<AllocFailed<T>> for NoMemory
where
    T: Drop,
{
    fn from(_e: AllocFailed<T>) -> NoMemory {
        NoMemory
    }
}

/// An Ethernet frame without its check sequence: any list of bytes.
#[derive(Debug, Drop)]
pub struct Frame {
    bytes: Vec<u8>,
}

impl Model for Frame {
    ghost Value = { List ℕ };

    ghost view = { λ frame. frame.bytes.items };
}

impl Frame {
    /// Returns a frame of these bytes. Returns `Err(NoMemory)` if the allocation fails.
    // claim with Frame::bytes: A frame has exactly the bytes that it was made of.
    pub fn of(alloc: Global, bytes: &[u8]) -> Result<Frame, NoMemory>
        ensures { IfOk result (λ frame. frame ≡ bytes.now) }
    {
        let bytes = bytes.to_vec(alloc)?;
        Ok(Frame { bytes })
    }

    /// Returns the bytes of the frame, in order.
    pub fn bytes(&self) -> &[u8]
        ensures { result.now ≡ self.now }
    {
        self.bytes.as_slice()
    }
}

impl PartialEq for Frame {
    ghost eq = { bytes_eq };

    ghost laws = { Prim.search (comparing, rules) };

    fn eq(&self, other: &Frame) -> bool {
        self.bytes() == other.bytes()
    }
}

impl Eq for Frame {
    ghost laws = { Prim.search (comparing, rules) };
}
