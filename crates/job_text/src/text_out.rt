//! A text in memory as a device.
ghost use Rattle.std.specs.Prelude.{◌≡◌, [], Some};

use byte_io::{GhostCount, Out, OutFault};
use std::alloc::Global;

/// A text that takes what is put until memory is refused.
#[derive(Drop)]
pub struct TextOut {
    bytes: Vec<u8>,
    failures: GhostCount,
}

impl TextOut {
    /// Returns an empty text.
    pub fn new(alloc: Global) -> TextOut
        ensures { result.bytes.items ≡ [] }
    {
        TextOut {
            bytes: Vec::new(alloc),
            failures: GhostCount::zero(),
        }
    }

    /// Returns the bytes of the text.
    pub fn into_bytes(self) -> Vec<u8>
        ensures { result.items ≡ self.bytes.items }
    {
        self.bytes
    }
}

impl Out for TextOut {
    ghost written = { λ text. Some text.bytes.items };

    ghost failures = { λ text. text.failures.total };

    fn put(&mut self, piece: &[u8]) -> Result<usize, OutFault> {
        if self.bytes.extend_from_slice(piece).is_ok() {
            return Ok(piece.len());
        }
        self.failures = self.failures.next();
        Err(OutFault)
    }
}
