//! Devices that give bytes.
ghost use Rattle.std.specs.Prelude.{◌≡◌, ℕ, List, Option, length};
ghost use Rattle.std.specs.Io.{ReadsAtMost};
ghost use Rattle.std.specs.Io.KnownBytes.{ReadConsumes};
ghost use Rattle.byte_io.specs.Input.{Counts, counts_after, counts_of, no_counts};

use crate::count::GhostCount;
use thiserror::Error;

/// An input device failed.
#[derive(Clone, Copy, Debug, PartialEq, Eq, Error)]
#[error("the input device failed")]
pub struct InFault;

/// A device that gives bytes.
pub trait In {
    /// What remains to be read, or `None` where the device can't know it.
    ghost remaining: { Self → Option (List ℕ) };

    /// How often the device was read, gave bytes, ended the input, and failed.
    ghost counts: { Self → Counts };

    /// Fills a prefix of the buffer with the next bytes and returns its length. 0 for a buffer that
    /// isn't empty ends the input.
    fn take(&mut self, buffer: &mut [u8]) -> Result<usize, InFault>
        ensures bound { ReadsAtMost result buffer.new }
        ensures bytes { ReadConsumes (remaining self.old) (remaining self.new) result buffer.new }
        ensures counted { counts self.new ≡ counts_after (counts self.old) (length buffer.new) result };
}

/// Counts of a device's reads, by their results. Only proofs see them.
#[derive(Drop)]
pub struct ReadCounts {
    /// All reads.
    pub reads: GhostCount,
    /// Reads that gave a byte or more.
    pub nonempty_reads: GhostCount,
    /// Reads that ended the input.
    pub ends: GhostCount,
    /// Reads that failed.
    pub failures: GhostCount,
}

impl ReadCounts {
    /// The counts of a device before its first read.
    pub fn new() -> ReadCounts
        ensures { counts_of result ≡ no_counts }
    {
        ReadCounts {
            reads: GhostCount::zero(),
            nonempty_reads: GhostCount::zero(),
            ends: GhostCount::zero(),
            failures: GhostCount::zero(),
        }
    }

    /// Counts a read into the buffer with this result.
    pub fn count(&mut self, buffer: &[u8], answer: &Result<usize, InFault>)
        ensures { counts_of self.new ≡ counts_after (counts_of self.old) (length buffer.now) answer.now }
    {
        self.reads = self.reads.next();
        match answer {
            Ok(0) if !buffer.is_empty() => self.ends = self.ends.next(),
            Ok(0) => {}
            Ok(_) => self.nonempty_reads = self.nonempty_reads.next(),
            Err(_) => self.failures = self.failures.next(),
        }
    }
}
