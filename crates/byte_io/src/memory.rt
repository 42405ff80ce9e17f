//! Devices in memory, for tests of what works over any device.
ghost use Rattle.std.specs.Prelude.{◌≡◌, [], None, Some};
ghost use Rattle.std.specs.Io.{ReadsAtMost};
ghost use Rattle.std.specs.Io.KnownBytes.{ReadConsumes};
ghost use Rattle.byte_io.specs.Input.{counts_of, no_counts};

use crate::count::GhostCount;
use crate::device::{Out, OutFault};
use crate::input::{In, InFault, ReadCounts};
use std::alloc::Global;

/// How an output device fails.
#[derive(Clone, Copy, Debug, PartialEq, Eq)]
pub enum Failing {
    /// It returns an `Err`.
    ByErr,
    /// It returns 0 for a piece that isn't empty.
    ByZero,
}

/// An output that keeps its bytes. It fails once it is full, or out of memory.
#[derive(Drop)]
pub struct MemoryOut {
    bytes: Vec<u8>,
    /// How many bytes it takes a call, at most.
    bite: usize,
    /// How many bytes it can still take.
    room: usize,
    failing: Failing,
    failures: GhostCount,
}

impl MemoryOut {
    /// An empty output that takes at most `bite` bytes a call and `room` bytes in all.
    pub fn new(alloc: Global, bite: usize, room: usize, failing: Failing) -> MemoryOut
        ensures bytes { result.bytes.items ≡ [] }
        ensures failures { result.failures.total ≡ 0 }
    {
        MemoryOut {
            bytes: Vec::new(alloc),
            bite,
            room,
            failing,
            failures: GhostCount::zero(),
        }
    }

    /// The bytes that were written.
    pub fn written(&self) -> &[u8]
        ensures { result.now ≡ self.now.bytes.items }
    {
        self.bytes.as_slice()
    }
}

impl Out for MemoryOut {
    ghost written = { λ d. Some d.bytes.items };

    ghost failures = { λ d. d.failures.total };

    fn put(&mut self, piece: &[u8]) -> Result<usize, OutFault> {
        if piece.is_empty() {
            return Ok(0);
        }
        let len = piece.len().min(self.room).min(self.bite);
        if len > 0 && self.bytes.extend_from_slice(&piece[..len]).is_ok() {
            self.room -= len;
            return Ok(len);
        }
        self.failures = self.failures.next();
        match self.failing {
            Failing::ByErr => Err(OutFault),
            Failing::ByZero => Ok(0),
        }
    }
}

/// An input that gives bytes of a slice. It fails after a number of reads.
#[derive(Drop)]
pub struct MemoryIn<'a> {
    rest: &'a [u8],
    /// How many bytes it gives a read, at most.
    bite: usize,
    /// How many reads it answers before it fails.
    reads: usize,
    counts: ReadCounts,
}

impl<'a> MemoryIn<'a> {
    /// The input of these bytes, which gives at most `bite` of them a read, and at least one while there
    /// are some. It fails from the read after `reads` others on.
    pub fn new(bytes: &'a [u8], bite: usize, reads: usize) -> MemoryIn<'a>
        ensures rest { result.rest.now ≡ bytes.now }
        ensures counts { counts_of result.counts ≡ no_counts }
    {
        MemoryIn {
            rest: bytes,
            bite,
            reads,
            counts: ReadCounts::new(),
        }
    }

    /// Fills a prefix of the buffer, or fails.
    fn fill(&mut self, buffer: &mut [u8]) -> Result<usize, InFault>
        ensures bound { ReadsAtMost result buffer.new }
        ensures bytes { ReadConsumes (Some self.old.rest.now) (Some self.new.rest.now) result buffer.new }
        ensures counts { self.new.counts ≡ self.old.counts }
    {
        if self.reads == 0 {
            return Err(InFault);
        }
        self.reads -= 1;
        let len = self.bite.max(1).min(buffer.len()).min(self.rest.len());
        let (piece, behind) = self.rest.split_at(len);
        buffer[..len].copy_from_slice(piece);
        self.rest = behind;
        Ok(len)
    }
}

impl<'a> In for MemoryIn<'a> {
    ghost remaining = { λ d. Some d.rest.now };

    ghost counts = { λ d. counts_of d.counts };

    fn take(&mut self, buffer: &mut [u8]) -> Result<usize, InFault> {
        let result = self.fill(buffer);
        self.counts.count(buffer, &result);
        result
    }
}
