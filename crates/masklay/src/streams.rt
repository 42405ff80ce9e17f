//! The standard streams as devices.
ghost use Rattle.std.specs.Prelude.{◌≡◌};
ghost use Rattle.byte_io.specs.Input.{counts_of, no_counts};

use byte_io::{GhostCount, In, InFault, Out, OutFault, ReadCounts};
use std::fs::File;
use std::io;
use std::io::{Read, Stdin, Write};

/// What is read: standard input, or a file.
#[derive(Drop)]
pub enum Source {
    /// Standard input.
    Standard(Stdin),
    /// A file.
    File(File),
}

impl Read for Source {
    fn read(&mut self, buffer: &mut [u8]) -> io::Result<usize> {
        match self {
            Source::Standard(stream) => stream.read(buffer),
            Source::File(file) => file.read(buffer),
        }
    }
}

/// A stream that is read, as standard input.
#[derive(Drop)]
pub struct StandardInput<R> {
    stream: R,
    counts: ReadCounts,
}

impl<R: Read + Drop> StandardInput<R> {
    /// The device of this stream, before its first read.
    pub fn new(stream: R) -> StandardInput<R>
        ensures stream { result.stream ≡ stream }
        ensures counts { counts_of result.counts ≡ no_counts }
    {
        StandardInput {
            stream,
            counts: ReadCounts::new(),
        }
    }
}

impl<R: Read + Drop> In for StandardInput<R> {
    ghost remaining = { λ d. R.remaining d.stream };

    ghost counts = { λ d. counts_of d.counts };

    fn take(&mut self, buffer: &mut [u8]) -> Result<usize, InFault> {
        let answer = self.stream.read(buffer).map_err(|_| InFault);
        self.counts.count(buffer, &answer);
        answer
    }
}

/// A stream that is written, as standard output and standard error.
#[derive(Drop)]
pub struct StandardOutput<W> {
    stream: W,
    failures: GhostCount,
    /// How many bytes were written.
    len: u64,
}

impl<W: Write + Drop> StandardOutput<W> {
    /// The device of this stream, which hasn't failed yet.
    pub fn new(stream: W) -> StandardOutput<W>
        ensures stream { result.stream ≡ stream }
        ensures failures { result.failures.total ≡ 0 }
    {
        StandardOutput {
            stream,
            failures: GhostCount::zero(),
            len: 0,
        }
    }
}

impl<W> StandardOutput<W> {
    /// Returns how many bytes were written.
    pub fn len(&self) -> u64 {
        self.len
    }

    /// Returns the stream.
    pub fn into_stream(self) -> W
        ensures { result ≡ self.stream }
    {
        let StandardOutput { stream, .. } = self;
        stream
    }
}

impl<W: Write + Drop> Out for StandardOutput<W> {
    ghost written = { λ d. W.contents d.stream };

    ghost failures = { λ d. d.failures.total };

    fn put(&mut self, piece: &[u8]) -> Result<usize, OutFault> {
        if piece.is_empty() {
            return Ok(0);
        }
        let Ok(taken) = self.stream.write(piece) else {
            self.failures = self.failures.next();
            return Err(OutFault);
        };
        if taken == 0 {
            self.failures = self.failures.next();
        }
        self.len = self.len.saturating_add(taken as u64);
        Ok(taken)
    }
}
