//! The journal of a live run as a file.
ghost use Rattle.std.specs.Prelude.{◌≡◌, None};

use crate::streams::StandardOutput;
use byte_io::{GhostCount, put_all};
use job_advice::of_live_line;
use live_run::{Journal, KeepFault};
use std::alloc::Global;
use std::fs::File;
use std::io;
use std::io::{Stderr, Write};

/// Where a live run keeps its steps: a file, or nowhere. Lines that say nothing are told on standard error.
#[derive(Drop)]
pub struct FileJournal {
    alloc: Global,
    file: Option<File>,
    /// How long the file is to be before the first line is added, where that isn't its end.
    cut: Option<u64>,
    /// Whether each line is brought to the disk.
    is_synced: bool,
    errors: StandardOutput<Stderr>,
    losses: GhostCount,
}

impl FileJournal {
    /// The journal in this file, which is cut to that length before a line is added.
    pub fn new(
        alloc: Global,
        file: Option<File>,
        cut: Option<u64>,
        is_synced: bool,
        errors: StandardOutput<Stderr>,
    ) -> FileJournal {
        FileJournal {
            alloc,
            file,
            cut,
            is_synced,
            errors,
            losses: GhostCount::zero(),
        }
    }

    /// Adds the line to the file, where there is one.
    fn add(&mut self, line: &[u8], is_flushed: bool) -> io::Result<()>
        ensures { self.new.losses ≡ self.old.losses }
    {
        let Some(file) = &mut self.file else {
            return Ok(());
        };
        if let Some(len) = self.cut.take() {
            file.set_len(len)?;
        }
        file.write_all(line)?;
        if !line.is_empty() && !line.ends_with(b"\n") {
            file.write_all(b"\n")?;
        }
        if is_flushed || self.is_synced {
            file.sync_data()?;
        }
        Ok(())
    }
}

impl Journal for FileJournal {
    ghost kept = { λ _. None };

    ghost losses = { λ j. j.losses.total };

    fn keep(&mut self, line: &[u8], is_flushed: bool) -> Result<(), KeepFault> {
        if self.add(line, is_flushed).is_err() {
            self.losses = self.losses.next();
            return Err(KeepFault);
        }
        Ok(())
    }

    fn tell(&mut self, line: &[u8], number: u64) {
        if let Ok(words) = of_live_line(self.alloc, line, number) {
            let _ = put_all(&mut self.errors, &words);
        }
    }
}
