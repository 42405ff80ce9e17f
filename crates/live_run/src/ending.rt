//! How a live run ends.
ghost use Rattle.std.specs.Prelude.{◌≡◌};
ghost use Rattle.live_run.specs.declared.ending.LiveEnd.TheVariants.{
  Device as DeviceEnd,
  Journal as JournalEnd,
  Memory as MemoryEnd,
};
ghost use Rattle.live_run.specs.Course.{end_of_write};

use crate::journal::KeepFault;
use byte_io::InFault;
use cif_read::CifFault;
use cif_write::WriteFault;
use lay_cells::CellId;
use lay_layouts::ItemId;
use lay_point::NoMemory;

/// What there is to tell of the layout at the end of a run, for a person.
#[derive(Debug, Drop)]
pub struct EndNotes {
    /// How many shapes stay as they were, though all were to be directed.
    pub staying: usize,
    /// The first three of these, or as many as there are, each with its cell.
    pub first: Vec<(CellId, ItemId)>,
    /// How many names and labels of the text are left out, where they are shown.
    pub left_out: usize,
}

/// How a live run ended.
#[derive(Debug, Drop)]
pub enum LiveEnd {
    /// The input came to its end, and each line is answered; whether a step was refused.
    Done {
        /// Whether a step was refused, of the journal's too.
        has_refused: bool,
        /// What there is to tell of the layout at the end.
        notes: EndNotes,
    },
    /// The job in front of the line `%live` has a fault, or a script, or there is no such line. Nothing is written.
    Job {
        /// The first line with a fault, counted from 1; 0 where the job is too long.
        line: u32,
        /// The lines before `%live`.
        text: Vec<u8>,
    },
    /// The job's CIF text has a fault. Nothing is written.
    Cif {
        /// The first fault.
        fault: CifFault,
        /// The lines before `%live`.
        text: Vec<u8>,
    },
    /// A device failed, or the input gave bytes in each of 33,554,432 reads.
    Device,
    /// The journal failed. The line that it was to keep isn't answered.
    Journal,
    /// A growth of memory was refused. What is written answers some first lines.
    Memory,
}

impl From<NoMemory> for LiveEnd {
    ghost from_gives = { λ _ end. end ≡ MemoryEnd };

    fn from(_refused: NoMemory) -> LiveEnd {
        LiveEnd::Memory
    }
}

impl From<WriteFault> for LiveEnd {
    ghost from_gives = { λ fault end. end ≡ end_of_write fault };

    fn from(fault: WriteFault) -> LiveEnd {
        match fault {
            WriteFault::Device => LiveEnd::Device,
            WriteFault::NoMemory => LiveEnd::Memory,
        }
    }
}

impl From<KeepFault> for LiveEnd {
    ghost from_gives = { λ _ end. end ≡ JournalEnd };

    fn from(_failed: KeepFault) -> LiveEnd {
        LiveEnd::Journal
    }
}

impl From<InFault> for LiveEnd {
    ghost from_gives = { λ _ end. end ≡ DeviceEnd };

    fn from(_failed: InFault) -> LiveEnd {
        LiveEnd::Device
    }
}
