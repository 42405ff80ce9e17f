//! How the program ends.
ghost use Rattle.std.specs.Prelude.{◌≡◌};
ghost use Rattle.masklay.specs.Output.{code_of};

/// How a run of the program ends.
#[derive(Clone, Copy, Debug, PartialEq, Eq)]
pub enum Status {
    /// All was written. Steps may have been refused.
    Done,
    /// The command line has a mistake, and nothing was read.
    CommandLine,
    /// The job has a fault.
    Job,
    /// The CIF text of the job has a fault.
    Cif,
    /// A device failed.
    Device,
    /// A growth of memory was refused.
    Memory,
    /// The desk of sessions in threads differed from what they keep.
    Desk,
    /// All was written, and a step was refused in a run that is strict.
    Refused,
}

impl Status {
    /// The number with which the process ends.
    pub fn code(self) -> u8
        ensures { result ≡ code_of self }
    {
        match self {
            Status::Done => 0,
            Status::CommandLine => 2,
            Status::Job => 3,
            Status::Cif => 4,
            Status::Device => 5,
            Status::Memory => 6,
            Status::Desk => 7,
            Status::Refused => 8,
        }
    }
}
