//! How the program is to run.
ghost use Rattle.std.specs.Prelude.{◌≡◌};
ghost use Rattle.masklay.specs.Asked.{asked_of};
ghost use Rattle.masklay.specs.Launch.{nothing_asked};

/// How the program is to run.
#[derive(Clone, Copy, Debug, PartialEq, Eq)]
pub struct Options {
    /// How many threads label the edges of a Boolean, from 1 to `MAX_WORKERS`; others are taken as the nearest of
    /// these. The output doesn't depend on it.
    pub workers: u8,
    /// Whether the steps of each session run in a thread of its own, in place of the job's order.
    pub threaded: bool,
    /// Whether each shape of the layout is written by a path that readers by winding number and readers by
    /// parity see alike, as far as one is found.
    pub oriented: bool,
    /// Whether each symbol is written with the names and labels that it had in the text that was read.
    pub named: bool,
    /// Whether the run ends with a status of its own where a step was refused.
    pub strict: bool,
    /// Whether the input is a CIF text, and no job.
    pub bare: bool,
    /// Whether upright rectangles are written as boxes.
    pub boxed: bool,
}

impl Options {
    /// Returns what is run where nothing is asked for: a job, with one worker.
    pub fn plain() -> Options
        ensures { asked_of result ≡ nothing_asked }
    {
        Options {
            workers: 1,
            threaded: false,
            oriented: false,
            named: false,
            strict: false,
            bare: false,
            boxed: false,
        }
    }
}
