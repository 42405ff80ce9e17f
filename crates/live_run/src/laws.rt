//! Where the lines of a live run lead.
ghost use Rattle.live_run.specs.Laws.{JournalsResume, LinesAreSteps, PlainRunsSayOne};

/// The lines of a live run lead where their steps lead as a job, with the same replies.
pub fn lines_are_steps()
    ensures { LinesAreSteps }
{}

/// A run that begins from a journal begins where the earlier run stood, wherever the last line of the journal is cut.
pub fn journals_resume()
    ensures { JournalsResume }
{}

/// Where shapes stay as they are, lines have one text of answers, and a run has one at its end.
pub fn plain_runs_say_one()
    ensures { PlainRunsSayOne }
{}
