//! What holds of every text and of every job, as a call that does nothing.
ghost use Rattle.job_laws.specs.Faults.{FaultsAreAtTheirLines, WrongOrdersAreNamed};
ghost use Rattle.job_laws.specs.Laws.{JobsAreRead, OnlyJobsAreRead};

/// A text that is a job by its lines is read as this job, unless it is too long; and nothing else is read as
/// a job.
pub fn jobs_are_their_lines()
    ensures accepted { JobsAreRead }
    ensures no_other { OnlyJobsAreRead }
{}

/// Where the bytes aren't a job, the first line is named that can't come where it is, after lines that can; the
/// line `%order` before all after it, where what is named there isn't each session once for each of its steps.
pub fn faults_are_at_their_lines()
    ensures at { FaultsAreAtTheirLines }
    ensures order { WrongOrdersAreNamed }
{}
