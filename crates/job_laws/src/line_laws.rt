//! What holds of every text, and of every step and its line, as calls that do nothing.
ghost use Rattle.job_laws.specs.Cuts.{LinesAreCut, WordsAreCut};
ghost use Rattle.job_laws.specs.LineLaws.{LinesSayTheirSteps, LinesTellSteps};
ghost use Rattle.job_laws.specs.Questions.{AskingsAreRead, QuestionsAreAsked};
ghost use Rattle.job_laws.specs.Steps.{SayingsAreRead, StepsAreSaid};

/// The line of a step says that step, for each step whose numbers a line can have. So steps of the same
/// line are the same.
pub fn lines_tell_steps()
    ensures said { LinesSayTheirSteps }
    ensures told { LinesTellSteps }
{}

/// Bytes are cut into lines after each newline, and into words at spaces and tabs, and in no other way.
pub fn lines_and_words_are_cut()
    ensures lines { LinesAreCut }
    ensures words { WordsAreCut }
{}

/// The words of a line are read as a step exactly where they say it by the table of step lines.
pub fn steps_are_said()
    ensures said { StepsAreSaid }
    ensures read { SayingsAreRead }
{}

/// The words of a line of a live run are taken for a question exactly where they ask it by the table of
/// questions.
pub fn questions_are_asked()
    ensures asked { QuestionsAreAsked }
    ensures read { AskingsAreRead }
{}
