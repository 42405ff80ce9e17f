//! What holds of legal logs, as a call that does nothing.
ghost use Rattle.desk_rules.specs.Laws.{
  ACommitIsMeant,
  ACountCloses,
  SameCountMeansAll,
  LogsAreKept,
  LogsLeadToOne,
};

/// A legal log leads to one history, which has that log. A session's kept calls are all its calls in the log
/// where they are as many; so a count of all seats' calls tells that nothing else is in it. And a commit of a
/// work is that of the transaction which its log means.
pub fn logs_have_laws()
    ensures kept { LogsAreKept }
    ensures one { LogsLeadToOne }
    ensures all { SameCountMeansAll }
    ensures closes { ACountCloses }
    ensures commit { ACommitIsMeant }
{}
