//! What holds of all commands, of their runs and of the records between layouts, as calls that do nothing.
ghost use Rattle.txn_commands.specs.Laws.{
  ChangesMerge,
  Frame,
  LeadersApply,
  PlansAreCovered,
  PlansAreLocal,
};
ghost use Rattle.txn_commands.specs.Laws.{
  ReachedAreWalks,
  RecordsAreOne,
  RecordsComeOut,
  RecordsGoPast,
  RecordsKeepAgreement,
};
ghost use Rattle.txn_commands.specs.Laws.{
  RecordsLead,
  RunsKeepSound,
  RunsLeaveAlone,
  RunsMakeTheirOwn,
};
ghost use Rattle.txn_commands.specs.Laws.{SlotChangesMerge, UnmetIsKept};

/// A command does the same on all sound layouts in which what it touches is the same, and touches what it
/// writes. A call may be made where no walk leads back.
pub fn commands_have_laws()
    ensures local { PlansAreLocal }
    ensures covered { PlansAreCovered }
    ensures reached { ReachedAreWalks }
{}

/// Commands that are all accepted leave alone what they don't touch, keep a layout sound, make items of
/// their own, and go alike on all sound layouts in which what they touch is the same.
pub fn runs_have_laws()
    ensures alone { RunsLeaveAlone }
    ensures sound { RunsKeepSound }
    ensures own { RunsMakeTheirOwn }
    ensures frame { Frame }
{}

/// The records between layouts lead from the one to the other and back, keep agreement, and between sound
/// layouts go past commands that touch nothing of them.
pub fn records_have_laws()
    ensures lead { RecordsLead }
    ensures apply { LeadersApply }
    ensures one { RecordsAreOne }
    ensures unmet { UnmetIsKept }
    ensures agreement { RecordsKeepAgreement }
    ensures past { RecordsGoPast }
    ensures out { RecordsComeOut }
    ensures merge { ChangesMerge }
    ensures slots_merge { SlotChangesMerge }
{}
