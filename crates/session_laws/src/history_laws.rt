//! What holds after all steps of all sessions, as calls that do nothing.
ghost use Rattle.session_laws.specs.Histories.{
  MachinesKeepOperations,
  ProgramsKeepOperations,
  StepsLeadToHistories,
  TextsMeanBases,
};
ghost use Rattle.session_laws.specs.Logs.{
  LogsKeepOperations,
  LogsLeadToHistories,
  LogsTakeOut,
  RedosInLogsPutBack,
  ThreadsAreRefusedForCause,
  ThreadsLeadToBooks,
};
ghost use Rattle.session_laws.specs.Undoing.{MachinesTakeOut, ProgramsTakeOut, RedosAtOncePutBack};

/// Whatever steps sessions take from a sound layout, also where memory is refused to some, they lead
/// to a history from that layout. What an operation on layers draws stays in it. The program's
/// replies and layout are those of its steps where no memory is refused; they begin on the layout of a
/// text, which is sound and has no item with an id of a session.
pub fn steps_lead_to_histories()
    ensures histories { StepsLeadToHistories }
    ensures machine { MachinesKeepOperations }
    ensures program { ProgramsKeepOperations }
    ensures texts { TextsMeanBases }
{}

/// Undo is exact for every interleaving: wherever the steps of sessions have come, an undo of a live
/// transaction whose writes no later live one touched succeeds and gives the layout of the same history
/// without it; and a redo at once, by any session, gives the former layout back: whatever opens, commands,
/// looks, cancels and refused calls come between. Two answers can stand in place of each: out of memory,
/// and that the log is full.
pub fn undos_take_out()
    ensures machine { MachinesTakeOut }
    ensures program { ProgramsTakeOut }
    ensures at_once { RedosAtOncePutBack }
{}

/// So it is of sessions that share a log of their calls, as those do that run in threads: a legal log leads
/// from a sound layout to a history from it, in which what operations draw stays. An undo that is logged of a
/// live transaction whose writes no later live one touched takes it out, and a redo at once that is logged puts
/// it back. Of what isn't logged, that the log is full is replied only where it is, and Foreign only to a commit.
pub fn logs_lead_to_histories()
    ensures threads { ThreadsLeadToBooks }
    ensures refused { ThreadsAreRefusedForCause }
    ensures histories { LogsLeadToHistories }
    ensures operations { LogsKeepOperations }
    ensures undo { LogsTakeOut }
    ensures at_once { RedosInLogsPutBack }
{}
