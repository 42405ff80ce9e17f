//! What holds of all histories, as a call that does nothing.
ghost use Rattle.undo_rules.specs.Laws.{
  ACommitAppends,
  AnUndoKeepsTheBook,
  AnUndoTakesOut,
  ARedoKeepsTheBook,
  ARedoPutsBack,
};
ghost use Rattle.undo_rules.specs.Laws.{
  ACommitKeepsTheBook,
  AnOpenKeepsTheBook,
  ARefusalKeepsTheBook,
  AStaleCommitKeepsTheBook,
};
ghost use Rattle.undo_rules.specs.Laws.{TheLayoutIsTheReplay};

/// The layout is the replay of the live transactions. An undo leads to the layout of the same history
/// without the transaction, and a redo at once leads back. A commit appends what its commands do on the
/// layout as it is then.
pub fn histories_have_laws()
    ensures replay { TheLayoutIsTheReplay }
    ensures undo { AnUndoTakesOut }
    ensures redo { ARedoPutsBack }
    ensures commit { ACommitAppends }
{}

/// What a book keeps true stays so after each call: an open, an accepted undo, an accepted redo, a commit
/// of its own work, which is appended, or ends where it is stale, and a refusal that is logged.
pub fn calls_keep_the_book()
    ensures open_call { AnOpenKeepsTheBook }
    ensures undo { AnUndoKeepsTheBook }
    ensures redo { ARedoKeepsTheBook }
    ensures commit { ACommitKeepsTheBook }
    ensures stale { AStaleCommitKeepsTheBook }
    ensures refusal { ARefusalKeepsTheBook }
{}
