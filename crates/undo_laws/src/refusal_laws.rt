//! The laws, as calls that do nothing.
ghost use Rattle.undo_laws.specs.Refusing.{
  CommitsAreRefusedForCause,
  RedosAreRefusedForCause,
  UndosAreRefusedForCause,
};

/// Where no two transactions have one name and the log has room, an undo is answered Depends exactly where the
/// transaction is live and a later live one touched what it wrote; the first of them is named. It is never
/// answered Moved, Stale or Foreign.
pub fn undos_are_refused_for_cause()
    ensures { UndosAreRefusedForCause }
{}

/// Where no two transactions have one name and the log has room, a redo is answered Depends exactly where the
/// transaction is undone and a later live one touched what it wrote, and Moved where none did, and an earlier one
/// is linked now and wasn't seen, or the other way round; the first of them is named. It is never answered Stale
/// or Foreign.
pub fn redos_are_refused_for_cause()
    ensures { RedosAreRefusedForCause }
{}

/// Where no two transactions have one name and the log has room, a commit is answered Foreign exactly where the
/// work isn't the pending one of its session, or the layout at its open and its snapshot don't agree on what it
/// touched; and Stale where neither is so, and a call since its open committed, undid or redid a transaction that
/// wrote what the work touched; the first such call tells the name. It is never answered Depends or Moved.
pub fn commits_are_refused_for_cause()
    ensures { CommitsAreRefusedForCause }
{}
