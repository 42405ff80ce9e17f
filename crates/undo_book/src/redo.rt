//! Redo.
ghost use Rattle.std.specs.Prelude.{◌≡◌, ◌≤◌, OnOk, Err, Some, true};
ghost use Rattle.undo_rules.specs.Steps.{is_log_full, redo_step, with_mark};
ghost use Rattle.undo_book.specs.Calls.{Takes};
ghost use Rattle.undo_book.specs.Replays.{replay};

use crate::book::Book;
use std::alloc::Global;
use txn_commands::TxnId;
use undo_rules::{BookFault, Call, SessionId};

impl Book {
    /// Redoes an undone transaction, of any session, at its place.
    ///
    /// # Errors
    ///
    /// `LogFull`, `NoTxn`, `StillLive`, `Depends` with the first later live transaction that touched what this one wrote,
    /// and `Moved` with the first earlier one that is linked to it now and wasn't at its commit, or the other way round,
    /// tested in this order. `NoMemory` in place of all but `LogFull`. All but these two are logged; else nothing is
    /// changed.
    ///
    /// # Cost
    ///
    /// Look-ups of the records and of the footprint in the index, a look-up for each transaction that it
    /// has seen, and that of `Version::with`.
    pub fn redo(&mut self, alloc: Global, session: u8, txn: TxnId) -> Result<(), BookFault>
        requires low { 1 ≤ session }
        requires high { session ≤ 64 }
        ensures step { Takes self.old (redo_step self.old session txn) result self.new }
        ensures full { is_log_full self.old ≡ true → result ≡ Err BookFault.LogFull }
        // The layout is that of the same history with the transaction at its place.
        ensures again { OnOk result (replay (with_mark self.old true txn) ≡ Some self.new.layout) }
    {
        let session = SessionId::new(session).unwrap();
        if self.is_full() {
            return Err(BookFault::LogFull);
        }
        match self.redo_place(alloc, txn) {
            Ok((place, met)) => Ok(self.set_live(alloc, session, txn, place, &met, true)?),
            Err(BookFault::NoMemory) => Err(BookFault::NoMemory),
            Err(fault) => {
                self.log_refusal(session, Call::Redo(txn), fault)?;
                Err(fault)
            }
        }
    }
}
