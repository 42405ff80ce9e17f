//! Undo.
ghost use Rattle.std.specs.Prelude.{◌≡◌, ◌≤◌, OnOk, Err, Some, false, true};
ghost use Rattle.undo_rules.specs.Steps.{is_log_full, undo_step, with_mark};
ghost use Rattle.undo_book.specs.Calls.{Takes};
ghost use Rattle.undo_book.specs.Replays.{CanBeRedone, replay};

use crate::book::Book;
use std::alloc::Global;
use txn_commands::TxnId;
use undo_rules::{BookFault, Call, SessionId};

impl Book {
    /// Undoes a committed transaction, of any session.
    ///
    /// # Errors
    ///
    /// `LogFull`, `NoTxn`, `NotLive`, and `Depends` with the first later live transaction that touched what this one
    /// wrote, tested in this order. `NoMemory` in place of all but `LogFull`. All but these two are logged; else nothing
    /// is changed.
    ///
    /// # Cost
    ///
    /// Look-ups of the records in the index, and that of `Version::with`.
    pub fn undo(&mut self, alloc: Global, session: u8, txn: TxnId) -> Result<(), BookFault>
        requires low { 1 ≤ session }
        requires high { session ≤ 64 }
        ensures step { Takes self.old (undo_step self.old session txn) result self.new }
        ensures full { is_log_full self.old ≡ true → result ≡ Err BookFault.LogFull }
        // The layout is that of the same history without the transaction.
        ensures without { OnOk result (replay (with_mark self.old false txn) ≡ Some self.new.layout) }
        // Nothing but a full log and memory is against a redo at once, and it leads back to the former layout.
        ensures again { OnOk result (CanBeRedone self.new session txn self.old.layout) }
    {
        let session = SessionId::new(session).unwrap();
        if self.is_full() {
            return Err(BookFault::LogFull);
        }
        match self.undo_place(alloc, txn) {
            Ok((place, met)) => Ok(self.set_live(alloc, session, txn, place, &met, false)?),
            Err(BookFault::NoMemory) => Err(BookFault::NoMemory),
            Err(fault) => {
                self.log_refusal(session, Call::Undo(txn), fault)?;
                Err(fault)
            }
        }
    }
}
