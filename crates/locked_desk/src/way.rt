//! Undo and redo as one call, with the way that it goes.
ghost use Rattle.std.specs.Prelude.{◌≡◌};
ghost use Rattle.desk_rules.specs.Legal.{Stepped, answer_of};
ghost use Rattle.lay_point.specs.Memory.{IsAnswer};
ghost use Rattle.locked_desk.specs.Ways.{answer_for, call_for, given_for};

use std::alloc::Global;
use txn_commands::TxnId;
use undo_book::Book;
use undo_rules::{Answer, BookFault, Call, SessionId};

/// Whether a transaction is undone or redone.
#[derive(Clone, Copy, Debug)]
pub enum Way {
    /// It is undone.
    Back,
    /// It is redone.
    Forth,
}

impl Way {
    /// Returns the call that takes the transaction this way.
    pub fn call(self, txn: TxnId) -> Call
        ensures { result ≡ call_for self txn }
    {
        match self {
            Way::Back => Call::Undo(txn),
            Way::Forth => Call::Redo(txn),
        }
    }

    /// Returns the answer to such a call that is accepted.
    pub fn answer(self) -> Answer
        ensures { result ≡ answer_for self }
    {
        match self {
            Way::Back => Answer::Undone,
            Way::Forth => Answer::Redone,
        }
    }

    /// Undoes or redoes the transaction.
    pub(crate) fn take(
        self,
        book: &mut Book,
        alloc: Global,
        session: SessionId,
        txn: TxnId,
    ) -> Result<(), BookFault>
        ensures step { Stepped book.old session (call_for self txn) (answer_of (answer_for self) result) book.new }
        ensures answer { IsAnswer BookFault.NoMemory result (given_for self session txn book.old) }
    {
        match self {
            Way::Back => book.undo(alloc, session.number(), txn),
            Way::Forth => book.redo(alloc, session.number(), txn),
        }
    }
}
