//! The log of a history: calls and their answers.
ghost use Rattle.std.specs.Prelude.{◌≡◌};
ghost use Rattle.undo_rules.specs.declared.log.BookFault.TheVariants.{NoMemory as no_memory};
ghost use Rattle.undo_rules.specs.Refusals.{book_code};

use lay_point::{NoMemory, Sequence};
use thiserror::Error;
use txn_commands::{Command, TxnId};

/// Why a call of a book is refused.
#[derive(Clone, Copy, Debug, PartialEq, Eq, Error)]
pub enum BookFault {
    /// No transaction of this name was committed.
    #[error("no such transaction was committed")]
    NoTxn,
    /// The transaction is undone already.
    #[error("the transaction is undone already")]
    NotLive,
    /// The transaction is live already.
    #[error("the transaction is live already")]
    StillLive,
    /// This later live transaction touched what the transaction wrote.
    #[error("transaction {0} was committed later and touched what this one wrote")]
    Depends(TxnId),
    /// This transaction is linked now and wasn't at the commit, or the other way round.
    #[error("the ground has moved: transaction {0}")]
    Moved(TxnId),
    /// This transaction wrote what the work touched, and was committed, undone or redone since the open.
    #[error("transaction {0} changed what this work touched")]
    Stale(TxnId),
    /// The log has as many calls as it may have.
    #[error("the log is full")]
    LogFull,
    /// An allocation failed.
    #[error("out of memory")]
    NoMemory,
    /// The work isn't this book's, or not the session's last one.
    #[error("the work is not the one that the book awaits from its session")]
    Foreign,
    /// The session has as many transactions as it may have.
    #[error("the session has no transaction number left")]
    SessionFull,
}

impl BookFault {
    /// Returns the number and the name by which a reply reports the refusal.
    pub fn code(self) -> (u8, &'static str)
        ensures { (result.0, result.1.now) ≡ book_code self }
    {
        match self {
            BookFault::NoTxn => (20, "NoTxn"),
            BookFault::NotLive => (21, "NotLive"),
            BookFault::StillLive => (22, "StillLive"),
            BookFault::Depends(_) => (23, "Depends"),
            BookFault::Moved(_) => (24, "Moved"),
            BookFault::Stale(_) => (25, "Stale"),
            BookFault::LogFull => (26, "LogFull"),
            BookFault::NoMemory => (27, "NoMemory"),
            BookFault::Foreign => (28, "Foreign"),
            BookFault::SessionFull => (33, "SessionFull"),
        }
    }
}

impl From<NoMemory> for BookFault {
    ghost from_gives = { λ _ fault. fault ≡ no_memory };

    fn from(_failed: NoMemory) -> BookFault {
        BookFault::NoMemory
    }
}

/// A call of a book.
#[derive(Debug, Drop, PartialEq, Eq)]
pub enum Call {
    /// A transaction is opened.
    Open,
    /// This transaction of these commands is committed.
    Commit {
        /// Its name.
        txn: TxnId,
        /// Its accepted commands, in order.
        commands: Sequence<Command>,
    },
    /// This transaction is undone.
    Undo(TxnId),
    /// This transaction is redone.
    Redo(TxnId),
}

/// What a logged call was answered.
#[derive(Clone, Copy, Debug, PartialEq, Eq)]
pub enum Answer {
    /// The transaction of this number is open.
    Opened(u16),
    /// The transaction is committed and live.
    Committed,
    /// The transaction is no longer live.
    Undone,
    /// The transaction is live again.
    Redone,
    /// The call was refused.
    Refused(BookFault),
}

/// A call of a session, with its answer.
#[derive(Debug, Drop, PartialEq, Eq)]
pub struct Logged {
    /// The number of the session.
    pub session: u8,
    /// What it called.
    pub call: Call,
    /// What it was answered.
    pub answer: Answer,
}
