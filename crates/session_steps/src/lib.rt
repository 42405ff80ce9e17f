//! What sessions do, and what they are answered.
//!
//! A [`Step`] of a session opens its transaction, runs a command in it, ends it, or undoes or redoes a
//! committed transaction of any session. It is answered by a [`Reply`]; a refusal says who refused it: the
//! command, the book, or the session itself.
//!
//! ```text
//! let step = Step::Undo(TxnId { session: 1, txn: 1 });
//! assert_eq!(StepFault::NotOpen.code(), (32, "NotOpen"));
//! ```
#![tactic(auto)]

ghost use Rattle.std.specs.Prelude.{◌≡◌};
ghost use Rattle.session_steps.specs.Refusals.{step_code};

mod turns;

use thiserror::Error;
pub use turns::{dealt, in_turn};
use txn_commands::{CmdFault, Command, Done, TxnId};
use undo_rules::BookFault;

/// What a session does.
#[derive(Debug, Drop, PartialEq, Eq)]
pub enum Step {
    /// Opens a transaction.
    Open,
    /// Runs a command in the open transaction.
    Do(Command),
    /// Commits the open transaction.
    Commit,
    /// Gives the open transaction up. Its number stays used.
    Cancel,
    /// Undoes this committed transaction, of any session.
    Undo(TxnId),
    /// Redoes this undone transaction, of any session.
    Redo(TxnId),
}

/// Why a step is refused.
#[derive(Clone, Copy, Debug, PartialEq, Eq, Error)]
pub enum StepFault {
    /// The command was refused.
    #[error("{0}")]
    Command(CmdFault),
    /// The call of the book was refused.
    #[error("{0}")]
    Book(BookFault),
    /// There is no such session.
    #[error("there is no such session")]
    NoSession,
    /// The session has a transaction open.
    #[error("the session has a transaction open")]
    AlreadyOpen,
    /// The session has no transaction open.
    #[error("the session has no transaction open")]
    NotOpen,
}

impl StepFault {
    /// Returns the number and the name by which a reply reports the refusal.
    pub fn code(self) -> (u8, &'static str)
        ensures { (result.0, result.1.now) ≡ step_code self }
    {
        match self {
            StepFault::Command(fault) => fault.code(),
            StepFault::Book(fault) => fault.code(),
            StepFault::NoSession => (30, "NoSession"),
            StepFault::AlreadyOpen => (31, "AlreadyOpen"),
            StepFault::NotOpen => (32, "NotOpen"),
        }
    }
}

/// What a step is answered.
#[derive(Debug, Drop, PartialEq, Eq)]
pub enum Reply {
    /// The transaction of this number is open.
    Opened(u16),
    /// The command was done.
    Done(Done),
    /// This transaction is committed.
    Committed(TxnId),
    /// The transaction was given up.
    Cancelled,
    /// The transaction is undone.
    Undone,
    /// The transaction is redone.
    Redone,
    /// The step was refused.
    Fault(StepFault),
}
