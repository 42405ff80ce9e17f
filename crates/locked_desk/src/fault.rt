//! Refusals of a desk.
ghost use Rattle.std.specs.Prelude.{◌≡◌};
ghost use Rattle.undo_rules.specs.declared.log.BookFault.TheVariants.{NoMemory as no_memory};
ghost use Rattle.locked_desk.specs.declared.fault.DeskFault.TheVariants.{Book as by_book};

use lay_point::NoMemory;
use std::alloc::{AllocError, AllocFailed};
use thiserror::Error;
use txn_work::Work;
use undo_rules::BookFault;

/// Why a call of a desk is refused.
#[derive(Clone, Copy, Debug, PartialEq, Eq, Error)]
pub enum DeskFault {
    /// The book refused it.
    #[error("{0}")]
    Book(BookFault),
    /// The log doesn't have the seat's calls. Named are the seat's session and the place of a call, or
    /// session 0 and place 0 where what is behind the lock isn't what the desk was made with.
    #[error("the log differs from what the seat of session {session} keeps")]
    Differs {
        /// The session.
        session: u8,
        /// The place in the log, from 0.
        place: usize,
    },
}

/// A refused commit.
#[derive(Drop)]
pub struct DeskRefusal {
    /// Why it is refused.
    pub fault: DeskFault,
    /// The work, to be used again. A stale one has ended, and isn't handed back.
    pub work: Option<Work>,
}

/// Why a run of sessions gives no answer.
#[derive(Clone, Copy, Debug, PartialEq, Eq, Error)]
pub enum RunFault {
    /// The log doesn't have what a seat keeps.
    #[error("the log differs from what the seat of session {session} keeps")]
    Differs {
        /// The session, or 0.
        session: u8,
        /// The place in the log, from 0.
        place: usize,
    },
    /// A session has no seat.
    #[error("session {session} has no seat")]
    MissingSeat {
        /// The least such session.
        session: u8,
    },
    /// An allocation failed.
    #[error("out of memory")]
    NoMemory,
}

impl From<NoMemory> for DeskFault {
    ghost from_gives = { λ _ fault. fault ≡ by_book no_memory };

    fn from(_failed: NoMemory) -> DeskFault {
        DeskFault::Book(BookFault::NoMemory)
    }
}

impl From<NoMemory> for RunFault {
    fn from(_failed: NoMemory) -> RunFault {
        RunFault::NoMemory
    }
}

impl<T: Drop> From<AllocFailed<T>> for RunFault {
    fn from(_failed: AllocFailed<T>) -> RunFault {
        RunFault::NoMemory
    }
}

impl From<AllocError> for RunFault {
    fn from(_failed: AllocError) -> RunFault {
        RunFault::NoMemory
    }
}
