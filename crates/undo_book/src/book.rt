//! The book: one history.
ghost use Rattle.std.specs.Prelude.{◌≡◌, ◌≤◌, OnErr, OnOk, Ok, Some};
ghost use Rattle.lay_point.specs.Memory.{IsAnswer};
ghost use Rattle.lay_layouts.specs.Sound.{IsSound};
ghost use Rattle.undo_rules.specs.Steps.{fresh, is_log_full, logged};
ghost use Rattle.undo_book.specs.Replays.{replay};

use crate::changes::Changes;
use crate::entry::Entry;
use crate::session::{SessionState, unused_sessions};
use lay_items::Snapshot;
use lay_point::NoMemory;
use std::alloc::Global;
use std::collections::BTreeMap;
use std::marker::Model;
use txn_commands::TxnId;
use undo_index::Index;
use undo_rules::{Answer, BookFault, Call, Logged, SessionId};

/// The most calls that a book logs.
pub const MAX_CALLS: u32 = 1_048_576;

const _: () = prove!(MAX_CALLS == 1_048_576);

/// The places of transactions by their names.
pub(crate) type ByName = BTreeMap<TxnId, usize>;

/// A history of a layout. Contracts see the record of its base, its layout, its log, how long that may be,
/// its committed transactions and what it keeps of the sessions. It keeps in its type that the layout is that
/// of running the commands of the live transactions, in the order of their commits, from the base.
#[derive(Drop)]
pub struct Book {
    pub(crate) base: Snapshot,
    pub(crate) layout: Snapshot,
    pub(crate) log: Vec<Logged>,
    pub(crate) limit: u32,
    pub(crate) entries: Vec<Entry>,
    pub(crate) sessions: Vec<SessionState>,
    /// The places of the transactions by their names.
    pub(crate) places: ByName,
    pub(crate) changes: Changes,
    /// Who wrote and who read what, by their places.
    pub(crate) index: Index,
}

impl Model for Book {
    ghost use Rattle.undo_rules.specs.Books.{History};
    ghost use Rattle.undo_book.specs.Books.{IsBook, history_of};
    ghost use Rattle.undo_book.specs.Coded.{coded_history};

    ghost Value = { History };

    ghost coded = { coded_history };

    ghost view = { history_of };

    ghost invariant = { IsBook };
}

impl Book {
    /// Returns the history of this base without calls, of which it logs `MAX_CALLS` at most.
    ///
    /// # Errors
    ///
    /// `NoMemory`, if an allocation fails.
    pub fn new(alloc: Global, base: Snapshot) -> Result<Book, NoMemory>
        ensures { IsAnswer (record {}) result (Ok (fresh base MAX_CALLS)) }
    {
        Book::with_log(alloc, base, MAX_CALLS)
    }

    /// Returns the history of this base without calls, of which it logs as many as `limit` at most.
    ///
    /// # Errors
    ///
    /// `NoMemory`, if an allocation fails.
    pub fn with_log(alloc: Global, base: Snapshot, limit: u32) -> Result<Book, NoMemory>
        requires low { 1 ≤ limit }
        requires high { limit ≤ MAX_CALLS }
        ensures { IsAnswer (record {}) result (Ok (fresh base limit)) }
    {
        let layout = base.share(alloc)?;
        Ok(Book {
            base,
            layout,
            log: Vec::new(alloc),
            limit,
            entries: Vec::new(alloc),
            sessions: unused_sessions(alloc)?,
            places: BTreeMap::new(alloc),
            changes: Changes::new(alloc),
            index: Index::new(alloc),
        })
    }

    /// Lends the layout on which the history began.
    pub fn base(&self) -> &Snapshot
        ensures { result.now ≡ self.now.base }
    {
        &self.base
    }

    /// Lends the layout as it is: that of running the commands of the live transactions from the base.
    pub fn snapshot(&self) -> &Snapshot
        ensures value { result.now ≡ self.now.layout }
        ensures replay { replay self.now ≡ Some result.now }
    {
        &self.layout
    }

    /// Does nothing. For proofs: the layout is sound.
    pub fn known(&self)
        ensures { IsSound self.now.layout }
    {
        // for the proof: a snapshot is sound
        self.layout.version();
    }

    /// Lends the logged calls with their answers, in order.
    pub fn log(&self) -> &[Logged]
        ensures { result.now ≡ self.now.log }
    {
        self.log.as_slice()
    }

    /// Lends the committed transactions with their marks, in the order of their commits.
    pub fn entries(&self) -> &[Entry]
        ensures { result.now ≡ self.now.entries }
    {
        self.entries.as_slice()
    }

    /// Ends the history. Returns its layout and its log; all else is dropped.
    ///
    /// # Cost
    ///
    /// All that is dropped is gone over.
    pub fn end(self) -> (Snapshot, Vec<Logged>)
        ensures layout { result.0 ≡ self.layout }
        ensures log { result.1.items ≡ self.log }
    {
        let Book { layout, log, .. } = self;
        (layout, log)
    }

    /// Returns whether the log has as many calls as it may have.
    pub(crate) fn is_full(&self) -> bool
        ensures { result ≡ is_log_full self.now }
    {
        self.log.len() >= self.limit as usize
    }

    /// Logs a refused call, and changes nothing else.
    pub(crate) fn log_refusal(
        &mut self,
        session: SessionId,
        call: Call,
        fault: BookFault,
    ) -> Result<(), NoMemory>
        ensures ok { OnOk result (self.new ≡ logged self.old session call (Answer.Refused fault)) }
        ensures err { OnErr result (self.new ≡ self.old) }
    {
        self.changes.reserve_call()?;
        self.log.push(Logged {
            session: session.number(),
            call,
            answer: Answer::Refused(fault),
        })?;
        self.changes.add_unchanged();
        Ok(())
    }
}
