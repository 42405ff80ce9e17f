//! The history of a layout: transactions that commit, and are undone and redone by their names.
//!
//! A session opens a transaction and gets a `Work` of `txn_work` on a snapshot of the layout. A
//! commit hands the work to the [`Book`], unless a transaction that a call since the open
//! committed, undid or redid wrote what the work touched. Any committed transaction can be undone,
//! unless a later live one touched what it wrote; and redone, unless a later live one did, or the
//! live earlier ones that wrote what it touched are no longer those of its commit. What was written
//! is applied and reverted: no command is run again.
//!
//! # Model
//!
//! - `Book` is kept as two snapshots, lists of the log, the entries and the sessions, the places of
//!   transactions by their names, where the log changes which transaction, and an index of the live
//!   ones by the elements that they wrote and touched. Contracts see the record `History` of
//!   `undo_rules/specs/Books.antt`.
//! - An `Entry` is a committed transaction: its records, its footprint, whom it saw, and whether it
//!   is live. A `SessionState` has a session's opens and the one that is pending.
//!
//! What each call answers and leaves is `undo_rules/specs/Steps.antt`. Any answer but LogFull, and
//! Foreign of a commit, can give way to NoMemory, and then nothing changes (`Takes` and `TakesWork`
//! of `specs/Calls.antt`). A commit that is refused hands its work back, unless it was stale
//! ([`CommitRefusal`]). [`Book::commit_with_rest`] hands back besides what is left over, for callers that
//! drop it when they have let go of the book.
//!
//! # Invariants
//!
//! [`Book::new`] has them of a base without calls, and each call keeps them (`IsBook` of
//! `specs/Books.antt`):
//!
//! - The layout is that of running the commands of the live transactions, in the order of their
//!   commits, from the base, each with its records (`IsHistory` of `undo_rules/specs/Books.antt`).
//! - Of each name the place of its transaction is kept (`specs/Places.antt`).
//! - Of each logged call the place of the last one before it that changed the same transaction is
//!   kept, and of each transaction that of its last change (`AreChanges` of `specs/Changes.antt`).
//! - Transactions are in the order of their commits; one whose last change is after the last undo
//!   or redo was changed by its commit alone, and is live (`AreCommits` of `specs/Changes.antt`).
//! - Of each element the places of the live transactions that wrote it and didn't make it, and of
//!   those that touched it and didn't, are kept (`AreIndexed` of `specs/Indexed.antt`). Who made an
//!   item is in its id: that transaction is found by its name, and its own marks tell what it did.
//!
//! # Limits
//!
//! `MAX_SESSIONS` sessions, [`MAX_TRANSACTIONS`] opened transactions of a session, and [`MAX_CALLS`] logged
//! calls.
//!
//! # Files
//!
//! - `book.rt`, `entry.rt`, `session.rt`, `changes.rt`: the state.
//! - `open.rt`, `commit.rt`, `undo.rt`, `redo.rt`: a call each. `set_live.rt` is what undo and redo
//!   share.
//! - `find.rt`, `links.rt`: transactions by their names, and what is against undoing or redoing
//!   them. `by_element.rt`: transactions by what they wrote or touched.
//!
//! # Example
//!
//! The test `examples::a_transaction_is_undone_and_redone` of `history_tests` runs this.
//!
//! ```text
//! let mut book = Book::new(alloc, base)?;
//! let mut work = book.open(alloc, 1)?;
//! work.run(&rt, alloc, command, &OneBand)?;
//! let txn = book.commit(alloc, work).map_err(|refusal| refusal.fault)?;
//! book.undo(alloc, 1, txn)?;
//! book.redo(alloc, 1, txn)?;
//! ```
#![tactic(auto)]

mod book;
mod by_element;
mod changes;
mod commit;
mod entry;
mod find;
mod links;
mod open;
mod redo;
mod session;
mod set_live;
mod undo;

pub use book::{Book, MAX_CALLS};
pub use commit::{CommitRefusal, Rest};
pub use entry::Entry;
pub use open::MAX_TRANSACTIONS;
