//! Committed transactions.
ghost use Rattle.std.specs.Prelude.{◌≡◌, ◌<◌, Some, slice_get, slice_set, true, vec_len};
ghost use Rattle.undo_rules.specs.Links.{Entry as Kept, marked};

use lay_point::Sequence;
use std::marker::Model;
use txn_commands::TxnId;
use txn_marks::{Elements, Records};

/// A committed transaction. Contracts see the record of its parts.
#[derive(Debug, Drop)]
pub struct Entry {
    /// Its name.
    pub txn: TxnId,
    /// The place of its commit in the log.
    pub place: u32,
    /// What it wrote: the values before and after, in lists.
    pub writes: Records,
    /// What it read or wrote.
    pub footprint: Elements,
    /// The live transactions that had written what it touched, when it committed.
    pub seen: Sequence<TxnId>,
    /// Whether it stands, and isn't undone.
    pub live: bool,
}

impl Model for Entry {
    ghost use Rattle.undo_rules.specs.Links.{Entry};
    ghost use Rattle.undo_book.specs.Coded.{coded_entry};

    ghost Value = { Entry };

    ghost coded = { coded_entry };

    ghost view = { λ e. record {
      txn = e.txn;
      place = e.place;
      writes = e.writes;
      footprint = e.footprint;
      seen = e.seen;
      live = e.live;
    } };
}

impl Entry {
    /// Returns a transaction that is live, linked to those that it has seen.
    pub fn new(
        txn: TxnId,
        place: u32,
        writes: Records,
        footprint: Elements,
        seen: Vec<TxnId>,
    ) -> Entry
        ensures { result ≡ record {
          txn = txn;
          place = place;
          writes = writes;
          footprint = footprint;
          seen = seen.items;
          live = true;
        } }
    {
        Entry {
            txn,
            place,
            writes,
            footprint,
            seen: Sequence::from_vec(seen),
            live: true,
        }
    }

    /// Returns its name.
    pub fn txn(&self) -> TxnId
        ensures { result ≡ self.now.txn }
    {
        self.txn
    }

    /// Returns the place of its commit in the log, from 0. The log has its commands there.
    pub fn place(&self) -> u32
        ensures { result ≡ self.now.place }
    {
        self.place
    }

    /// Lends what it wrote: a record of each item and of each symbol, in order.
    pub fn writes(&self) -> &Records
        ensures { result.now ≡ self.now.writes }
    {
        &self.writes
    }

    /// Lends what it read or wrote.
    pub fn footprint(&self) -> &Elements
        ensures { result.now ≡ self.now.footprint }
    {
        &self.footprint
    }

    /// Lends the names of the transactions that it was linked to at its commit, in the order of theirs.
    pub fn seen(&self) -> &[TxnId]
        ensures { result.now ≡ self.now.seen }
    {
        self.seen.as_slice()
    }

    /// Returns whether it is live, and not undone.
    pub fn is_live(&self) -> bool
        ensures { result ≡ self.now.live }
    {
        self.live
    }

    /// Marks it as live, or as undone.
    pub(crate) fn mark(&mut self, live: bool)
        ensures { self.new ≡ marked live self.old }
    {
        self.live = live;
    }
}

/// Marks the transaction at this place as live, or as undone.
pub(crate) fn set_mark(entries: &mut Vec<Entry>, place: usize, live: bool)
    requires { place < vec_len entries.old }
    ensures { (entry : Kept) → slice_get entries.old.items place ≡ Some entry
        → entries.new.items ≡ slice_set entries.old.items place (marked live entry) }
{
    entries[place].mark(live);
}
