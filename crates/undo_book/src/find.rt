//! Transactions by their names, and what is against undoing or redoing them.
ghost use Rattle.std.specs.Prelude.{◌≡◌, ◌≢◌, ◌<◌, ◌≤◌, IfErr, IfOk, IfSome, OnOk, None, Some, drop, length, nat_lt};
ghost use Rattle.std.specs.List.{list_any};
ghost use Rattle.std.specs.List.Sorted.{IsPartitionPoint};
ghost use Rattle.undo_rules.specs.Books.{writes_of};
ghost use Rattle.undo_rules.specs.Steps.{redo_refusal, redo_refusal_at, stale_by, touching};
ghost use Rattle.undo_rules.specs.Steps.{undo_refusal, undo_refusal_at};
ghost use Rattle.undo_book.specs.Changes.{first_change};
ghost use Rattle.undo_book.specs.Indexed.{CanBeLookedUp, AreIndexed, IsMetAt, is_linked};
ghost use Rattle.undo_book.specs.Places.{found_at, place_of};

use crate::book::{Book, ByName};
use crate::changes::is_before;
use crate::entry::Entry;
use crate::links::{changed_in, first_moved, first_reader, is_written_from};
use std::alloc::Global;
use txn_commands::TxnId;
use txn_marks::{Elements, Footprint};
use undo_index::Index;
use undo_rules::BookFault;

impl Book {
    /// Returns the place of the transaction of this name.
    pub(crate) fn place_of(&self, txn: TxnId) -> Option<usize>
        ensures value { result ≡ place_of txn self.now.entries }
        ensures there { IfSome result (λ place. place < length self.now.entries) }
    {
        self.places.get(&txn).copied()
    }

    /// Returns the place of the transaction of this name and what its records meet, where nothing is against
    /// undoing it.
    ///
    /// # Errors
    ///
    /// `NoMemory`, if an allocation fails; else why it can't be undone.
    pub(crate) fn undo_place(
        &self,
        alloc: Global,
        txn: TxnId,
    ) -> Result<(usize, Elements), BookFault>
        ensures place { IfOk result (λ found. place_of txn self.now.entries ≡ Some found.0) }
        ensures there { IfOk result (λ found. found.0 < length self.now.entries) }
        ensures met { IfOk result (λ found. IsMetAt self.now.entries found.0 found.1) }
        ensures free { OnOk result (undo_refusal self.now txn ≡ None) }
        ensures refused { IfErr result (λ fault. fault ≢ BookFault.NoMemory → undo_refusal self.now txn ≡ Some fault) }
    {
        let Some(place) = self.place_of(txn) else {
            return Err(BookFault::NoTxn);
        };
        let met = undo_met(alloc, &self.index, &self.places, &self.entries, place)?;
        Ok((place, met))
    }

    /// Returns the place of the transaction of this name and what its records meet, where nothing is against
    /// redoing it.
    ///
    /// # Errors
    ///
    /// `NoMemory`, if an allocation fails; else why it can't be redone.
    pub(crate) fn redo_place(
        &self,
        alloc: Global,
        txn: TxnId,
    ) -> Result<(usize, Elements), BookFault>
        ensures place { IfOk result (λ found. place_of txn self.now.entries ≡ Some found.0) }
        ensures there { IfOk result (λ found. found.0 < length self.now.entries) }
        ensures met { IfOk result (λ found. IsMetAt self.now.entries found.0 found.1) }
        ensures free { OnOk result (redo_refusal self.now txn ≡ None) }
        ensures refused { IfErr result (λ fault. fault ≢ BookFault.NoMemory → redo_refusal self.now txn ≡ Some fault) }
    {
        let Some(place) = self.place_of(txn) else {
            return Err(BookFault::NoTxn);
        };
        let met = redo_met(alloc, &self.index, &self.places, &self.entries, place)?;
        Ok((place, met))
    }

    /// Returns the first transaction that a call from this place of the log on changed and that wrote what is
    /// touched. Where those calls undid and redid nothing, they changed what they committed, so there is one
    /// only if the index lists what was committed since under an element of the footprint.
    pub(crate) fn stale_by(&self, footprint: &Footprint, since: usize) -> Option<TxnId>
        ensures { result ≡ stale_by self.now.entries footprint.now (drop since self.now.log) }
    {
        let near = self.committed_before(since);
        if self.changes.last_undo_or_redo <= since && !self.is_written_from(footprint, near) {
            return None;
        }
        self.first_stale(footprint, since, near)
    }

    /// Returns how many of the transactions were committed before this place of the log.
    fn committed_before(&self, since: usize) -> usize
        ensures { IsPartitionPoint (λ entry. entry.place < since) (λ entry. since ≤ entry.place)
            self.now.entries result }
    {
        self.entries.partition_point(
            |entry: &Entry| -> bool
                ensures { result ≡ nat_lt entry.now.place since }
            { (entry.place as usize) < since },
        )
    }

    /// Returns whether a live transaction from this place on wrote an element of the footprint.
    fn is_written_from(&self, footprint: &Footprint, from: usize) -> bool
        ensures { result ≡ list_any (λ entry. is_linked entry footprint.now) (drop from self.now.entries) }
    {
        if from >= self.entries.len() {
            return false;
        }
        is_written_from(&self.index, &self.places, &self.entries, footprint, from)
    }

    /// Returns the first transaction that a call from this place of the log on changed and that wrote what is
    /// touched. What a transaction wrote is looked at where it was first changed, and not again. Most calls
    /// are commits, so the next one's place is guessed to be behind the last one's, and the first one's to be
    /// this one.
    fn first_stale(&self, footprint: &Footprint, since: usize, first: usize) -> Option<TxnId>
        ensures { result ≡ stale_by self.now.entries footprint.now (drop since self.now.log) }
    {
        let mut near = first;
        for place in since..self.log.len() {
            if let Some(txn) = self.first_change(place, since) {
                let found = self.place_near(txn, near);
                if self.wrote_at(txn, found, footprint) {
                    return Some(txn);
                }
                near = next_place(found);
            }
        }
        None
    }

    /// Returns the transaction that the call at this place of the log changed, where no call since the other
    /// place did so before it.
    fn first_change(&self, place: usize, since: usize) -> Option<TxnId>
        requires { place < length self.now.log }
        ensures { result ≡ first_change self.now.log since place }
    {
        if is_before(self.changes.previous_change[place], since) {
            return changed_in(&self.log[place]);
        }
        None
    }

    /// Returns the place of the transaction of this name, which is looked at first where it is likely to be.
    fn place_near(&self, txn: TxnId, near: usize) -> Option<usize>
        ensures value { result ≡ place_of txn self.now.entries }
        ensures there { IfSome result (λ place. place < length self.now.entries) }
    {
        match self.entries.get(near) {
            Some(entry) if entry.txn == txn => Some(near),
            _ => self.place_of(txn),
        }
    }

    /// Returns whether the transaction of this name, which is at this place, if anywhere, wrote what is touched.
    fn wrote_at(&self, txn: TxnId, found: Option<usize>, footprint: &Footprint) -> bool
        requires at { found ≡ place_of txn self.now.entries }
        requires there { IfSome found (λ place. place < length self.now.entries) }
        ensures { result ≡ touching (writes_of self.now.entries txn) footprint.now }
    {
        match found {
            Some(place) => self.entries[place].writes.touch(footprint),
            None => false,
        }
    }
}

/// Returns the place behind this one, or the first where there is none.
fn next_place(place: Option<usize>) -> usize {
    match place {
        Some(place) => place.saturating_add(1),
        None => 0,
    }
}

/// Returns what the records of the transaction at this place meet, where nothing is against undoing it, or what is.
fn undo_met(
    alloc: Global,
    index: &Index,
    places: &ByName,
    entries: &[Entry],
    place: usize,
) -> Result<Elements, BookFault>
    requires place { place < length entries.now }
    requires index { AreIndexed index.now.writers index.now.readers entries.now }
    requires found { CanBeLookedUp places.now.entries entries.now }
    ensures met { IfOk result (λ met. IsMetAt entries.now place met) }
    ensures free { OnOk result (undo_refusal_at (found_at entries.now place) ≡ None) }
    ensures refused { IfErr result (λ fault. fault ≢ BookFault.NoMemory
        → undo_refusal_at (found_at entries.now place) ≡ Some fault) }
{
    let entry = &entries[place];
    if !entry.live {
        return Err(BookFault::NotLive);
    }
    let met = Elements::met_by(alloc, &entry.writes)?;
    match first_reader(index, places, entries, entry, &met, place + 1) {
        Some(reader) => Err(BookFault::Depends(reader)),
        None => Ok(met),
    }
}

/// Returns what the records of the transaction at this place meet, where nothing is against redoing it, or what is.
fn redo_met(
    alloc: Global,
    index: &Index,
    places: &ByName,
    entries: &[Entry],
    place: usize,
) -> Result<Elements, BookFault>
    requires place { place < length entries.now }
    requires index { AreIndexed index.now.writers index.now.readers entries.now }
    requires found { CanBeLookedUp places.now.entries entries.now }
    ensures met { IfOk result (λ met. IsMetAt entries.now place met) }
    ensures free { OnOk result (redo_refusal_at (found_at entries.now place) ≡ None) }
    ensures refused { IfErr result (λ fault. fault ≢ BookFault.NoMemory
        → redo_refusal_at (found_at entries.now place) ≡ Some fault) }
{
    let entry = &entries[place];
    if entry.live {
        return Err(BookFault::StillLive);
    }
    let met = Elements::met_by(alloc, &entry.writes)?;
    if let Some(reader) = first_reader(index, places, entries, entry, &met, place + 1) {
        return Err(BookFault::Depends(reader));
    }
    match first_moved(alloc, index, places, entries, place)? {
        Some(moved) => Err(BookFault::Moved(moved)),
        None => Ok(met),
    }
}
