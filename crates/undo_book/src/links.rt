//! Which transactions touched what others wrote.
ghost use Rattle.std.specs.Prelude.{◌≡◌, ◌<◌, ℕ, ◌||◌, ◌&&◌, ◌++◌, List, IfOk, OnOk, drop, length, nat_lt, slice_get};
ghost use Rattle.std.specs.FinSet as set;
ghost use Rattle.std.specs.List.{cons_option, filter_map, list_any};
ghost use Rattle.txn_commands.specs.Lies.{passes};
ghost use Rattle.txn_marks.specs.Homes.{AreMetBy};
ghost use Rattle.undo_rules.specs.Books.{changed_by, changed_in};
ghost use Rattle.undo_rules.specs.Links.{first_reader, links_to};
ghost use Rattle.undo_index.specs.First.{IsFirst, has_place};
ghost use Rattle.undo_book.specs.Indexed.{CanBeLookedUp, AreIndexed, is_linked, name_at, touched, wrote};
ghost use Rattle.undo_book.specs.Places.{found_at, moved_at, named_at, stands_at};

use crate::book::{Book, ByName};
use crate::by_element::{first_reader_of, first_writer_of, gather_writers_of};
use crate::entry::Entry;
use lay_point::NoMemory;
use std::alloc::Global;
use txn_commands::TxnId;
use txn_marks::{Elements, Footprint};
use undo_index::{Index, Places, first_apart, lesser};
use undo_rules::{Answer, Call, Logged};

/// Returns the first live transaction from this place on that touched what another one wrote, of which the
/// records meet these elements.
pub(crate) fn first_reader(
    index: &Index,
    places: &ByName,
    entries: &[Entry],
    entry: &Entry,
    met: &Elements,
    from: usize,
) -> Option<TxnId>
    requires index { AreIndexed index.now.writers index.now.readers entries.now }
    requires found { CanBeLookedUp places.now.entries entries.now }
    requires met { AreMetBy entry.now.writes met.now }
    ensures { result ≡ first_reader entry.now.writes (drop from entries.now) }
{
    let place = first_touching(index, places, entries, met, from)?;
    Some(entries.get(place)?.txn)
}

/// Returns the least place from this one on whose transaction is live and touched one of the elements.
fn first_touching(
    index: &Index,
    places: &ByName,
    entries: &[Entry],
    met: &Elements,
    from: usize,
) -> Option<usize>
    requires index { AreIndexed index.now.writers index.now.readers entries.now }
    requires found { CanBeLookedUp places.now.entries entries.now }
    ensures { IsFirst (λ p. list_any (λ e. passes (touched e) (slice_get entries.now p)) (set.items met.now)) from
        result }
{
    let mut first = None;
    for element in met.as_slice() {
        first = lesser(
            first,
            first_reader_of(index, places, entries, element, from),
        );
    }
    first
}

/// Returns whether a live transaction from this place on wrote an element of the footprint.
pub(crate) fn is_written_from(
    index: &Index,
    places: &ByName,
    entries: &[Entry],
    footprint: &Footprint,
    from: usize,
) -> bool
    requires index { AreIndexed index.now.writers index.now.readers entries.now }
    requires found { CanBeLookedUp places.now.entries entries.now }
    ensures { result ≡ list_any (λ entry. is_linked entry footprint.now) (drop from entries.now) }
{
    for element in footprint.elements() {
        if first_writer_of(index, places, entries, element, from).is_some() {
            return true;
        }
    }
    false
}

/// Returns all places below this one whose transactions are live and wrote one of the elements, in rising order.
///
/// # Cost
///
/// As many steps as there are elements, each by the logarithm of all that is listed, of the number of transactions and
/// of the records of a maker, and as that of bringing the places in order that are found under each of the elements:
/// one step for each where few elements have any, else by the logarithm of their number.
fn writers_among(
    alloc: Global,
    index: &Index,
    places: &ByName,
    entries: &[Entry],
    elements: &Elements,
    below: usize,
) -> Result<Places, NoMemory>
    requires index { AreIndexed index.now.writers index.now.readers entries.now }
    requires found { CanBeLookedUp places.now.entries entries.now }
    ensures { IfOk result (λ found. (p : ℕ) → has_place found p
        ≡ (nat_lt p below && list_any (λ e. passes (wrote e) (slice_get entries.now p)) (set.items elements.now))) }
{
    let mut found = Vec::new(alloc);
    for element in elements.as_slice() {
        gather_writers_of(index, places, entries, element, below, &mut found)?;
    }
    Ok(Places::of(found))
}

/// Returns the first of the transactions before this place that is linked to the one there and that it
/// hasn't seen, or the other way round.
///
/// # Cost
///
/// As that of `links_to`, and as many steps as it has seen, each by the logarithm of the number of
/// transactions.
pub(crate) fn first_moved(
    alloc: Global,
    index: &Index,
    places: &ByName,
    entries: &[Entry],
    place: usize,
) -> Result<Option<TxnId>, NoMemory>
    requires place { place < length entries.now }
    requires index { AreIndexed index.now.writers index.now.readers entries.now }
    requires found { CanBeLookedUp places.now.entries entries.now }
    ensures { IfOk result (λ moved. moved ≡ moved_at (found_at entries.now place)) }
{
    let entry = &entries[place];
    let linked = writers_among(alloc, index, places, entries, &entry.footprint, place)?;
    let seen = places_of(alloc, places, entry.seen.as_slice(), place)?;
    Ok(named_at(entries, first_apart(&linked, &seen)))
}

/// Returns the places below this one at which transactions of these names stand, in rising order.
fn places_of(
    alloc: Global,
    places: &ByName,
    names: &[TxnId],
    below: usize,
) -> Result<Places, NoMemory>
    ensures { IfOk result (λ found. (p : ℕ) → has_place found p
        ≡ (nat_lt p below && list_any (stands_at places.now.entries p) names.now)) }
{
    let mut found = Vec::new(alloc);
    for name in names {
        place_of(places, *name, below, &mut found)?;
    }
    Ok(Places::of(found))
}

/// Adds the place at which the transaction of this name stands, where that is below the other one.
fn place_of(
    places: &ByName,
    name: TxnId,
    below: usize,
    found: &mut Vec<usize>,
) -> Result<(), NoMemory>
    ensures { OnOk result ((p : ℕ) → has_place found.new.items p
        ≡ (has_place found.old.items p || (nat_lt p below && stands_at places.now.entries p name))) }
{
    if let Some(place) = places.get(&name) {
        if *place < below {
            found.push(*place)?;
        }
    }
    Ok(())
}

/// Returns the name of the transaction at the place, if there is one.
fn named_at(entries: &[Entry], place: Option<usize>) -> Option<TxnId>
    ensures { result ≡ named_at entries.now place }
{
    Some(entries.get(place?)?.txn)
}

impl Book {
    /// Returns the live transactions that wrote what is touched, in order.
    ///
    /// # Cost
    ///
    /// That of `writers_among`: a step for each live transaction that wrote one of the elements, or its logarithm
    /// where many elements have writers. So where many transactions each read what all of them wrote, their links take as much time and
    /// memory as they are long.
    pub(crate) fn links_to(
        &self,
        alloc: Global,
        footprint: &Elements,
    ) -> Result<Vec<TxnId>, NoMemory>
        ensures { IfOk result (λ links. links.items ≡ links_to self.now.entries footprint.now) }
    {
        let end = self.entries.len();
        let found = writers_among(
            alloc,
            &self.index,
            &self.places,
            &self.entries,
            footprint,
            end,
        )?;
        let names = names_at(alloc, &self.entries, found.as_slice())?;
        Ok(names)
    }
}

/// Returns the names of the transactions at these places.
fn names_at(alloc: Global, entries: &[Entry], places: &[usize]) -> Result<Vec<TxnId>, NoMemory>
    ensures { IfOk result (λ names. names.items ≡ filter_map (name_at entries.now) places.now) }
{
    let mut names = Vec::new(alloc);
    for place in places {
        push_some(&mut names, named_at(entries, Some(*place)))?;
    }
    Ok(names)
}

/// Adds the name, if there is one.
fn push_some(names: &mut Vec<TxnId>, name: Option<TxnId>) -> Result<(), NoMemory>
    ensures { OnOk result ((rest : List TxnId) → names.new.items ++ rest
        ≡ names.old.items ++ cons_option name rest) }
{
    match name {
        Some(name) => Ok(names.push(name)?),
        None => Ok(()),
    }
}

/// Returns the transaction that the logged call committed, undid or redid, if it was accepted.
pub(crate) fn changed_in(call: &Logged) -> Option<TxnId>
    ensures { result ≡ changed_in call.now }
{
    match call.answer {
        Answer::Opened(_) => None,
        Answer::Refused(_) => None,
        _ => changed_by(&call.call),
    }
}

/// Returns the transaction that an accepted call commits, undoes or redoes.
fn changed_by(call: &Call) -> Option<TxnId>
    ensures { result ≡ changed_by call.now Answer.Committed }
{
    match call {
        Call::Open => None,
        Call::Commit { txn, .. } => Some(*txn),
        Call::Undo(txn) => Some(*txn),
        Call::Redo(txn) => Some(*txn),
    }
}
