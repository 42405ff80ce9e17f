//! Who wrote and who touched an element: the transactions that are listed under it, and the one that made it.
//!
//! The index lists no transaction under an item that it made. That one is found by its name, which the item's id
//! has, and its records or its footprint tell whether it is meant.
ghost use Rattle.std.specs.Prelude.{◌≡◌, ◌<◌, ℕ, ◌||◌, ◌&&◌, OnOk, length, nat_lt, slice_get};
ghost use Rattle.std.specs.FinSet as set;
ghost use Rattle.std.specs.BTreeMap.{is_at};
ghost use Rattle.std.specs.List.{AllByRecursion};
ghost use Rattle.std.specs.Map.{lookup};
ghost use Rattle.txn_commands.specs.declared.element.Element.TheVariants.{Item as item_of};
ghost use Rattle.txn_commands.specs.Lies.{passes};
ghost use Rattle.txn_commands.specs.Meets.{some_meets};
ghost use Rattle.txn_commands.specs.Records.{AreProper};
ghost use Rattle.undo_index.specs.First.{IsFirst, has_place};
ghost use Rattle.undo_book.specs.Indexed.{CanBeLookedUp, AreIndexed, by_maker, touched, wrote};
ghost use Rattle.undo_book.specs.Places.{is_place, maker_of, name_cmp};

use crate::book::ByName;
use crate::entry::Entry;
use lay_layouts::ItemId;
use lay_pages::page::find;
use lay_point::NoMemory;
use txn_commands::{Element, TxnId};
use txn_marks::Records;
use undo_index::{Index, element_id, lesser};

/// Returns the least place from this one on whose transaction is live and wrote the element.
///
/// # Cost
///
/// The logarithm of all that is listed, of the number of transactions, and of the records of the maker.
pub(crate) fn first_writer_of(
    index: &Index,
    places: &ByName,
    entries: &[Entry],
    element: &Element,
    from: usize,
) -> Option<usize>
    requires index { AreIndexed index.now.writers index.now.readers entries.now }
    requires found { CanBeLookedUp places.now.entries entries.now }
    ensures { IsFirst (λ p. passes (wrote element.now) (slice_get entries.now p)) from result }
{
    let listed = index.writers.first(*element, from);
    let maker = from_on(writing_maker(places, entries, element), from);
    lesser(listed, maker)
}

/// Returns the least place from this one on whose transaction is live and touched the element.
///
/// # Cost
///
/// The logarithm of all that is listed and of the number of transactions. The footprint of the maker is gone
/// over only if the maker is from this place on. No transaction writes an item of a later one, so for what an
/// earlier one wrote that is so only if the base has an item with the name of a later one.
pub(crate) fn first_reader_of(
    index: &Index,
    places: &ByName,
    entries: &[Entry],
    element: &Element,
    from: usize,
) -> Option<usize>
    requires index { AreIndexed index.now.writers index.now.readers entries.now }
    requires found { CanBeLookedUp places.now.entries entries.now }
    ensures { IsFirst (λ p. passes (touched element.now) (slice_get entries.now p)) from result }
{
    let listed = index.readers.first(*element, from);
    let maker = reading_maker(places, entries, element, from);
    lesser(listed, maker)
}

/// Adds the places below this one whose transactions are live and wrote the element.
///
/// # Cost
///
/// That of `first_writer_of`, and a step for each place.
pub(crate) fn gather_writers_of(
    index: &Index,
    places: &ByName,
    entries: &[Entry],
    element: &Element,
    below: usize,
    found: &mut Vec<usize>,
) -> Result<(), NoMemory>
    requires index { AreIndexed index.now.writers index.now.readers entries.now }
    requires found { CanBeLookedUp places.now.entries entries.now }
    ensures { OnOk result ((p : ℕ) → has_place found.new.items p
        ≡ (has_place found.old.items p || (nat_lt p below && passes (wrote element.now) (slice_get entries.now p)))) }
{
    index.writers.gather(*element, below, found)?;
    push_below(found, writing_maker(places, entries, element), below)
}

/// Returns the place of the live transaction that made the element and wrote it, if there is one.
fn writing_maker(places: &ByName, entries: &[Entry], element: &Element) -> Option<usize>
    requires { CanBeLookedUp places.now.entries entries.now }
    ensures { (p : ℕ) → is_place p result ≡ passes (by_maker wrote element.now) (slice_get entries.now p) }
{
    let id = element_id(element)?;
    let place = maker(places, id)?;
    if has_written(entries, place, id) {
        return Some(place);
    }
    None
}

/// Returns the place of the live transaction that made the element and touched it, if it is from this one on.
fn reading_maker(
    places: &ByName,
    entries: &[Entry],
    element: &Element,
    from: usize,
) -> Option<usize>
    requires { CanBeLookedUp places.now.entries entries.now }
    ensures { IsFirst (λ p. passes (by_maker touched element.now) (slice_get entries.now p)) from result }
{
    let id = element_id(element)?;
    let place = maker(places, id)?;
    if from <= place && has_touched(entries, place, element) {
        return Some(place);
    }
    None
}

/// Returns the place of the transaction that makes items of ids as this one, if it is committed.
fn maker(places: &ByName, id: ItemId) -> Option<usize>
    ensures { result ≡ lookup (is_at (name_cmp (maker_of id))) places.now.entries }
{
    let name = TxnId {
        session: id.session,
        txn: id.txn,
    };
    places.get(&name).copied()
}

/// Returns whether the transaction at the place is live and wrote the item.
fn has_written(entries: &[Entry], place: usize, id: ItemId) -> bool
    requires there { place < length entries.now }
    requires proper { AllByRecursion (λ entry. AreProper entry.writes) entries.now }
    ensures { result ≡ passes (wrote (item_of id)) (slice_get entries.now place) }
{
    let entry = &entries[place];
    entry.live && is_written(&entry.writes, id)
}

/// Returns whether something was written under the id.
fn is_written(records: &Records, id: ItemId) -> bool
    requires { AreProper records.now }
    ensures { result ≡ some_meets records.now (item_of id) }
{
    find(records.items(), id).is_some()
}

/// Returns whether the transaction at the place is live and touched the element.
fn has_touched(entries: &[Entry], place: usize, element: &Element) -> bool
    requires { place < length entries.now }
    ensures { result ≡ passes (touched element.now) (slice_get entries.now place) }
{
    let entry = &entries[place];
    entry.live && entry.footprint.as_slice().contains(element)
}

/// Returns the place, if it is from this one on.
fn from_on(place: Option<usize>, from: usize) -> Option<usize>
    ensures { IsFirst (λ p. is_place p place) from result }
{
    match place {
        Some(place) if from <= place => Some(place),
        _ => None,
    }
}

/// Adds the place, if there is one and it is below this one.
fn push_below(found: &mut Vec<usize>, place: Option<usize>, below: usize) -> Result<(), NoMemory>
    ensures { OnOk result ((p : ℕ) → has_place found.new.items p
        ≡ (has_place found.old.items p || (nat_lt p below && is_place p place))) }
{
    match place {
        Some(place) if place < below => Ok(found.push(place)?),
        _ => Ok(()),
    }
}
