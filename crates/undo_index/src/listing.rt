//! Places under elements.
ghost use Rattle.std.specs.Prelude.{◌≡◌, ℕ, ◌||◌, ◌&&◌, OnErr, OnOk, nat_lt};
ghost use Rattle.std.specs.FinSet as set;
ghost use Rattle.undo_index.specs.First.{IsFirst, has_place};
ghost use Rattle.undo_index.specs.Listed.{
  AreAdded,
  AreRemoved,
  IsNew,
  is_listed,
  is_made_by,
  element_id,
  nothing_listed,
};

use crate::parts::Parts;
use crate::under::{first_under, gather_under};
use lay_layouts::ItemId;
use lay_point::NoMemory;
use std::alloc::Global;
use std::collections::BTreeSet;
use std::marker::Model;
use txn_commands::{Element, TxnId};
use txn_marks::Elements;

/// Places listed under elements. Contracts see the finite set of the pairs.
///
/// A transaction that moves or removes items of others has a pair for each, and an id takes a quarter of what an
/// element does. So those of items have a tree of their own. The other elements are few, with many places each.
#[derive(Drop)]
pub struct Listing {
    items: BTreeSet<(ItemId, usize)>,
    others: Parts,
}

impl Model for Listing {
    ghost use Rattle.undo_index.specs.Listed.{Listed, coded_listed, listed_of};

    ghost Value = { Listed };

    ghost coded = { coded_listed };

    ghost view = { λ l. listed_of l.items.keys l.others };
}

impl Listing {
    /// Returns a listing of nothing.
    pub fn new(alloc: Global) -> Listing
        ensures { result ≡ nothing_listed }
    {
        Listing {
            items: BTreeSet::new(alloc),
            others: Parts::new(alloc),
        }
    }

    /// Lists the transaction's place under each of the elements that it didn't make. Out of memory it takes those
    /// back that it listed, so what was listed stays as it was where the place is a new one.
    ///
    /// # Errors
    ///
    /// `NoMemory`, if an allocation fails.
    ///
    /// # Cost
    ///
    /// As many steps as there are elements, each that is listed by the logarithm of the number of pairs.
    pub fn add(&mut self, txn: TxnId, elements: &Elements, place: usize) -> Result<(), NoMemory>
        ensures ok { OnOk result (AreAdded self.old txn elements.now place self.new) }
        ensures err { OnErr result (IsNew self.old place → self.new ≡ self.old) }
    {
        for element in elements.as_slice() {
            if !is_made_by(txn, element) && self.insert(*element, place).is_err() {
                self.remove(txn, elements, place);
                return Err(NoMemory {});
            }
        }
        Ok(())
    }

    /// Lists the transaction's place no longer under any of the elements.
    ///
    /// # Cost
    ///
    /// As that of `add`.
    pub fn remove(&mut self, txn: TxnId, elements: &Elements, place: usize)
        ensures { AreRemoved self.old txn elements.now place self.new }
    {
        for element in elements.as_slice() {
            if !is_made_by(txn, element) {
                self.remove_one(*element, place);
            }
        }
    }

    /// Returns the least place from this one on that is listed under the element.
    ///
    /// # Cost
    ///
    /// The logarithm of the number of pairs.
    pub fn first(&self, element: Element, from: usize) -> Option<usize>
        ensures { IsFirst (is_listed self.now element) from result }
    {
        match element_id(&element) {
            Some(id) => first_under(&self.items, id, from),
            None => self.others.first(element, from),
        }
    }

    /// Adds the places below this one that are listed under the element, in rising order: clauses say only which they
    /// are, and `Places::of` puts them in order, each once.
    ///
    /// # Errors
    ///
    /// `NoMemory`, if an allocation fails.
    ///
    /// # Cost
    ///
    /// The logarithm of the number of pairs, and a step for each place.
    pub fn gather(
        &self,
        element: Element,
        below: usize,
        places: &mut Vec<usize>,
    ) -> Result<(), NoMemory>
        ensures { OnOk result ((p : ℕ) → has_place places.new.items p
            ≡ (has_place places.old.items p || (nat_lt p below && is_listed self.now element p))) }
    {
        match element_id(&element) {
            Some(id) => gather_under(&self.items, id, below, places),
            None => self.others.gather(element, below, places),
        }
    }

    /// Lists the place under the element.
    fn insert(&mut self, element: Element, place: usize) -> Result<(), NoMemory>
        ensures ok { OnOk result (self.new ≡ set.insert self.old (element, place)) }
        ensures err { OnErr result (self.new ≡ self.old) }
    {
        match element_id(&element) {
            Some(id) => {
                self.items.insert((id, place))?;
                Ok(())
            }
            None => self.others.insert(element, place),
        }
    }

    /// Lists the place no longer under the element.
    fn remove_one(&mut self, element: Element, place: usize)
        ensures { self.new ≡ set.remove self.old (element, place) }
    {
        match element_id(&element) {
            Some(id) => {
                self.items.remove(&(id, place));
            }
            None => self.others.remove(element, place),
        }
    }
}

/// Returns the id, where the element is an item.
pub fn element_id(element: &Element) -> Option<ItemId>
    ensures { result ≡ element_id element.now }
{
    match element {
        Element::Item(id) => Some(*id),
        _ => None,
    }
}

/// Returns whether the element is an item that the transaction made.
fn is_made_by(txn: TxnId, element: &Element) -> bool
    ensures { result ≡ is_made_by txn element.now }
{
    match element {
        Element::Item(id) => txn.session == id.session && txn.txn == id.txn,
        _ => false,
    }
}
