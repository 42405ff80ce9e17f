//! Places under the elements that are no items.
ghost use Rattle.std.specs.Prelude.{◌≡◌, ℕ, ◌||◌, ◌&&◌, OnErr, OnOk, nat_lt};
ghost use Rattle.std.specs.FinSet as set;
ghost use Rattle.undo_index.specs.First.{IsFirst, has_place};
ghost use Rattle.undo_index.specs.Listed.{is_listed, nothing_listed};

use crate::place_set::PlaceSet;
use lay_point::NoMemory;
use std::alloc::Global;
use std::collections::BTreeMap;
use std::marker::Model;
use txn_commands::Element;

/// Places listed under elements, of which there are few. Contracts see the finite set of the pairs.
///
/// A layer of the top cell may have a place for each transaction. So each element has its own places, where plain
/// numbers stand and are compared: a sole one in place, several in a tree. An element with no place left is gone.
#[derive(Drop)]
pub(crate) struct Parts {
    places: BTreeMap<Element, PlaceSet>,
    alloc: Global,
}

impl Model for Parts {
    ghost use Rattle.undo_index.specs.Listed.{Listed, coded_listed};
    ghost use Rattle.undo_index.specs.Parts.{listed_in_parts};

    ghost Value = { Listed };

    ghost coded = { coded_listed };

    ghost view = { λ p. listed_in_parts p.places };
}

impl Parts {
    /// Returns those of no place.
    pub(crate) fn new(alloc: Global) -> Parts
        ensures { result ≡ nothing_listed }
    {
        Parts {
            places: BTreeMap::new(alloc),
            alloc,
        }
    }

    /// Lists the place under the element.
    ///
    /// # Cost
    ///
    /// As many comparisons of elements as the logarithm of their number, and of places as that of those under
    /// this one. So in the functions below.
    pub(crate) fn insert(&mut self, element: Element, place: usize) -> Result<(), NoMemory>
        ensures ok { OnOk result (self.new ≡ set.insert self.old (element, place)) }
        ensures err { OnErr result (self.new ≡ self.old) }
    {
        if let Some(kept) = self.places.get_mut(&element) {
            kept.insert(self.alloc, place)?;
            return Ok(());
        }
        self.places.insert(element, PlaceSet::Sole(place))?;
        Ok(())
    }

    /// Lists the place no longer under the element.
    pub(crate) fn remove(&mut self, element: Element, place: usize)
        ensures { self.new ≡ set.remove self.old (element, place) }
    {
        let Some(kept) = self.places.get_mut(&element) else {
            return;
        };
        if kept.remove(place) {
            return;
        }
        self.places.remove(&element);
    }

    /// Returns the least place from this one on that is listed under the element.
    pub(crate) fn first(&self, element: Element, from: usize) -> Option<usize>
        ensures { IsFirst (is_listed self.now element) from result }
    {
        self.places.get(&element)?.first(from)
    }

    /// Adds the places below this one that are listed under the element.
    pub(crate) fn gather(
        &self,
        element: Element,
        below: usize,
        found: &mut Vec<usize>,
    ) -> Result<(), NoMemory>
        ensures { OnOk result ((p : ℕ) → has_place found.new.items p
            ≡ (has_place found.old.items p || (nat_lt p below && is_listed self.now element p))) }
    {
        match self.places.get(&element) {
            Some(kept) => kept.gather(below, found),
            None => Ok(()),
        }
    }
}
