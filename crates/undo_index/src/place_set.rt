//! The places under one element.
ghost use Rattle.std.specs.Prelude.{◌≡◌, ℕ, ◌==◌, [], ◌∷◌, false, not, true, ◌||◌, ◌&&◌, IfOk, OnErr, OnOk, nat_lt};
ghost use Rattle.undo_index.specs.First.{IsFirst, has_place};
ghost use Rattle.undo_index.specs.PlaceSet.{places_of};

use lay_point::NoMemory;
use std::alloc::Global;
use std::collections::BTreeSet;

/// The places that are listed under one element. Under most layers of a design where each box has one of its own,
/// and under most symbols, there is one alone: a sole place stands in place, and takes no tree.
#[derive(Drop)]
pub enum PlaceSet {
    /// A sole place.
    Sole(usize),
    /// Places in a tree. It stays a tree as places are removed, down to one.
    Many(BTreeSet<usize>),
}

impl PlaceSet {
    /// Adds the place. Out of memory the places are those that were there.
    ///
    /// # Errors
    ///
    /// `NoMemory`, if an allocation fails.
    ///
    /// # Cost
    ///
    /// As many comparisons as the logarithm of the number of places.
    pub fn insert(&mut self, alloc: Global, place: usize) -> Result<(), NoMemory>
        ensures ok { OnOk result ((p : ℕ) → has_place (places_of self.new) p
            ≡ ((p == place) || has_place (places_of self.old) p)) }
        ensures err { OnErr result (places_of self.new ≡ places_of self.old) }
    {
        let sole = match self {
            PlaceSet::Sole(sole) => *sole,
            PlaceSet::Many(places) => {
                places.insert(place)?;
                return Ok(());
            }
        };
        *self = PlaceSet::Many(both(alloc, sole, place)?);
        Ok(())
    }

    /// Removes the place, and returns whether another one is left. Where none is, a sole place is still in the value
    /// and a tree is empty: the value is of no use then, and its owner drops it.
    ///
    /// # Cost
    ///
    /// That of `insert`.
    pub fn remove(&mut self, place: usize) -> bool
        ensures left { result ≡ true → (p : ℕ) → has_place (places_of self.new) p
            ≡ (not (p == place) && has_place (places_of self.old) p) }
        ensures none { result ≡ false → (p : ℕ) → (not (p == place) && has_place (places_of self.old) p) ≡ false }
    {
        match self {
            PlaceSet::Sole(sole) => *sole != place,
            PlaceSet::Many(places) => {
                places.remove(&place);
                !places.is_empty()
            }
        }
    }

    /// Returns the least place from this one on.
    ///
    /// # Cost
    ///
    /// That of `insert`.
    pub fn first(&self, from: usize) -> Option<usize>
        ensures { IsFirst (has_place (places_of self.now)) from result }
    {
        match self {
            PlaceSet::Sole(sole) if from <= *sole => Some(*sole),
            PlaceSet::Sole(_) => None,
            PlaceSet::Many(places) => Some(*places.range(from..).next()?),
        }
    }

    /// Adds the places below this one to those that were found, in rising order, which spares `Places::of` the sort:
    /// clauses say only which they are. Out of memory some of them may be there already.
    ///
    /// # Errors
    ///
    /// `NoMemory`, if an allocation fails.
    ///
    /// # Cost
    ///
    /// That of `insert`, and one step for each place that is added.
    pub fn gather(&self, below: usize, found: &mut Vec<usize>) -> Result<(), NoMemory>
        ensures { OnOk result ((p : ℕ) → has_place found.new.items p
            ≡ (has_place found.old.items p || (nat_lt p below && has_place (places_of self.now) p))) }
    {
        match self {
            PlaceSet::Sole(sole) if *sole < below => found.push(*sole)?,
            PlaceSet::Sole(_) => {}
            PlaceSet::Many(places) => {
                for place in places.range(0..below) {
                    found.push(*place)?;
                }
            }
        }
        Ok(())
    }
}

/// Returns these two places.
fn both(alloc: Global, one: usize, other: usize) -> Result<BTreeSet<usize>, NoMemory>
    ensures { IfOk result (λ places. (p : ℕ) → has_place places.keys p ≡ has_place (other ∷ one ∷ []) p) }
{
    let mut places = BTreeSet::new(alloc);
    places.insert(one)?;
    places.insert(other)?;
    Ok(places)
}
