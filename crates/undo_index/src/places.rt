//! Places in order.
ghost use Rattle.std.specs.Prelude.{◌≡◌, ℕ};
ghost use Rattle.std.specs.List.Sorted.{IsPermutation, IsSorted, IsStrictlySortedBy};
ghost use Rattle.std.specs.Ordering.{nat_cmp};
ghost use Rattle.undo_index.specs.First.{has_place};

use std::marker::Model;

/// Places in rising order, each once. Contracts see the list of them.
#[derive(Debug, Drop)]
pub struct Places {
    kept: Vec<usize>,
}

impl Model for Places {
    ghost use Rattle.std.specs.Prelude.{List, ℕ};
    ghost use Rattle.std.specs.List.Sorted.{IsStrictlySortedBy};
    ghost use Rattle.std.specs.Ordering.{nat_cmp};

    ghost Value = { List ℕ };

    ghost view = { λ p. p.kept.items };

    ghost invariant = { λ p. IsStrictlySortedBy nat_cmp p.kept.items };
}

impl Places {
    /// Returns these places in rising order, each once.
    ///
    /// # Cost
    ///
    /// One step for each where they are a few rising lists one after the other, which are merged; else by the logarithm
    /// of their number.
    pub fn of(places: Vec<usize>) -> Places
        ensures { (p : ℕ) → has_place result p ≡ has_place places.items p }
    {
        let mut kept = in_order(places);
        kept.dedup();
        Places { kept }
    }

    /// Lends the places, in order.
    pub fn as_slice(&self) -> &[usize]
        ensures value { result.now ≡ self.now }
        ensures rising { IsStrictlySortedBy nat_cmp self.now }
    {
        self.kept.as_slice()
    }
}

/// Returns these places in order. Merging takes memory: where there is none, they are sorted in place.
fn in_order(mut places: Vec<usize>) -> Vec<usize>
    ensures permutation { IsPermutation places.items result.items }
    ensures sorted { IsSorted nat_cmp result.items }
{
    if places.sort().is_err() {
        places.sort_unstable();
    }
    places
}
