//! The edges of single shapes in a row.
ghost use Rattle.std.specs.Prelude.{◌≡◌, ◌<◌, ◌≤◌, ◌++◌, ◌∷◌, [], ℕ, All, Contains, IfOk, List, OnOk, length, slice_index};
ghost use Rattle.std.specs.List.Sorted.{IsStrictlyIncreasing};
ghost use Rattle.snap_chains.specs.declared.owner.Owner.{Owner};
ghost use Rattle.snap_chains.specs.Rounded.{Owned};
ghost use Rattle.face_sweep.specs.OwnRows.{
  AreOwn,
  HasInserted,
  HasPutEdge,
  HaveLists,
  HasTaken,
  HasTakenEdge,
  IsCutBy,
  is_odd,
  list_at,
  lists_of,
};
ghost use Rattle.face_sweep.specs.Reaches.{IsReach, key_of, keys_of};

use crate::place::is_left_at;
use crate::reach::Reach;
use crate::traced::index_of;
use crate::turns::Turn;
use lay_point::Point;
use snap_chains::{CleanEdges, Owner};
use snap_pixels::partition_from;
use std::alloc::{AllocError, Global};

/// For each shape that is traced the numbers of its edges in the row, from right to left. An odd number of them
/// is right of a place exactly where the shape holds there.
#[derive(Debug, Drop)]
pub struct OwnRows {
    pub(crate) lists: Vec<Vec<usize>>,
}

impl OwnRows {
    /// Returns empty lists, one for each shape that is traced.
    ///
    /// # Errors
    ///
    /// `AllocError`, if an allocation fails.
    pub fn new(alloc: Global, reach: &Reach) -> Result<OwnRows, AllocError>
        ensures room { IfOk result (λ own. (r : Owned) → HaveLists r (keys_of reach.now) own) }
        ensures own { IfOk result (AreOwn (keys_of reach.now) (λ o. [])) }
    {
        let mut lists = Vec::with_capacity(alloc, reach.traced.len())?;
        for _shape in 0..reach.traced.len() {
            lists.push(Vec::new(alloc))?;
        }
        Ok(OwnRows { lists })
    }

    /// Returns whether an odd number of the edges of the shape, which is traced, isn't left of the point. If there
    /// is no point, all of them count.
    pub(crate) fn holds_right(
        &self,
        edges: &CleanEdges,
        reach: &Reach,
        owner: Owner,
        point: Option<Point>,
    ) -> bool
        requires traced { Contains (keys_of reach.now) (key_of owner) }
        requires rising { IsStrictlyIncreasing (keys_of reach.now) }
        requires room { HaveLists edges.now (keys_of reach.now) self.now }
        ensures { (own : Owner → List ℕ) (right left : List ℕ) → AreOwn (keys_of reach.now) own self.now
            → own owner ≡ right ++ left → IsCutBy edges.now point right left → result ≡ is_odd (length right) }
    {
        let index = index_of(reach.traced.as_slice(), reach.hint(owner), owner).unwrap();
        self.holds_in(edges, index, point)
    }

    /// Returns whether an odd number of the edges in the list of this index isn't left of the point. If there is no
    /// point, all of them count.
    pub(crate) fn holds_in(&self, edges: &CleanEdges, index: usize, point: Option<Point>) -> bool
        requires index { index < length (lists_of self.now) }
        requires given { All (λ n. n < length edges.now.0) (list_at self.now index) }
        ensures { (right left : List ℕ) → list_at self.now index ≡ right ++ left → IsCutBy edges.now point right left
            → result ≡ is_odd (length right) }
    {
        is_odd(place_in(edges, self.lists[index].as_slice(), point))
    }

    /// Puts the edge of this number into the lists of its owners, behind those of their edges that aren't left of
    /// the point. If there is no point, it comes behind all of them.
    ///
    /// # Errors
    ///
    /// `AllocError`, if an allocation fails.
    ///
    /// # Cost
    ///
    /// Of each owner a search among its edges.
    pub fn put(
        &mut self,
        edges: &CleanEdges,
        reach: &Reach,
        number: usize,
        point: Option<Point>,
    ) -> Result<(), AllocError>
        requires given { number < length edges.now.0 }
        requires reach { IsReach edges.now reach.now }
        requires room { HaveLists edges.now (keys_of reach.now) self.old }
        ensures room { OnOk result (HaveLists edges.now (keys_of reach.now) self.new) }
        ensures put { OnOk result (HasPutEdge edges.now (keys_of reach.now) point number self.old self.new) }
    {
        match reach.turns[number] {
            Turn::Told { .. } => Ok(()),
            Turn::Traced { index, .. } => {
                self.put_at(edges, reach, index as usize, number, point)?;
                Ok(())
            }
            Turn::Sought => self.put_each(edges, reach, number, point),
        }
    }

    /// Puts the edge of this number into the lists of its owners.
    fn put_each(
        &mut self,
        edges: &CleanEdges,
        reach: &Reach,
        number: usize,
        point: Option<Point>,
    ) -> Result<(), AllocError>
        requires given { number < length edges.now.0 }
        requires rising { IsStrictlyIncreasing (keys_of reach.now) }
        requires room { HaveLists edges.now (keys_of reach.now) self.old }
        ensures room { OnOk result (HaveLists edges.now (keys_of reach.now) self.new) }
        ensures put { OnOk result (HasPutEdge edges.now (keys_of reach.now) point number self.old self.new) }
    {
        for owner in edges.owners(number) {
            self.put_one(edges, reach, *owner, number, point)?;
        }
        Ok(())
    }

    /// Puts the number into the list of the owner, if it is traced.
    fn put_one(
        &mut self,
        edges: &CleanEdges,
        reach: &Reach,
        owner: Owner,
        number: usize,
        point: Option<Point>,
    ) -> Result<(), AllocError>
        requires given { number < length edges.now.0 }
        requires rising { IsStrictlyIncreasing (keys_of reach.now) }
        requires room { HaveLists edges.now (keys_of reach.now) self.old }
        ensures room { OnOk result (HaveLists edges.now (keys_of reach.now) self.new) }
        ensures put { OnOk result (HasInserted edges.now (keys_of reach.now) owner point number self.old self.new) }
    {
        if let Some(index) = index_of(reach.traced.as_slice(), reach.hint(owner), owner) {
            self.put_at(edges, reach, index, number, point)?;
        }
        Ok(())
    }

    /// Puts the number into the list of this index.
    fn put_at(
        &mut self,
        edges: &CleanEdges,
        _reach: &Reach,
        index: usize,
        number: usize,
        point: Option<Point>,
    ) -> Result<(), AllocError>
        requires given { number < length edges.now.0 }
        requires rising { IsStrictlyIncreasing (keys_of _reach.now) }
        requires index { index < length (keys_of _reach.now) }
        requires room { HaveLists edges.now (keys_of _reach.now) self.old }
        ensures room { OnOk result (HaveLists edges.now (keys_of _reach.now) self.new) }
        ensures put { OnOk result ((o : Owner) → slice_index (keys_of _reach.now) index ≡ key_of o
            → HasInserted edges.now (keys_of _reach.now) o point number self.old self.new) }
    {
        put_number(edges, &mut self.lists[index], number, point)?;
        Ok(())
    }

    /// Takes the edge of this number out of the lists of its owners. Of the edges of each owner that aren't left
    /// of the point it is the leftmost.
    ///
    /// # Cost
    ///
    /// Of each owner a search among its edges.
    pub fn take_out(&mut self, edges: &CleanEdges, reach: &Reach, number: usize, point: Point)
        requires given { number < length edges.now.0 }
        requires reach { IsReach edges.now reach.now }
        requires room { HaveLists edges.now (keys_of reach.now) self.old }
        ensures room { HaveLists edges.now (keys_of reach.now) self.new }
        ensures taken { HasTakenEdge edges.now (keys_of reach.now) point number self.old self.new }
    {
        match reach.turns[number] {
            Turn::Told { .. } => {}
            Turn::Traced { index, .. } => self.take_at(edges, reach, index as usize, point),
            Turn::Sought => self.take_each(edges, reach, number, point),
        }
    }

    /// Takes the edge of this number out of the lists of its owners.
    fn take_each(&mut self, edges: &CleanEdges, reach: &Reach, number: usize, point: Point)
        requires given { number < length edges.now.0 }
        requires rising { IsStrictlyIncreasing (keys_of reach.now) }
        requires room { HaveLists edges.now (keys_of reach.now) self.old }
        ensures room { HaveLists edges.now (keys_of reach.now) self.new }
        ensures taken { HasTakenEdge edges.now (keys_of reach.now) point number self.old self.new }
    {
        for owner in edges.owners(number) {
            self.take_one(edges, reach, *owner, point);
        }
    }

    /// Takes the leftmost edge that isn't left of the point out of the list of the owner, if it is traced.
    fn take_one(&mut self, edges: &CleanEdges, reach: &Reach, owner: Owner, point: Point)
        requires rising { IsStrictlyIncreasing (keys_of reach.now) }
        requires room { HaveLists edges.now (keys_of reach.now) self.old }
        ensures room { HaveLists edges.now (keys_of reach.now) self.new }
        ensures taken { HasTaken edges.now (keys_of reach.now) owner point self.old self.new }
    {
        if let Some(index) = index_of(reach.traced.as_slice(), reach.hint(owner), owner) {
            self.take_at(edges, reach, index, point);
        }
    }

    /// Takes the leftmost edge that isn't left of the point out of the list of this index.
    fn take_at(&mut self, edges: &CleanEdges, _reach: &Reach, index: usize, point: Point)
        requires rising { IsStrictlyIncreasing (keys_of _reach.now) }
        requires index { index < length (keys_of _reach.now) }
        requires room { HaveLists edges.now (keys_of _reach.now) self.old }
        ensures room { HaveLists edges.now (keys_of _reach.now) self.new }
        ensures taken { (o : Owner) → slice_index (keys_of _reach.now) index ≡ key_of o
            → HasTaken edges.now (keys_of _reach.now) o point self.old self.new }
    {
        take_number(edges, &mut self.lists[index], point);
    }
}

/// Puts the number into the list, behind those that aren't left of the point.
fn put_number(
    edges: &CleanEdges,
    list: &mut Vec<usize>,
    number: usize,
    point: Option<Point>,
) -> Result<(), AllocError>
    requires number { number < length edges.now.0 }
    requires given { All (λ n. n < length edges.now.0) list.old.items }
    ensures given { OnOk result (All (λ n. n < length edges.now.0) list.new.items) }
    ensures put { OnOk result ((right left : List ℕ) → list.old.items ≡ right ++ left
        → IsCutBy edges.now point right left → list.new.items ≡ (right ++ number ∷ []) ++ left) }
{
    let place = place_in(edges, list.as_slice(), point);
    list.insert(place, number)?;
    Ok(())
}

/// Takes out the last of those that aren't left of the point.
fn take_number(edges: &CleanEdges, list: &mut Vec<usize>, point: Point)
    requires given { All (λ n. n < length edges.now.0) list.old.items }
    ensures given { All (λ n. n < length edges.now.0) list.new.items }
    ensures taken { (right left : List ℕ) (n : ℕ) → list.old.items ≡ (right ++ n ∷ []) ++ left
        → IsCutBy edges.now (Some point) (right ++ n ∷ []) left → list.new.items ≡ right ++ left }
{
    let place = place_in(edges, list.as_slice(), Some(point));
    if place > 0 {
        list.remove(place - 1);
    }
}

/// Returns how many of these edges aren't left of the point, if those stand before the others. If there is no
/// point, it is all of them.
///
/// # Cost
///
/// A search by halving.
fn place_in(edges: &CleanEdges, list: &[usize], point: Option<Point>) -> usize
    requires { All (λ n. n < length edges.now.0) list.now }
    ensures bound { result ≤ length list.now }
    ensures cut { (right left : List ℕ) → list.now ≡ right ++ left → IsCutBy edges.now point right left
        → result ≡ length right }
{
    match point {
        None => list.len(),
        Some(point) => place_right(edges, list, point),
    }
}

/// Returns how many of these edges aren't left of the point, if those stand before the others.
fn place_right(edges: &CleanEdges, list: &[usize], point: Point) -> usize
    requires { All (λ n. n < length edges.now.0) list.now }
    ensures bound { result ≤ length list.now }
    ensures cut { (right left : List ℕ) → list.now ≡ right ++ left → IsCutBy edges.now (Some point) right left
        → result ≡ length right }
{
    partition_from(list.len(), list.len() / 2, |index| {
        !is_left_at(edges, list, index, point)
    })
}

/// Returns whether the count is odd.
fn is_odd(count: usize) -> bool
    ensures { result ≡ is_odd count }
{
    count % 2 == 1
}
