//! What holds left of a row's edges, from right to left, and the edges of single shapes.
ghost use Rattle.std.specs.Prelude.{
  ◌≡◌,
  ◌+◌,
  ◌++◌,
  ◌^◌,
  ◌<◌,
  ◌≤◌,
  [],
  All,
  IfOk,
  OnOk,
  drop,
  length,
  slice_index,
  take,
};
ghost use Rattle.snap_chains.specs.declared.owner.Owner.{Owner};
ghost use Rattle.face_rows.specs.Sound.{AreSound};
ghost use Rattle.face_sweep.specs.OwnRows.{AreOwn, HaveLists, IsCutAt, own_of};
ghost use Rattle.face_sweep.specs.Reaches.{IsReach, keys_of};
ghost use Rattle.face_sweep.specs.Counts.{AreCounts};
ghost use Rattle.face_sweep.specs.Sides.{AreBehind, AreLeftOf, AreLefts, holds_beside, is_odd_in};

use crate::group::Group;
use face_sweep::{BlockList, Counts, LeftCounts, OwnRows, Reach, Sides};
use snap_chains::CleanEdges;
use std::alloc::{AllocError, Global};

/// Returns what a row keeps beside its edges, and puts these into the lists of single shapes, which are empty.
///
/// # Errors
///
/// `AllocError`, if an allocation fails, and where 2^32 shapes of an input hold.
pub(crate) fn find_lefts(
    alloc: Global,
    edges: &CleanEdges,
    numbers: &BlockList<usize>,
    own: &mut OwnRows,
    reach: &Reach,
) -> Result<Vec<LeftCounts>, AllocError>
    requires sound { AreSound edges.now }
    requires reach { IsReach edges.now reach.now }
    requires given { All (λ n. n < length edges.now.0) numbers.now }
    requires behind { AreBehind edges.now numbers.now }
    requires room { HaveLists edges.now (keys_of reach.now) own.old }
    requires own { AreOwn (keys_of reach.now) (λ o. []) own.old }
    ensures lefts { IfOk result (λ lefts. AreLefts edges.now numbers.now lefts.items) }
    ensures room { OnOk result (HaveLists edges.now (keys_of reach.now) own.new) }
    ensures own { OnOk result (AreOwn (keys_of reach.now) (λ o. own_of edges.now o numbers.now) own.new) }
{
    let mut lefts = Vec::with_capacity(alloc, numbers.len())?;
    let mut right = Counts::none();
    let mut index = numbers.len();
    while index > 0 {
        index -= 1;
        right = find_one(edges, numbers, index, right, own, reach)?;
        let left = LeftCounts::of(right)?;
        lefts.push(left)?;
    }
    lefts.reverse();
    Ok(lefts)
}

/// Returns how many shapes hold left of the edge at this index of a row, right of which so many do, and puts it into the
/// lists of single shapes. The edges behind it are in the lists.
fn find_one(
    edges: &CleanEdges,
    numbers: &BlockList<usize>,
    index: usize,
    right: Counts,
    own: &mut OwnRows,
    reach: &Reach,
) -> Result<Counts, AllocError>
    requires sound { AreSound edges.now }
    requires reach { IsReach edges.now reach.now }
    requires index { index < length numbers.now }
    requires few { index + 1 < 2 ^ 64 }
    requires given { All (λ n. n < length edges.now.0) numbers.now }
    requires beside { (o : Owner) → is_odd_in edges.now (drop (index + 1) numbers.now) o
        ≡ holds_beside edges.now (slice_index numbers.now index) o }
    requires right { AreCounts right (is_odd_in edges.now (drop (index + 1) numbers.now)) }
    requires room { HaveLists edges.now (keys_of reach.now) own.old }
    requires own { AreOwn (keys_of reach.now) (λ o. own_of edges.now o (drop (index + 1) numbers.now)) own.old }
    ensures left { IfOk result (AreLeftOf edges.now (slice_index numbers.now index)) }
    ensures room { OnOk result (HaveLists edges.now (keys_of reach.now) own.new) }
    ensures own { OnOk result (AreOwn (keys_of reach.now) (λ o. own_of edges.now o (drop index numbers.now)) own.new) }
{
    let number = numbers.get(index);
    let sides = Sides::of(edges, numbers, index + 1, right, reach, own, None, number);
    own.put(edges, reach, number, None)?;
    Ok(sides.left())
}

/// Takes the edges of the group, which end at its point, out of the lists of single shapes.
pub(crate) fn take_out(
    edges: &CleanEdges,
    numbers: &BlockList<usize>,
    group: Group,
    own: &mut OwnRows,
    reach: &Reach,
)
    requires given { All (λ n. n < length edges.now.0) numbers.now }
    requires order { group.from ≤ group.to }
    requires bound { group.to ≤ length numbers.now }
    requires reach { IsReach edges.now reach.now }
    requires room { HaveLists edges.now (keys_of reach.now) own.old }
    requires cut { IsCutAt edges.now group.point (drop group.from numbers.now) (take group.from numbers.now) }
    requires own { AreOwn (keys_of reach.now) (λ o. own_of edges.now o numbers.now) own.old }
    ensures room { HaveLists edges.now (keys_of reach.now) own.new }
    ensures own { AreOwn (keys_of reach.now)
        (λ o. own_of edges.now o (drop group.to numbers.now) ++ own_of edges.now o (take group.from numbers.now)) own.new }
{
    for index in group.from..group.to {
        own.take_out(edges, reach, numbers.get(index), group.point);
    }
}
