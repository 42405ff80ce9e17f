//! Edges that begin at a stop: what holds left of them, and the labels that are written for them.
ghost use Rattle.std.specs.Prelude.{
  ◌≡◌,
  ◌+◌,
  ◌++◌,
  ◌^◌,
  ◌<◌,
  ◌≤◌,
  ℕ,
  All,
  Contains,
  IfOk,
  OnOk,
  Some,
  drop,
  int_lt,
  length,
  slice_index,
  slice_range,
  take,
};
ghost use Rattle.snap_chains.specs.declared.owner.Owner.{Owner};
ghost use Rattle.face_rows.specs.Labels.{differs, owned_items};
ghost use Rattle.face_rows.specs.Lines.{edge_at, owned_item_at};
ghost use Rattle.face_rows.specs.Operations.{answer};
ghost use Rattle.face_rows.specs.Rows.{upward};
ghost use Rattle.face_rows.specs.Sound.{AreSound};
ghost use Rattle.face_sweep.specs.Counts.{AreCounts};
ghost use Rattle.face_sweep.specs.OwnRows.{AreOwn, AreRight, HasPutEdge, HaveLists, IsCutAt, own_of};
ghost use Rattle.face_sweep.specs.Reaches.{IsReach, keys_of};
ghost use Rattle.face_sweep.specs.Sides.{AreBehind, AreLeftOf, AreLefts, holds_beside, is_odd_in};
ghost use Rattle.face_sweep.specs.Stops.{BeginAt};
ghost use Rattle.face_labels.specs.RowSides.{AreSplit, HasLabel};

use crate::group::Group;
use face_rows::{Op, upward};
use face_sweep::{BlockList, Counts, LeftCounts, OwnRows, Reach, Sides};
use lay_point::Point;
use snap_chains::CleanEdges;
use std::alloc::AllocError;

/// Returns how many of the edges that begin at the point rise from it. They stand before a level one.
pub(crate) fn rising_count(edges: &CleanEdges, point: Point, begun: &[usize]) -> usize
    requires { BeginAt edges.now point begun.now }
    ensures { AreSplit edges.now point begun.now result }
{
    for index in 0..begun.len() {
        if !rises_above(edges, begun[index], point) {
            return index;
        }
    }
    begun.len()
}

/// Returns whether the upper end of the edge of this number is above the point.
fn rises_above(edges: &CleanEdges, number: usize, point: Point) -> bool
    requires { number < length edges.now.0 }
    ensures { result ≡ int_lt point.y (upward (edge_at edges.now number)).1.y }
{
    let (_, high) = upward(edges.edges()[number]);
    point.y < high.y
}

/// Writes the labels of level edges that begin at the point. Above them holds what the row's edges from the place `next`
/// on tell, which are all that are right of it. The lists of single shapes have none that ends there.
pub(crate) fn label_levels(
    edges: &CleanEdges,
    row: &BlockList<usize>,
    next: usize,
    levels: &[usize],
    point: Point,
    right: Counts,
    own: &OwnRows,
    reach: &Reach,
    op: Op,
    labels: &mut Vec<bool>,
)
    requires sound { AreSound edges.now }
    requires right { AreCounts right (is_odd_in edges.now (drop next row.now)) }
    requires reach { IsReach edges.now reach.now }
    requires room { HaveLists edges.now (keys_of reach.now) own.now }
    requires own { AreRight edges.now (keys_of reach.now) (Some point) (drop next row.now) own.now }
    requires levels { All (λ n. n < length edges.now.0) levels.now }
    requires beside { (n : ℕ) (o : Owner) → Contains levels.now n
        → is_odd_in edges.now (drop next row.now) o ≡ holds_beside edges.now n o }
    requires count { length labels.old.items ≡ length edges.now.0 }
    ensures count { length labels.new.items ≡ length edges.now.0 }
    ensures kept { (n : ℕ) → HasLabel op edges.now labels.old.items n → HasLabel op edges.now labels.new.items n }
    ensures labels { All (HasLabel op edges.now labels.new.items) levels.now }
{
    for index in 0..levels.len() {
        let number = levels[index];
        let label = level_label(edges, row, next, point, right, own, reach, number, op);
        labels[number] = label;
    }
}

/// Returns whether the operation's answers differ above and below a level edge, above which holds what the row's
/// edges from the place `next` on tell.
fn level_label(
    edges: &CleanEdges,
    row: &BlockList<usize>,
    next: usize,
    point: Point,
    right: Counts,
    own: &OwnRows,
    reach: &Reach,
    number: usize,
    op: Op,
) -> bool
    requires sound { AreSound edges.now }
    requires right { AreCounts right (is_odd_in edges.now (drop next row.now)) }
    requires reach { IsReach edges.now reach.now }
    requires room { HaveLists edges.now (keys_of reach.now) own.now }
    requires own { AreRight edges.now (keys_of reach.now) (Some point) (drop next row.now) own.now }
    requires number { number < length edges.now.0 }
    requires beside { (o : Owner) → is_odd_in edges.now (drop next row.now) o ≡ holds_beside edges.now number o }
    ensures { result ≡ differs (answer op) (owned_items edges.now) (owned_item_at edges.now number) }
{
    let sides = Sides::of(edges, row, next, right, reach, own, Some(point), number);
    sides.differs(op)
}

/// Finds what a row keeps beside the edges of the group, which begin at its point, in the room for that, and writes
/// their labels. So many shapes hold right of the group. The lists of single shapes have all edges of the line but these,
/// which are put in.
///
/// # Errors
///
/// `AllocError`, if an allocation fails, and where 2^32 shapes of an input hold.
pub(crate) fn find_begun(
    edges: &CleanEdges,
    numbers: &BlockList<usize>,
    group: Group,
    right: Counts,
    own: &mut OwnRows,
    reach: &Reach,
    op: Op,
    labels: &mut Vec<bool>,
    lefts: &mut Vec<LeftCounts>,
) -> Result<(), AllocError>
    requires sound { AreSound edges.now }
    requires reach { IsReach edges.now reach.now }
    requires order { group.from ≤ group.to }
    requires bound { group.to ≤ length numbers.now }
    requires given { All (λ n. n < length edges.now.0) numbers.now }
    requires behind { AreBehind edges.now (drop group.from numbers.now) }
    requires right { AreCounts right (is_odd_in edges.now (drop group.to numbers.now)) }
    requires room { HaveLists edges.now (keys_of reach.now) own.old }
    requires cut { IsCutAt edges.now group.point (drop group.from numbers.now) (take group.from numbers.now) }
    requires own { AreOwn (keys_of reach.now)
        (λ o. own_of edges.now o (drop group.to numbers.now) ++ own_of edges.now o (take group.from numbers.now)) own.old }
    requires count { length labels.old.items ≡ length edges.now.0 }
    ensures lefts { OnOk result (AreLefts edges.now (slice_range numbers.now group.from group.to) lefts.new.items) }
    ensures room { OnOk result (HaveLists edges.now (keys_of reach.now) own.new) }
    ensures own { OnOk result (AreOwn (keys_of reach.now) (λ o. own_of edges.now o numbers.now) own.new) }
    ensures count { length labels.new.items ≡ length edges.now.0 }
    ensures written { OnOk result ((n : ℕ) → HasLabel op edges.now labels.old.items n
        → HasLabel op edges.now labels.new.items n) }
    ensures labels { OnOk result ((k : ℕ) → group.from ≤ k → k < group.to
        → HasLabel op edges.now labels.new.items (slice_index numbers.now k)) }
{
    lefts.clear();
    let mut right = right;
    let mut index = group.to;
    while index > group.from {
        index -= 1;
        right = find_labelled(
            edges,
            numbers,
            index,
            group.point,
            right,
            own,
            reach,
            op,
            labels,
        )?;
        let left = LeftCounts::of(right)?;
        lefts.push(left)?;
    }
    lefts.reverse();
    Ok(())
}

/// Returns how many shapes hold left of the edge at this index, which begins at the point and right of which so many
/// hold, and writes its label. It comes to the lists of single shapes.
///
/// # Errors
///
/// `AllocError`, if an allocation fails.
fn find_labelled(
    edges: &CleanEdges,
    numbers: &BlockList<usize>,
    index: usize,
    point: Point,
    right: Counts,
    own: &mut OwnRows,
    reach: &Reach,
    op: Op,
    labels: &mut Vec<bool>,
) -> Result<Counts, AllocError>
    requires sound { AreSound edges.now }
    requires reach { IsReach edges.now reach.now }
    requires index { index < length numbers.now }
    requires few { index + 1 < 2 ^ 64 }
    requires given { All (λ n. n < length edges.now.0) numbers.now }
    requires beside { (o : Owner) → is_odd_in edges.now (drop (index + 1) numbers.now) o
        ≡ holds_beside edges.now (slice_index numbers.now index) o }
    requires right { AreCounts right (is_odd_in edges.now (drop (index + 1) numbers.now)) }
    requires room { HaveLists edges.now (keys_of reach.now) own.old }
    requires own { AreRight edges.now (keys_of reach.now) (Some point) (drop (index + 1) numbers.now) own.old }
    requires count { length labels.old.items ≡ length edges.now.0 }
    ensures left { IfOk result (AreLeftOf edges.now (slice_index numbers.now index)) }
    ensures room { OnOk result (HaveLists edges.now (keys_of reach.now) own.new) }
    ensures put { OnOk result
        (HasPutEdge edges.now (keys_of reach.now) (Some point) (slice_index numbers.now index) own.old own.new) }
    ensures count { length labels.new.items ≡ length edges.now.0 }
    ensures written { OnOk result ((n : ℕ) → HasLabel op edges.now labels.old.items n
        → HasLabel op edges.now labels.new.items n) }
    ensures label { OnOk result (HasLabel op edges.now labels.new.items (slice_index numbers.now index)) }
{
    let number = numbers.get(index);
    let sides = Sides::of(
        edges,
        numbers,
        index + 1,
        right,
        reach,
        own,
        Some(point),
        number,
    );
    labels[number] = sides.differs(op);
    own.put(edges, reach, number, Some(point))?;
    Ok(sides.left())
}
