//! The shapes that hold on the two sides of an edge.
ghost use Rattle.std.specs.Prelude.{◌≡◌, ◌<◌, true, drop, length};
ghost use Rattle.lay_point.specs.Parity.{xor};
ghost use Rattle.snap_chains.specs.declared.owner.Owner.{Owner};
ghost use Rattle.snap_chains.specs.Rounded.{is_owner_listed};
ghost use Rattle.face_rows.specs.Lines.{owners_at};
ghost use Rattle.face_rows.specs.Sound.{AreSound};
ghost use Rattle.face_sweep.specs.Counts.{AreCounts};
ghost use Rattle.face_sweep.specs.OwnRows.{AreRight, HaveLists, TellBeside};
ghost use Rattle.face_sweep.specs.Reaches.{IsReach, keys_of};
ghost use Rattle.face_sweep.specs.Sides.{
  AreBehind,
  AreLefts,
  AreSidesOf,
  IsDifference,
  holds_beside,
  is_odd_in,
};

use crate::block_list::BlockList;
use crate::counts::{Counts, LeftCounts};
use crate::extent::told_by;
use crate::own_rows::OwnRows;
use crate::reach::Reach;
use crate::turns::Turn;
use face_rows::Op;
use lay_point::Point;
use snap_chains::{CleanEdges, Owner};

/// How many shapes hold on each side of an edge.
#[derive(Debug, Drop)]
pub struct Sides {
    /// Those right of the edge, or above it if it is level.
    pub(crate) right: Counts,
    /// Those left of it, or below.
    pub(crate) left: Counts,
}

impl Sides {
    /// Returns the sides of the edge of this number, right of which so many shapes hold. Right of it in its row are the
    /// edges from the place `next` on. Of the lists of single shapes these have the edges that aren't left of the point, or all if there
    /// is no point.
    ///
    /// # Cost
    ///
    /// Of an edge on the border of its owner's box nothing is sought. Of each other owner its own edges in the
    /// row are searched for the point.
    pub fn of(
        edges: &CleanEdges,
        row: &BlockList<usize>,
        next: usize,
        right: Counts,
        reach: &Reach,
        own: &OwnRows,
        point: Option<Point>,
        number: usize,
    ) -> Sides
        requires sound { AreSound edges.now }
        requires number { number < length edges.now.0 }
        requires right { AreCounts right (is_odd_in edges.now (drop next row.now)) }
        requires reach { IsReach edges.now reach.now }
        requires room { HaveLists edges.now (keys_of reach.now) own.now }
        requires own { AreRight edges.now (keys_of reach.now) point (drop next row.now) own.now }
        requires beside { (o : Owner) → is_odd_in edges.now (drop next row.now) o ≡ holds_beside edges.now number o }
        ensures { AreSidesOf (owners_at edges.now number) (is_odd_in edges.now (drop next row.now)) result }
    {
        let left = left_counts(edges, row, next, reach, own, point, number, right);
        Sides { right, left }
    }

    /// Returns how many shapes hold left of the edge.
    pub fn left(&self) -> Counts
        ensures { result ≡ self.now.left }
    {
        self.left
    }

    /// Returns whether the operation's answers on the two sides differ.
    pub fn differs(&self, op: Op) -> bool
        ensures { IsDifference op self.now result }
    {
        self.right.answer(op) != self.left.answer(op)
    }
}

/// Returns how many shapes hold before the place `next` of a row: left of the edge there, beside which the row keeps it, or
/// right of all edges.
pub fn counts_before(
    _edges: &CleanEdges,
    _row: &BlockList<usize>,
    lefts: &BlockList<LeftCounts>,
    next: usize,
) -> Counts
    requires behind { AreBehind _edges.now (drop next _row.now) }
    requires lefts { AreLefts _edges.now (drop next _row.now) (drop next lefts.now) }
    ensures { AreCounts result (is_odd_in _edges.now (drop next _row.now)) }
{
    if next < lefts.len() {
        lefts.get(next).counts()
    } else {
        Counts::none()
    }
}

/// Returns how many shapes hold left of the edge of this number, right of which these do.
fn left_counts(
    edges: &CleanEdges,
    _row: &BlockList<usize>,
    _next: usize,
    reach: &Reach,
    own: &OwnRows,
    point: Option<Point>,
    number: usize,
    right: Counts,
) -> Counts
    requires sound { AreSound edges.now }
    requires number { number < length edges.now.0 }
    requires reach { IsReach edges.now reach.now }
    requires room { HaveLists edges.now (keys_of reach.now) own.now }
    requires own { AreRight edges.now (keys_of reach.now) point (drop _next _row.now) own.now }
    requires beside { (o : Owner) → is_odd_in edges.now (drop _next _row.now) o ≡ holds_beside edges.now number o }
    requires right { AreCounts right (is_odd_in edges.now (drop _next _row.now)) }
    ensures { AreCounts result (λ o. xor (is_owner_listed o (owners_at edges.now number)) (is_odd_in edges.now (drop _next _row.now) o)) }
{
    match reach.turns[number] {
        Turn::Told { input, holds } => right.turned_in(input, holds),
        Turn::Traced { input, index } => {
            let holds = own.holds_in(edges, index as usize, point);
            right.turned_in(input, holds)
        }
        Turn::Sought => turned_by_owners(edges, _row, _next, reach, own, point, number, right),
    }
}

/// Returns the counts once each owner of the edge of this number is turned.
fn turned_by_owners(
    edges: &CleanEdges,
    _row: &BlockList<usize>,
    _next: usize,
    reach: &Reach,
    own: &OwnRows,
    point: Option<Point>,
    number: usize,
    right: Counts,
) -> Counts
    requires sound { AreSound edges.now }
    requires number { number < length edges.now.0 }
    requires reach { IsReach edges.now reach.now }
    requires room { HaveLists edges.now (keys_of reach.now) own.now }
    requires own { AreRight edges.now (keys_of reach.now) point (drop _next _row.now) own.now }
    requires beside { (o : Owner) → is_odd_in edges.now (drop _next _row.now) o ≡ holds_beside edges.now number o }
    requires right { AreCounts right (is_odd_in edges.now (drop _next _row.now)) }
    ensures { AreCounts result (λ o. xor (is_owner_listed o (owners_at edges.now number)) (is_odd_in edges.now (drop _next _row.now) o)) }
{
    let mut left = right;
    for owner in edges.owners(number) {
        let holds = holds_beside(edges, reach, own, point, number, *owner);
        left = left.turned(*owner, holds);
    }
    left
}

/// Returns whether the shape holds right of the edge of this number, which it owns: as its box tells, or else
/// how many of its edges are right of it.
fn holds_beside(
    edges: &CleanEdges,
    reach: &Reach,
    own: &OwnRows,
    point: Option<Point>,
    number: usize,
    owner: Owner,
) -> bool
    requires sound { AreSound edges.now }
    requires given { number < length edges.now.0 }
    requires listed { is_owner_listed owner (owners_at edges.now number) ≡ true }
    requires reach { IsReach edges.now reach.now }
    requires room { HaveLists edges.now (keys_of reach.now) own.now }
    requires own { TellBeside edges.now (keys_of reach.now) point number own.now }
    ensures { result ≡ holds_beside edges.now number owner }
{
    match told_by(reach.boxes.extent(owner), edges.edges()[number]) {
        Some(holds) => holds,
        None => own.holds_right(edges, reach, owner, point),
    }
}
