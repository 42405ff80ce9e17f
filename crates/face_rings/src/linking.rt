//! Linking of edges to rings.
ghost use Rattle.std.specs.Prelude.{
  ◌≡◌,
  ◌++◌,
  ◌&&◌,
  ◌∷◌,
  ◌<◌,
  ◌≤◌,
  All,
  Any,
  Bool,
  IfOk,
  IsErrOf,
  IsTrue,
  OnOk,
  [],
  count_by,
  false,
  length,
  map,
  slice_index_or,
  slice_set,
  suc,
  true,
  ℤ,
};
ghost use Rattle.lay_point.specs.declared.point.Point.{Point};
ghost use Rattle.lay_point.specs.declared.ring.TheConstants.{MAX_RING_POINTS as most};
ghost use Rattle.lay_point.specs.Edges.{IsEdgeBefore, touches, undirected};
ghost use Rattle.lay_point.specs.Parity.{odd, parity};
ghost use Rattle.lay_point.specs.Points.{is_in_range};
ghost use Rattle.lay_point.specs.RingEdges.{edges_of};
ghost use Rattle.lay_point.specs.Rings.{IsRing};
ghost use Rattle.lay_point.specs.Rising.{IsRising};
ghost use Rattle.face_rings.specs.Incidence.{IsFirstAt, IsIncidence, KeepsMarks, left_of};
ghost use Rattle.face_ring_laws.specs.Linked.{AreLinked};
ghost use Rattle.face_ring_laws.specs.Linking.{
  Ends,
  behind_first,
  first_ring,
  linked_rings,
  other_end,
  way,
};

use crate::fault::LinkFault;
use crate::incidence::{Incidence, Stop};
use lay_point::{Edge, MAX_RING_POINTS, NoMemory, Point, Ring};
use std::alloc::{AllocError, Global};

/// Returns the rings that the edges make: from the lesser end of the least edge left along it, at each
/// point along the least edge left there, up to the first return to the start; and so on until no edge is
/// left. The edges are in order, each once, and an even number of them stands at each point.
///
/// The rings go each edge once, and no other. So the half line from any place to the right crosses an odd
/// number of the rings' edges exactly where it crosses an odd number of the edges. The work grows with the
/// number of edges, and little more.
///
/// # Errors
///
/// `TooMany`, if a ring has more points than a ring may have; `NoMemory`, if an allocation fails.
pub fn link(alloc: Global, edges: &[Edge]) -> Result<Vec<Ring>, LinkFault>
    requires rising { IsRising IsEdgeBefore edges.now }
    requires in_range { All (λ e. IsTrue (is_in_range e.0 && is_in_range e.1)) edges.now }
    requires even { (v : Point) → parity (touches v) edges.now ≡ false }
    ensures value { IfOk result (λ rings. rings.items ≡ linked_rings edges.now) }
    ensures linked { IfOk result (λ rings. AreLinked edges.now [] rings.items) }

    // For each test as many of the rings' edges pass as of the edges.
    ensures once { IfOk result (λ rings. (test : Ends → Bool) →
        count_by test (map undirected (edges_of rings.items)) ≡ count_by test edges.now) }

    // The place (x, y) at scale k stands for (x / k, y / k) where 1 ≤ k; the law holds for all k.
    ensures parity { IfOk result (λ rings.
        (k x y : ℤ) → odd (edges_of rings.items) k x y ≡ odd edges.now k x y) }
    ensures short { OnOk result (All (λ ring. length ring ≤ most) (linked_rings edges.now)) }
    ensures too_many { IsErrOf result LinkFault.TooMany → Any (λ ring. most < length ring) (linked_rings edges.now) }
{
    let mut unused = Incidence::new(alloc, edges)?;
    let mut points = Vec::new(alloc);
    let mut rings = Vec::new(alloc);
    for number in 0..edges.len() {
        if !unused.used[number] {
            let ring = next_ring(alloc, edges, &mut unused, number, &mut points)?;
            rings.push(ring)?;
        }
    }
    Ok(rings)
}

/// Returns the ring that begins with the edge of this number, the first that isn't used. Its points are
/// gathered in `points`, in place of what they were.
fn next_ring(
    alloc: Global,
    edges: &[Edge],
    unused: &mut Incidence,
    number: usize,
    points: &mut Vec<Point>,
) -> Result<Ring, LinkFault>
    requires sound { IsIncidence edges.now unused.old }
    requires inside { number < length edges.now }
    requires first { (d : Ends) → left_of edges.now unused.old.used.items
        ≡ slice_index_or edges.now number d ∷ left_of edges.now (slice_set unused.old.used.items number true) }
    requires ring { length (first_ring (left_of edges.now unused.old.used.items)) ≤ most
        → IsRing (first_ring (left_of edges.now unused.old.used.items)) }
    ensures sound { IsIncidence edges.now unused.new }
    ensures kept { KeepsMarks unused.old.used.items unused.new.used.items }
    ensures marked { OnOk result (slice_index_or unused.new.used.items number true ≡ true) }
    ensures ring { IfOk result (λ r. r ≡ first_ring (left_of edges.now unused.old.used.items)) }
    ensures left { OnOk result (left_of edges.now unused.new.used.items
        ≡ behind_first (left_of edges.now unused.old.used.items)) }
    ensures short { OnOk result (length (first_ring (left_of edges.now unused.old.used.items)) ≤ most) }
    ensures too_many { IsErrOf result LinkFault.TooMany
        → most < length (first_ring (left_of edges.now unused.old.used.items)) }
{
    walk_ring(edges, unused, number, points)?;
    if points.len() > MAX_RING_POINTS {
        return Err(LinkFault::TooMany);
    }
    Ring::new(alloc, points).map_err(|_| LinkFault::NoMemory)
}

/// Makes `points` those of the ring that begins with the edge of this number, the first that isn't used.
fn walk_ring(
    edges: &[Edge],
    unused: &mut Incidence,
    number: usize,
    points: &mut Vec<Point>,
) -> Result<(), NoMemory>
    requires sound { IsIncidence edges.now unused.old }
    requires inside { number < length edges.now }
    requires first { (d : Ends) → left_of edges.now unused.old.used.items
        ≡ slice_index_or edges.now number d ∷ left_of edges.now (slice_set unused.old.used.items number true) }
    ensures sound { IsIncidence edges.now unused.new }
    ensures kept { KeepsMarks unused.old.used.items unused.new.used.items }
    ensures marked { OnOk result (slice_index_or unused.new.used.items number true ≡ true) }
    ensures points { OnOk result (points.new.items ≡ first_ring (left_of edges.now unused.old.used.items)) }
    ensures left { OnOk result (left_of edges.now unused.new.used.items
        ≡ behind_first (left_of edges.now unused.old.used.items)) }
{
    let first = edges[number];
    unused.used[number] = true;
    points.clear();
    points.push(first.low())?;
    let stop = unused.high_stop(edges, number);
    walk_back(edges, unused, first.low(), stop, points)?;
    Ok(())
}

/// Adds the points from this stop up to the first return to the start.
fn walk_back(
    edges: &[Edge],
    unused: &mut Incidence,
    start: Point,
    stop: Stop,
    points: &mut Vec<Point>,
) -> Result<(), AllocError>
    requires sound { IsIncidence edges.now unused.old }
    requires first { IsFirstAt unused.old.ends.items stop.at stop.first }
    ensures sound { IsIncidence edges.now unused.new }
    ensures kept { KeepsMarks unused.old.used.items unused.new.used.items }
    ensures points { OnOk result (let left = left_of edges.now unused.old.used.items in
        points.new.items ≡ points.old.items ++ (way (suc (length left)) start stop.at left).0) }
    ensures left { OnOk result (let left = left_of edges.now unused.old.used.items in
        left_of edges.now unused.new.used.items ≡ (way (suc (length left)) start stop.at left).1) }
{
    let mut stop = stop;
    while stop.at != start {
        points.push(stop.at)?;
        let Some(number) = unused.take_at(edges, stop) else {
            return Ok(());
        };
        stop = other_stop(edges, unused, number, stop.at);
    }
    Ok(())
}

/// Returns the stop at the end of the edge that `at` isn't.
fn other_stop(edges: &[Edge], unused: &Incidence, number: usize, at: Point) -> Stop
    requires sound { IsIncidence edges.now unused.now }
    requires inside { number < length edges.now }
    ensures point { (d : Ends) → result.at ≡ other_end at (slice_index_or edges.now number d) }
    ensures first { IsFirstAt unused.now.ends.items result.at result.first }
{
    let edge = edges[number];
    if edge.low() == at {
        unused.high_stop(edges, number)
    } else {
        unused.low_stop(edges, number)
    }
}
