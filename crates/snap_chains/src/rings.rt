//! Rounded rings: the chains of their sides, joined.
ghost use Rattle.std.specs.Prelude.{◌≡◌, ◌≢◌, ◌++◌, Contains, IfOk, OnOk, map};
ghost use Rattle.lay_point.specs.declared.point.Point.{Point};
ghost use Rattle.lay_point.specs.Rings.{IsRing, NeighboursDiffer};
ghost use Rattle.snap_pixels.specs.Hot.{AreHotCentres};
ghost use Rattle.lay_point.specs.Rising.{pairs};
ghost use Rattle.snap_edge_laws.specs.Rounding.{IsRoundedPath, closed_walk, tail};
ghost use Rattle.snap_chains.specs.Sides.{segment_ends};

use crate::chains::chain;
use lay_point::{NoMemory, Point};
use snap_pixels::{HotSet, Segment};
use std::alloc::{AllocError, Global};

/// Returns the rounded ring, its first point again at its end: the chains of its sides, joined. `hot`
/// are the hot pixels of all the segments, of which the sides are some.
///
/// Source: Hobby, Practical segment intersection with finite precision output, 1999.
///
/// # Errors
///
/// `NoMemory`, if an allocation fails.
///
/// # Cost
///
/// That of `chain` for each side.
pub fn round_ring(
    alloc: Global,
    _segments: &[Segment],
    hot: &HotSet,
    ring: &[Point],
) -> Result<Vec<Point>, NoMemory>
    requires hot { AreHotCentres _segments.now hot.now }
    requires ring { IsRing ring.now }
    requires sides { (e : Point × Point) → Contains (pairs (closed_walk ring.now)) e → Contains (map segment_ends _segments.now) e }
    ensures { IfOk result (λ walk. IsRoundedPath _segments.now (closed_walk ring.now) walk.items) }
{
    let mut walk = Vec::new(alloc);
    let Some((first, _)) = ring.split_first() else {
        return Ok(walk);
    };
    walk.push(*first)?;
    let sides = ring_sides(alloc, ring)?;
    for side in sides.as_slice() {
        let points = chain(alloc, side, hot)?;
        extend_by_rest(&mut walk, points.as_slice())?;
    }
    Ok(walk)
}

/// Returns the sides of the ring: from each point to the next, and from the last to the first.
///
/// # Errors
///
/// `NoMemory`, if an allocation fails.
///
/// # Cost
///
/// A pass over the points.
pub fn ring_sides(alloc: Global, ring: &[Point]) -> Result<Vec<Segment>, NoMemory>
    requires { NeighboursDiffer (closed_walk ring.now) }
    ensures { IfOk result (λ sides. map segment_ends sides.items ≡ pairs (closed_walk ring.now)) }
{
    let mut sides = Vec::with_capacity(alloc, ring.len())?;
    put_sides(&mut sides, ring)?;
    Ok(sides)
}

/// Puts the sides of the ring, as `ring_sides` returns them, in place of those that are there.
pub(crate) fn put_sides(sides: &mut Vec<Segment>, ring: &[Point]) -> Result<(), AllocError>
    requires { NeighboursDiffer (closed_walk ring.now) }
    ensures { OnOk result (map segment_ends sides.new.items ≡ pairs (closed_walk ring.now)) }
{
    sides.clear();
    let Some((first, later)) = ring.split_first() else {
        return Ok(());
    };
    let mut from = *first;
    for to in later {
        sides.push(side_between(from, *to))?;
        from = *to;
    }
    sides.push(side_between(from, *first))?;
    Ok(())
}

/// Returns the segment between two different points.
fn side_between(a: Point, b: Point) -> Segment
    requires { a ≢ b }
    ensures { segment_ends result ≡ (a, b) }
{
    Segment::new(a, b).unwrap()
}

/// Adds all points but the first.
fn extend_by_rest(walk: &mut Vec<Point>, points: &[Point]) -> Result<(), AllocError>
    ensures { OnOk result (walk.new.items ≡ walk.old.items ++ tail points.now) }
{
    if let Some((_, rest)) = points.split_first() {
        walk.extend_from_slice(rest)?;
    }
    Ok(())
}
