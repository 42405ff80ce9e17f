//! One path round all rings of a shape.
ghost use Rattle.std.specs.Prelude.{◌≡◌, ◌+◌, ◌++◌, ◌∷◌, ◌≤◌, ℤ, IfOk, OnOk, length, min, nat_le, sum_by};
ghost use Rattle.std.specs.List.{AllByRecursion};
ghost use Rattle.lay_point.specs.declared.ring.TheConstants.{MAX_RING_POINTS};
ghost use Rattle.lay_point.specs.Bridges.{bridged, further, round_all};
ghost use Rattle.lay_point.specs.Parity.{odd};
ghost use Rattle.lay_point.specs.RingEdges.{edges_of, edges_of_ring};
ghost use Rattle.lay_point.specs.Rings.{IsRing, closed};
ghost use Rattle.face_rings.specs.Paths.{added_len};

use lay_point::{MAX_RING_POINTS, NoMemory, Point, Ring, without_repeats};
use std::alloc::Global;

/// Returns the points of one closed path round all the rings. It goes round the first, then from that
/// ring's first point out to each further ring, round it and back. A point that equals the one before it
/// is dropped, then the last one where it equals the first. Of the path's edges the half line from any
/// place to the right crosses an odd number exactly where it crosses an odd number of the rings' edges.
/// The path of no rings is empty.
///
/// # Errors
///
/// `NoMemory`, if an allocation fails.
///
/// # Cost
///
/// A pass over the points.
pub fn bridge(alloc: Global, rings: &[Ring]) -> Result<Vec<Point>, NoMemory>
    ensures value { IfOk result (λ path. path.items ≡ bridged rings.now) }

    // The place (x, y) at scale k stands for (x / k, y / k) where 1 ≤ k; the law holds for all k.
    ensures parity { IfOk result (λ path.
        (k x y : ℤ) → odd (edges_of_ring path.items) k x y ≡ odd (edges_of rings.now) k x y) }
{
    let Some((first, others)) = rings.split_first() else {
        return Ok(Vec::new(alloc));
    };
    let path = joined(alloc, first.points(), others)?;
    without_repeats(alloc, path.as_slice())
}

/// Returns the path round the first ring and the others, with its repeats.
fn joined(alloc: Global, first: &[Point], others: &[Ring]) -> Result<Vec<Point>, NoMemory>
    requires { IsRing first.now }
    ensures { IfOk result (λ path. path.items ≡ round_all (first.now ∷ others.now)) }
{
    let mut path = first.to_vec(alloc)?;
    if !others.is_empty() {
        path.push(first[0])?;
        add_further(&mut path, first[0], others)?;
    }
    Ok(path)
}

/// Adds the ways round the rings, and back to the start between them.
fn add_further(path: &mut Vec<Point>, start: Point, rings: &[Ring]) -> Result<(), NoMemory>
    ensures { OnOk result (path.new.items ≡ path.old.items ++ further start rings.now) }
{
    let mut left = rings;
    while let Some((ring, behind)) = left.split_first() {
        add_closed(path, ring)?;
        if !behind.is_empty() {
            path.push(start)?;
        }
        left = behind;
    }
    Ok(())
}

/// Adds the ring's points, and its first point again.
fn add_closed(path: &mut Vec<Point>, ring: &Ring) -> Result<(), NoMemory>
    ensures { OnOk result (path.new.items ≡ path.old.items ++ closed ring.now) }
{
    path.extend_from_slice(ring.points())?;
    path.push(ring.points()[0])?;
    Ok(())
}

/// Returns whether the path round all the rings that [`bridge`] returns has at most `MAX_RING_POINTS`
/// points. They are counted, and the path isn't made.
pub fn is_path_short(rings: &[Ring]) -> bool
    ensures { result ≡ nat_le (length (bridged rings.now)) MAX_RING_POINTS }
{
    let Some((first, others)) = rings.split_first() else {
        return true;
    };
    let points = first.points();
    path_len(points[0], points.len(), others) <= MAX_RING_POINTS
}

/// Returns how many points the path has that goes round a ring of so many points from this start, then
/// round the others, or one more than a ring may have if that is less.
fn path_len(start: Point, first_len: usize, others: &[Ring]) -> usize
    requires { first_len ≤ MAX_RING_POINTS }
    ensures len { result ≡ min (first_len + sum_by (added_len start) others.now) (MAX_RING_POINTS + 1) }
    ensures rings { AllByRecursion IsRing others.now }
{
    let mut len = first_len;
    let mut left = others;
    while let Some((ring, behind)) = left.split_first() {
        len = (len + added_len(start, ring)).min(MAX_RING_POINTS + 1);
        left = behind;
    }
    len
}

/// Returns how many points a further ring adds to the path from this start.
fn added_len(start: Point, ring: &Ring) -> usize
    ensures len { result ≡ added_len start ring.now }
    ensures ring { IsRing ring.now }
{
    let points = ring.points();
    if points[0] == start {
        points.len()
    } else {
        points.len() + 2
    }
}
