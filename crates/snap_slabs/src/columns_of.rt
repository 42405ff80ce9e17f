//! The columns that a segment goes through.
ghost use Rattle.std.specs.Prelude.{◌≡◌, ◌≤◌, length};
ghost use Rattle.lay_point.specs.declared.point.Point.{Point};
ghost use Rattle.lay_point.specs.Rects.{grown};
ghost use Rattle.snap_pixels.specs.Order.{ArePointsRising};
ghost use Rattle.snap_slabs.specs.Columns.{HoldMet, is_lesser_point};

use lay_point::{Point, Rect};
use snap_pixels::{Segment, partition_from};

/// Returns where the centres begin, and where they end, from the least to the greatest column of the segment; in these
/// two columns only those that aren't below its box, or above it. Of an upright segment these are the ones between its
/// ends.
pub(crate) fn places(segment: &Segment, centres: &[Point]) -> (usize, usize)
    requires { ArePointsRising centres.now }
    ensures ordered { result.0 ≤ result.1 }
    ensures inside { result.1 ≤ length centres.now }
    ensures all { HoldMet centres.now segment.now.a segment.now.b result }
{
    let bounds = box_of(segment);
    let (low, high) = (bounds.low, bounds.high);
    let from = centres.partition_point(|centre: &Point| is_before(*centre, low));
    let to = centres.partition_point(|centre: &Point| !is_before(high, *centre));
    (from, to)
}

/// Returns what [`places`] does. The searches begin at the indices `near`, the lesser first; any will do.
///
/// # Cost
///
/// Tests in proportion to the logarithm of how far the places are from these indices; at most four times the
/// logarithm of the number of centres.
pub(crate) fn places_near(
    segment: &Segment,
    centres: &[Point],
    near: (usize, usize),
) -> (usize, usize)
    requires { ArePointsRising centres.now }
    ensures ordered { result.0 ≤ result.1 }
    ensures inside { result.1 ≤ length centres.now }
    ensures all { HoldMet centres.now segment.now.a segment.now.b result }
{
    let bounds = box_of(segment);
    let (low, high) = (bounds.low, bounds.high);
    let from = partition_from(centres.len(), near.0, |i| is_before(centres[i], low));
    let to = partition_from(centres.len(), near.1, |i| !is_before(high, centres[i]));
    (from, to)
}

/// Returns the box of the segment.
fn box_of(segment: &Segment) -> Rect
    ensures { result ≡ grown (record { low = segment.now.a; high = segment.now.a }) segment.now.b }
{
    let (a, b) = (segment.a(), segment.b());
    Rect::of(a).grown(b)
}

/// Returns whether `p` is before `q` in the order of points.
pub(crate) fn is_before(p: Point, q: Point) -> bool
    ensures { result ≡ is_lesser_point p q }
{
    p.x < q.x || (p.x == q.x && p.y < q.y)
}
