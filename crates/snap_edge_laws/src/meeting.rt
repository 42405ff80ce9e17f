//! The test of two edges. Those that aren't parallel have one common place at most, and parallel ones
//! either none, or all between the greater of their lesser ends and the lesser of their greater ones.
ghost use Rattle.std.specs.Prelude.{◌≡◌, ◌≢◌, ◌↔◌, pos, IsTrue};
ghost use Rattle.lay_point.specs.Edges.{is_before};
ghost use Rattle.lay_point.specs.declared.point.Point.{Point};
ghost use Rattle.lay_point.specs.Points.{IsBefore};
ghost use Rattle.snap_pixels.specs.Segments.{AreParallel, cross};
ghost use Rattle.snap_edge_laws.specs.Edges.{IsEndpoint};
ghost use Rattle.snap_edge_laws.specs.Meeting.{HaveCommon, MeetAtEnds, ShareEnd};

use lay_point::{Edge, Point};
use snap_pixels::{Segment, area, crossing as crossing_centre};

/// Returns whether two different edges have no place in common but a point that is an end of both.
pub fn meet_at_ends(e: Edge, f: Edge) -> bool
    requires { e ≢ f }
    ensures { IsTrue result ↔ MeetAtEnds e f }
{
    ends_meet(e.low(), e.high(), f.low(), f.high())
}

/// Returns whether the edges from `a` to `b` and from `c` to `d` have no place in common but a point
/// that is an end of both.
fn ends_meet(a: Point, b: Point, c: Point, d: Point) -> bool
    requires first { IsTrue (is_before a b) }
    requires second { IsTrue (is_before c d) }
    requires two { ¬ ((a ≡ c) × (b ≡ d)) }
    ensures { IsTrue result ↔ MeetAtEnds (a, b) (c, d) }
{
    if !comes_before(c, b) {
        return true;
    }
    if !comes_before(a, d) {
        return true;
    }
    if are_parallel(a, b, c, d) {
        return !are_parallel(a, b, a, c);
    }
    if share_end(a, b, c, d) {
        return true;
    }
    !cross_somewhere(a, b, c, d)
}

/// Returns whether `p` is before `q` in the order of points.
fn comes_before(p: Point, q: Point) -> bool
    ensures { result ≡ is_before p q }
{
    p.x < q.x || (p.x == q.x && p.y < q.y)
}

/// Returns whether the ways from `a` to `b` and from `c` to `d` are parallel.
fn are_parallel(a: Point, b: Point, c: Point, d: Point) -> bool
    ensures { IsTrue result ↔ AreParallel a b c d }
{
    area(a, b, c, d) == 0
}

/// Returns whether the edges from `a` to `b` and from `c` to `d` have a common end.
fn share_end(a: Point, b: Point, c: Point, d: Point) -> bool
    ensures { IsTrue result ↔ ShareEnd a b c d }
{
    is_end(a, c, d) || is_end(b, c, d)
}

/// Returns whether `v` is an end of the edge from `c` to `d`.
fn is_end(v: Point, c: Point, d: Point) -> bool
    ensures { IsTrue result ↔ IsEndpoint v c d }
{
    v == c || v == d
}

/// Returns whether two edges that aren't parallel have a common place.
fn cross_somewhere(a: Point, b: Point, c: Point, d: Point) -> bool
    requires first { a ≢ b }
    requires second { c ≢ d }
    requires slanted { ¬ AreParallel a b c d }
    ensures { IsTrue result ↔ HaveCommon a b c d }
{
    let first = Segment::new(a, b).unwrap();
    let second = Segment::new(c, d).unwrap();
    crossing_centre(&first, &second).is_some()
}
