//! Common points of two segments.
ghost use Rattle.std.specs.Prelude.{◌≡◌, ◌↔◌, ℤ, pos, ◌≤ℤ◌, ◌<ℤ◌, IsTrue, Some};
ghost use Rattle.lay_point.specs.declared.point.Point.{Point};
ghost use Rattle.snap_pixels.specs.Boxes.{IsWithinEnds};
ghost use Rattle.snap_pixels.specs.Segments.{Crosses, cross};

use crate::boxes::boxes_are_apart;
use crate::exact::area;
use crate::rounding::rounded;
use crate::segment::Segment;
use lay_point::Point;

/// Returns the centre of the pixel of the common point of two segments that aren't parallel, or
/// `None` where they have none.
pub fn crossing(first: &Segment, second: &Segment) -> Option<Point>
    ensures { (p : Point)
        → Crosses first.now.a first.now.b second.now.a second.now.b p ↔ (result ≡ Some p) }
{
    let (a, b) = (first.a(), first.b());
    let (c, d) = (second.a(), second.b());
    if boxes_are_apart(a, b, c, d) {
        return None;
    }
    if a.y == b.y && c.x == d.x {
        return level_crossing(first, second);
    }
    if a.x == b.x && c.y == d.y {
        return level_crossing(second, first);
    }
    let turn = area(a, b, c, d);
    if turn > 0 {
        return left_crossing(a, b, c, d);
    }
    if turn < 0 {
        return left_crossing(a, b, d, c);
    }
    None
}

/// Returns the common point of a level segment and an upright one. It is a whole point.
fn level_crossing(level: &Segment, upright: &Segment) -> Option<Point>
    requires level { level.now.a.y ≡ level.now.b.y }
    requires upright { upright.now.a.x ≡ upright.now.b.x }
    ensures { (p : Point)
        → Crosses level.now.a level.now.b upright.now.a upright.now.b p ↔ (result ≡ Some p) }
{
    let (a, b) = (level.a(), level.b());
    let (c, d) = (upright.a(), upright.b());
    if !is_between_columns(c, a, b) {
        return None;
    }
    if !is_between_rows(a, c, d) {
        return None;
    }
    Some(corner(c, a))
}

/// Returns whether x of a point is that of one of two others, or between these.
fn is_between_columns(at: Point, one: Point, other: Point) -> bool
    ensures { IsTrue result ↔ IsWithinEnds at.x one.x other.x }
{
    (one.x <= at.x && at.x <= other.x) || (other.x <= at.x && at.x <= one.x)
}

/// Returns whether y of a point is that of one of two others, or between these.
fn is_between_rows(at: Point, one: Point, other: Point) -> bool
    ensures { IsTrue result ↔ IsWithinEnds at.y one.y other.y }
{
    (one.y <= at.y && at.y <= other.y) || (other.y <= at.y && at.y <= one.y)
}

/// Returns the point in the column of the one point and in the row of the other.
fn corner(column: Point, row: Point) -> Point
    ensures x { result.x ≡ column.x }
    ensures y { result.y ≡ row.y }
{
    Point {
        x: column.x,
        y: row.y,
    }
}

/// Returns what `crossing` does, for a segment from `c` to `d` that turns left from the one from `a`
/// to `b`.
fn left_crossing(a: Point, b: Point, c: Point, d: Point) -> Option<Point>
    requires { pos 0 <ℤ cross a b c d }
    ensures { (p : Point) → Crosses a b c d p ↔ (result ≡ Some p) }
{
    let scale = area(a, b, c, d);
    let on_first = area(a, c, c, d);
    let on_second = area(a, c, a, b);
    if !is_fraction(on_first, scale) {
        return None;
    }
    if !is_fraction(on_second, scale) {
        return None;
    }
    Some(Point {
        x: rounded(a.x, b.x, on_first, scale),
        y: rounded(a.y, b.y, on_first, scale),
    })
}

/// Returns whether `part / scale` is from 0 to 1.
fn is_fraction(part: i128, scale: i128) -> bool
    ensures { IsTrue result ↔ ((pos 0 ≤ℤ part) × (part ≤ℤ scale)) }
{
    0 <= part && part <= scale
}
