//! The rows that a segment reaches within some columns.
ghost use Rattle.std.specs.Prelude.{◌≤ℤ◌, ◌<ℤ◌, ◌-ℤ◌, ◌^◌, ◌≡◌, ◌≤◌, pos, int_lt, Contains, length};
ghost use Rattle.lay_point.specs.declared.point.Point.{Point};
ghost use Rattle.snap_pixels.specs.Order.{ArePointsRising};
ghost use Rattle.snap_pixels.specs.Segments.{Meets, cross};
ghost use Rattle.snap_slabs.specs.Clips.{IsSlack, is_off};
ghost use Rattle.snap_slabs.specs.Columns.{HoldMet};

use lay_point::Point;
use snap_pixels::{Segment, area};

/// Returns where the centres begin that the segment may meet, and where they end. Both are turned, and all
/// centres are between two columns: left out are those in rows that it doesn't reach there.
pub(crate) fn reached(segment: &Segment, low: i32, high: i32, centres: &[Point]) -> (usize, usize)
    requires rising { ArePointsRising centres.now }
    requires columns { (c : Point) → Contains centres.now c → (low ≤ℤ c.y) × (c.y ≤ℤ high) }
    ensures inside { result.1 ≤ length centres.now }
    ensures all { HoldMet centres.now segment.now.a segment.now.b result }
{
    let (a, b) = forward(segment);
    let slack = slack(a, b);
    let from = centres.partition_point(|centre: &Point| is_off(a, b, slack, low, high, *centre));
    let to = centres.partition_point(|centre: &Point| !is_off(b, a, slack, low, high, *centre));
    (from, to)
}

/// Returns the ends of the segment, the one in the lesser column first.
fn forward(segment: &Segment) -> (Point, Point)
    ensures ordered { result.0.y ≤ℤ result.1.y }
    ensures same { (c : Point) → Meets segment.now.a segment.now.b c → Meets result.0 result.1 c }
{
    let (a, b) = (segment.a(), segment.b());
    if a.y <= b.y {
        return (a, b);
    }
    (b, a)
}

/// Returns the sum of the ways from `a` to `b`. It is as great as the area that a segment spans with the
/// centre of a pixel that it meets, which is within half a unit of it along x and along y.
fn slack(a: Point, b: Point) -> i128
    ensures { IsSlack a b result }
{
    i128::from(distance(a.x, b.x) + distance(a.y, b.y))
}

/// Returns how far one coordinate is from another.
fn distance(a: i32, b: i32) -> i64
    ensures up { (b -ℤ a) ≤ℤ result }
    ensures down { (a -ℤ b) ≤ℤ result }
    ensures low { pos 0 ≤ℤ result }
    ensures high { result <ℤ pos (2 ^ 32) }
{
    if a < b {
        return i64::from(b) - i64::from(a);
    }
    i64::from(a) - i64::from(b)
}

/// Returns whether the row of `centre` is on the right of the way from `a` to `b` in two columns, and so in
/// those between them, by more than the slack.
fn is_off(a: Point, b: Point, slack: i128, low: i32, high: i32, centre: Point) -> bool
    ensures { result ≡ is_off a b slack low high centre }
{
    is_right(a, b, slack, centre.x, low) && is_right(a, b, slack, centre.x, high)
}

/// Returns whether the point at these coordinates is on the right of the way from `a` to `b` by more than
/// the slack.
fn is_right(a: Point, b: Point, slack: i128, x: i32, y: i32) -> bool
    ensures { result ≡ int_lt slack (cross a b a (record { x = x; y = y })) }
{
    slack < area(a, b, a, Point { x, y })
}
