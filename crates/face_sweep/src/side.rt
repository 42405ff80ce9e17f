//! On which side of a point an edge is, exactly.
ghost use Rattle.std.specs.Prelude.{◌≡◌, ◌^◌, pos, neg_ℤ, ◌-ℤ◌, ◌*ℤ◌, ◌≤ℤ◌, int_lt};
ghost use Rattle.std.specs.Ordering.{int_cmp};
ghost use Rattle.lay_point.specs.Parity.{distance_right};
ghost use Rattle.face_rows.specs.Rows.{upward};

use face_rows::upward;
use lay_point::{Edge, Point};
use std::cmp::Ordering;

/// Returns on which side of the line from `low` to `high` the point is, from left to right: less if it is left of
/// the line. Each of the two products that are compared needs up to 66 bits.
fn wide_side_of(low: Point, high: Point, point: Point) -> Ordering
    ensures { result ≡ int_cmp ((point.x -ℤ low.x) *ℤ (high.y -ℤ low.y)) ((point.y -ℤ low.y) *ℤ (high.x -ℤ low.x)) }
{
    let across = wide_product(wide_way(low.x, point.x), wide_way(low.y, high.y));
    let along = wide_product(wide_way(low.y, point.y), wide_way(low.x, high.x));
    across.cmp(&along)
}

/// Returns the way from one coordinate to another.
fn wide_way(from: i32, to: i32) -> i64
    ensures value { result ≡ to -ℤ from }
    ensures low { neg_ℤ (pos (2 ^ 32)) ≤ℤ result }
    ensures high { result ≤ℤ pos (2 ^ 32) }
{
    i64::from(to) - i64::from(from)
}

/// Returns the product of two ways.
fn wide_product(first: i64, second: i64) -> i128
    requires first_low { neg_ℤ (pos (2 ^ 32)) ≤ℤ first }
    requires first_high { first ≤ℤ pos (2 ^ 32) }
    requires second_low { neg_ℤ (pos (2 ^ 32)) ≤ℤ second }
    requires second_high { second ≤ℤ pos (2 ^ 32) }
    ensures { result ≡ first *ℤ second }
{
    i128::from(first) * i128::from(second)
}

/// Returns whether the edge is left of the point, at its height.
pub(crate) fn is_left_of(edge: Edge, point: Point) -> bool
    ensures { result ≡ int_lt (distance_right (pos 1) point.x point.y (upward edge).0 (upward edge).1) (pos 0) }
{
    let (low, high) = upward(edge);
    wide_side_of(low, high, point).is_gt()
}
