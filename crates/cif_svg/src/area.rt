//! How much a shape covers.

use lay_point::{Point, Ring};

/// Returns twice the area inside the one path round the rings, as writers direct it: holes run the other way round.
pub(crate) fn double_area(rings: &[Ring]) -> u128 {
    let mut area: i128 = 0;
    for ring in rings {
        area = area.saturating_add(signed_area(ring.points()));
    }
    area.unsigned_abs()
}

/// Returns twice the area inside the ring; it is below 0 where the ring runs clockwise.
fn signed_area(points: &[Point]) -> i128 {
    let mut area: i128 = 0;
    let mut before = points.last().copied();
    for point in points {
        if let Some(before) = before {
            area = area.saturating_add(cross(before, *point));
        }
        before = Some(*point);
    }
    area
}

/// Returns twice the signed area of the triangle of the origin and two points.
fn cross(first: Point, second: Point) -> i128 {
    let rising = i128::from(first.x).saturating_mul(i128::from(second.y));
    let falling = i128::from(second.x).saturating_mul(i128::from(first.y));
    rising.saturating_sub(falling)
}
