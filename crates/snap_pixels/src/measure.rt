//! Ways in which places are more or less far.
ghost use Rattle.std.specs.Prelude.{◌≡◌, ◌^◌, pos, neg_ℤ, ◌*ℤ◌, ◌≤ℤ◌};
ghost use Rattle.lay_point.specs.declared.point.Point.{Point};
ghost use Rattle.snap_pixels.specs.Strips.{reach};

use crate::exact::difference;
use crate::segment::Segment;
use lay_point::Point;

/// A direction in the plane.
#[derive(Clone, Copy, Debug)]
pub(crate) struct Direction {
    pub x: i16,
    pub y: i16,
}

/// By what places are more or less far: by x, by y, or in a direction.
#[derive(Clone, Copy, Debug)]
pub(crate) enum Measure {
    Column,
    Row,
    Slanted(Direction),
}

impl Direction {
    /// Returns the direction across a segment, or nearly so.
    pub fn across(segment: &Segment) -> Direction {
        let (a, b) = (segment.a(), segment.b());
        let (x, y) = (difference(b.y, a.y), difference(a.x, b.x));
        let bits = 64 - (x.unsigned_abs() | y.unsigned_abs()).leading_zeros();
        let shift = bits.saturating_sub(15);
        Direction {
            x: i16::try_from(x.wrapping_shr(shift)).unwrap_or(0),
            y: i16::try_from(y.wrapping_shr(shift)).unwrap_or(0),
        }
    }
}

impl Measure {
    /// Returns how far the point is, times the length of the direction.
    pub fn of(self, point: Point) -> i64
        ensures { result ≡ reach self point }
    {
        match self {
            Measure::Column => i64::from(point.x),
            Measure::Row => i64::from(point.y),
            Measure::Slanted(direction) => times(direction.x, point.x)
                + times(direction.y, point.y),
        }
    }
}

/// Returns the product.
fn times(a: i16, b: i32) -> i64
    ensures value { result ≡ a *ℤ b }
    ensures low { neg_ℤ (pos (2 ^ 46)) ≤ℤ result }
    ensures high { result ≤ℤ pos (2 ^ 46) }
{
    i64::from(a) * i64::from(b)
}
