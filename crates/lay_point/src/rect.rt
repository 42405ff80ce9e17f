//! Boxes with sides along the axes, as they are round points, rings and edges.
ghost use Rattle.std.specs.Prelude.{◌≡◌};
ghost use Rattle.std.specs.Int.{int_max, int_min};
ghost use Rattle.lay_point.specs.Rects.{grown, is_up_to, touch};

use crate::point::Point;

/// A box with sides along the axes, its sides included.
#[derive(Clone, Copy, Debug, PartialEq, Eq)]
pub struct Rect {
    /// The lower left corner.
    pub low: Point,
    /// The upper right corner.
    pub high: Point,
}

impl Rect {
    /// Returns the box of this point alone.
    pub fn of(point: Point) -> Rect
        ensures { result ≡ record { low = point; high = point } }
    {
        Rect {
            low: point,
            high: point,
        }
    }

    /// Returns the least box that has the point too.
    pub fn grown(self, point: Point) -> Rect
        ensures { result ≡ grown self point }
    {
        Rect {
            low: lower_left(self.low, point),
            high: upper_right(self.high, point),
        }
    }

    /// Returns whether the boxes, their sides included, have a point in common.
    pub fn touches(self, other: Rect) -> bool
        ensures { result ≡ touch self other }
    {
        is_up_to(self.low, other.high) && is_up_to(other.low, self.high)
    }
}

/// Returns the lower left corner of the least box that has both points.
fn lower_left(a: Point, b: Point) -> Point
    ensures { result ≡ record { x = int_min a.x b.x; y = int_min a.y b.y } }
{
    Point {
        x: a.x.min(b.x),
        y: a.y.min(b.y),
    }
}

/// Returns the upper right corner of the least box that has both points.
fn upper_right(a: Point, b: Point) -> Point
    ensures { result ≡ record { x = int_max a.x b.x; y = int_max a.y b.y } }
{
    Point {
        x: a.x.max(b.x),
        y: a.y.max(b.y),
    }
}

/// Returns whether `low` is neither to the right of `high` nor above it.
fn is_up_to(low: Point, high: Point) -> bool
    ensures { result ≡ is_up_to low high }
{
    low.x <= high.x && low.y <= high.y
}
