//! Boxes round rings.

use crate::net::ordered_edge;
use lay_point::{Point, Rect};
use snap_pixels::area;

/// A box round a ring and round those that the ring lies in.
#[derive(Clone, Copy, Debug)]
pub(crate) struct Outline {
    bounds: Rect,
    /// Whether it is that of another ring in which the ring lies.
    pub is_nested: bool,
}

impl Outline {
    /// Returns the least box round these points.
    pub fn round(points: &[Point]) -> Outline {
        let mut bounds = Rect::of(points.first().copied().unwrap_or_default());
        for point in points {
            bounds = bounds.grown(*point);
        }
        Outline {
            bounds,
            is_nested: false,
        }
    }

    /// Returns the box as that of a ring that lies within its own.
    pub fn nested(self) -> Outline {
        Outline {
            is_nested: true,
            ..self
        }
    }

    /// Returns whether a place between these two lies in both boxes.
    pub fn meets(self, other: Outline, from: Point, to: Point) -> bool {
        let common = Rect {
            low: Point {
                x: self.bounds.low.x.max(other.bounds.low.x),
                y: self.bounds.low.y.max(other.bounds.low.y),
            },
            high: Point {
                x: self.bounds.high.x.min(other.bounds.high.x),
                y: self.bounds.high.y.min(other.bounds.high.y),
            },
        };
        is_met(common, from, to)
    }

    /// Returns whether a place between these two lies in the box.
    pub fn is_met(self, from: Point, to: Point) -> bool {
        is_met(self.bounds, from, to)
    }
}

/// Returns whether a place between these two lies in the box, which has no places where its corners are
/// the wrong way round.
fn is_met(bounds: Rect, from: Point, to: Point) -> bool {
    let (low, high) = (bounds.low, bounds.high);
    let (left, right) = ordered_edge(from, to);
    let wide = low.x <= high.x && left.x <= high.x && low.x <= right.x;
    let bottom = left.y.min(right.y);
    let top = left.y.max(right.y);
    let tall = low.y <= high.y && bottom <= high.y && low.y <= top;
    wide && tall && is_astride(bounds, left, right)
}

/// Returns whether not all corners are on one side of the line through the two places, of which the
/// second isn't to the left of the first.
fn is_astride(bounds: Rect, left: Point, right: Point) -> bool {
    let upper_left = Point {
        x: bounds.low.x,
        y: bounds.high.y,
    };
    let lower_right = Point {
        x: bounds.high.x,
        y: bounds.low.y,
    };
    let (above, below) = if left.y <= right.y {
        (upper_left, lower_right)
    } else {
        (bounds.high, bounds.low)
    };
    area(left, right, left, above) >= 0 && area(left, right, left, below) <= 0
}
