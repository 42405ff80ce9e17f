//! Corners and sides of rings.

use lay_point::Point;
use snap_pixels::area;

/// A corner of a ring. Corners are in order from left to right, and upward where they are above one another.
#[derive(Clone, Copy, Debug, PartialEq, Eq, PartialOrd, Ord)]
pub(crate) struct Corner {
    pub at: Point,
    /// The number of its ring.
    pub ring: usize,
    /// The number of its stop in the walk.
    pub stop: usize,
}

impl Corner {
    /// Returns a corner there of no ring, where rings have numbers below this one.
    fn of_none(at: Point, rings: usize) -> Corner {
        Corner {
            at,
            ring: rings,
            stop: usize::MAX,
        }
    }
}

/// A side of a ring, from that of its ends that comes first in their order to the other.
#[derive(Clone, Copy, Debug)]
pub(crate) struct Side {
    pub start: Corner,
    pub end: Corner,
    /// Whether what lies above it is inside the shape.
    pub is_inside_above: bool,
}

impl Side {
    /// Returns the side that goes from the one corner to the other, with what is inside on its left.
    pub fn between(from: Corner, to: Corner) -> Side {
        if from.at <= to.at {
            Side {
                start: from,
                end: to,
                is_inside_above: true,
            }
        } else {
            Side {
                start: to,
                end: from,
                is_inside_above: false,
            }
        }
    }

    /// Returns whether the side is below this place, which comes after its start and before its end.
    pub fn is_below(self, at: Point) -> bool {
        area(self.start.at, self.end.at, self.start.at, at) > 0
    }

    /// Returns whether the side is below another one that starts where it is crossed or at its start.
    pub fn is_below_side(self, other: Side) -> bool {
        if self.start.at == other.start.at {
            self.is_below(other.end.at)
        } else {
            self.is_below(other.start.at)
        }
    }

    /// Returns whether the side is level, and goes on both to the left and to the right of the place.
    pub fn is_level_round(self, at: Point) -> bool {
        self.start.at.y == self.end.at.y && self.start.at.x < at.x && at.x < self.end.at.x
    }

    /// Returns a side of no ring, where these are the rings' numbers, that is below all corners.
    pub fn below_all(rings: usize) -> Side {
        let low = Point {
            x: i32::MIN,
            y: i32::MIN,
        };
        let right = Point {
            x: i32::MAX,
            y: i32::MIN,
        };
        Side {
            start: Corner::of_none(low, rings),
            end: Corner::of_none(right, rings),
            is_inside_above: false,
        }
    }

    /// Returns whether the neighbour is straight between the place and the side, which is level.
    pub fn is_hidden(self, at: Point, neighbour: Option<Corner>) -> bool {
        match neighbour {
            None => false,
            Some(Corner { at: near, .. }) => {
                near.x == at.x && (near.y < at.y) == (self.start.at.y < near.y)
            }
        }
    }

    /// Returns that end of the side that is nearer to the place along the x axis.
    pub fn nearer_end(self, at: Point) -> Corner {
        if at.x.abs_diff(self.start.at.x) <= at.x.abs_diff(self.end.at.x) {
            self.start
        } else {
            self.end
        }
    }
}
