//! Boxes of what is drawn.

use lay_point::{Point, Quarter, Turn};

/// A box with sides along the axes, in database units.
#[derive(Clone, Copy, Debug, PartialEq, Eq)]
pub(crate) struct Bounds {
    pub(crate) left: i64,
    pub(crate) right: i64,
    pub(crate) low: i64,
    pub(crate) high: i64,
}

impl Bounds {
    /// The box that holds this point alone.
    pub(crate) fn of(point: Point) -> Bounds {
        let (x, y) = (i64::from(point.x), i64::from(point.y));
        Bounds {
            left: x,
            right: x,
            low: y,
            high: y,
        }
    }

    /// The least box that holds both.
    pub(crate) fn with(self, other: Bounds) -> Bounds {
        Bounds {
            left: self.left.min(other.left),
            right: self.right.max(other.right),
            low: self.low.min(other.low),
            high: self.high.max(other.high),
        }
    }

    /// Where a call with this turn shows the box.
    pub(crate) fn turned(self, turn: Turn) -> Bounds {
        let mirrored = if turn.mirror { self.mirrored() } else { self };
        mirrored.quartered(turn.quarter).shifted(turn.shift)
    }

    /// How wide it is.
    pub(crate) fn width(self) -> i64 {
        self.right.saturating_sub(self.left)
    }

    /// How high it is.
    pub(crate) fn height(self) -> i64 {
        self.high.saturating_sub(self.low)
    }

    /// Whether a place is in both.
    pub(crate) fn meets(self, other: Bounds) -> bool {
        let across = self.left <= other.right && other.left <= self.right;
        across && self.low <= other.high && other.low <= self.high
    }

    /// Whether the point is in it.
    pub(crate) fn holds(self, point: Point) -> bool {
        self.meets(Bounds::of(point))
    }

    /// The box with each x times -1.
    fn mirrored(self) -> Bounds {
        Bounds {
            left: negative(self.right),
            right: negative(self.left),
            low: self.low,
            high: self.high,
        }
    }

    /// The box after quarter turns.
    fn quartered(self, quarter: Quarter) -> Bounds {
        match quarter {
            Quarter::R0 => self,
            Quarter::R90 => self.quarter_turned(),
            Quarter::R180 => self.quarter_turned().quarter_turned(),
            Quarter::R270 => self.quarter_turned().quarter_turned().quarter_turned(),
        }
    }

    /// The box after one quarter turn anticlockwise.
    fn quarter_turned(self) -> Bounds {
        Bounds {
            left: negative(self.high),
            right: negative(self.low),
            low: self.left,
            high: self.right,
        }
    }

    /// The box after a shift.
    fn shifted(self, shift: Point) -> Bounds {
        let (right, up) = (i64::from(shift.x), i64::from(shift.y));
        Bounds {
            left: self.left.saturating_add(right),
            right: self.right.saturating_add(right),
            low: self.low.saturating_add(up),
            high: self.high.saturating_add(up),
        }
    }
}

/// The number times -1.
fn negative(place: i64) -> i64 {
    0i64.saturating_sub(place)
}
