//! Segments with two different ends.
ghost use Rattle.std.specs.Prelude.{◌≡◌, ◌≢◌, ◌↔◌, IsNone, IfSome};
ghost use Rattle.snap_pixels.specs.Order.{transposed};

use crate::hot_set::turned;
use lay_point::Point;

/// A segment from one point to a different one, in database units of 5 nanometres.
#[derive(Clone, Copy, Debug, PartialEq, Eq, PartialOrd, Ord)]
pub struct Segment {
    a: Point,
    b: Point,
    pub ghost differ: { a ≢ b },
}

impl Segment {
    /// Returns the segment from `a` to `b`, or `None` where they are one point.
    pub fn new(a: Point, b: Point) -> Option<Segment>
        ensures none { IsNone result ↔ (a ≡ b) }
        ensures some { IfSome result (λ s. (s.a ≡ a) × (s.b ≡ b)) }
    {
        if a == b {
            return None;
        }
        Some(Segment { a, b })
    }

    /// Returns the end that it starts from.
    pub fn a(&self) -> Point
        ensures { result ≡ self.now.a }
    {
        self.a
    }

    /// Returns the end that it leads to.
    pub fn b(&self) -> Point
        ensures { result ≡ self.now.b }
    {
        self.b
    }

    /// Returns the segment with x and y exchanged.
    pub fn turned(&self) -> Segment
        ensures a { result.a ≡ transposed self.now.a }
        ensures b { result.b ≡ transposed self.now.b }
    {
        Segment {
            a: turned(self.a),
            b: turned(self.b),
        }
    }
}
