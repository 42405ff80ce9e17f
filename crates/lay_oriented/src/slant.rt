//! Edges that aren't level, from their lower ends to their upper ones.
ghost use Rattle.std.specs.Prelude.{◌≡◌, IfOk, int_le, ◌&&◌};
ghost use Rattle.lay_oriented.specs.Slants.{
  gap_at_bottom,
  gap_at_top,
  is_not_left,
  slant_of,
  slants_of,
  spans,
};

use lay_point::Point;
use snap_pixels::area;
use std::alloc::{AllocError, Global};

/// An edge that isn't level.
#[derive(Clone, Copy, Debug, PartialEq, Eq)]
pub(crate) struct Slant {
    pub low: Point,
    pub high: Point,
    /// Whether the edge goes upward.
    pub up: bool,
}

impl Slant {
    /// Returns the slant of an edge between these points, or `None` if that is level.
    pub fn new(from: Point, to: Point) -> Option<Slant>
        ensures { result ≡ slant_of (from, to) }
    {
        if from.y < to.y {
            Some(Slant {
                low: from,
                high: to,
                up: true,
            })
        } else if to.y < from.y {
            Some(Slant {
                low: to,
                high: from,
                up: false,
            })
        } else {
            None
        }
    }

    /// Returns whether the slant spans the heights from `low` to `high`.
    pub fn spans(self, low: i32, high: i32) -> bool
        ensures { result ≡ spans low high self }
    {
        self.low.y <= low && high <= self.high.y
    }

    /// Returns how far the slant is to the right of the other where the later of the two begins, times
    /// the rise of the other.
    pub fn gap_at_bottom(self, other: Slant) -> i128
        ensures { result ≡ gap_at_bottom self other }
    {
        if other.low.y <= self.low.y {
            area(other.low, self.low, other.low, other.high)
        } else {
            area(other.low, self.low, self.low, self.high)
        }
    }

    /// Returns how far the slant is to the right of the other where the earlier of the two ends, times
    /// the rise of the other.
    pub fn gap_at_top(self, other: Slant) -> i128
        ensures { result ≡ gap_at_top self other }
    {
        if self.high.y <= other.high.y {
            area(other.high, self.high, other.low, other.high)
        } else {
            area(other.high, self.high, self.low, self.high)
        }
    }

    /// Returns whether the slant isn't left of the other at any height that both reach, if both are at
    /// all heights from the later begin to the earlier end.
    pub fn is_not_left(self, other: Slant) -> bool
        ensures { result ≡ is_not_left self other }
    {
        self.gap_at_bottom(other) >= 0 && self.gap_at_top(other) >= 0
    }

    /// Returns whether the slant is right of the other where the later of the two begins or, if both are
    /// at one place there, where the earlier of them ends.
    pub fn is_right_of(self, other: Slant) -> bool {
        let gap = self.gap_at_bottom(other);
        gap > 0 || (gap == 0 && self.gap_at_top(other) > 0)
    }
}

/// Returns the slants of these edges.
pub(crate) fn slants_of(alloc: Global, edges: &[(Point, Point)]) -> Result<Vec<Slant>, AllocError>
    ensures { IfOk result (λ slants. slants.items ≡ slants_of edges.now) }
{
    let mut slants = Vec::new(alloc);
    let mut left = edges;
    while let Some((edge, behind)) = left.split_first() {
        if let Some(slant) = Slant::new(edge.0, edge.1) {
            slants.push(slant)?;
        }
        left = behind;
    }
    Ok(slants)
}
