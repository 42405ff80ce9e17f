//! A slab: neighbours among the hot centres, in the order of their rows.
ghost use Rattle.std.specs.Prelude.{◌≤ℤ◌, Contains, IfOk};
ghost use Rattle.lay_point.specs.declared.point.Point.{Point};
ghost use Rattle.snap_pixels.specs.Order.{AreTransposed};
ghost use Rattle.snap_pixels.specs.Segments.{Meets};

use crate::clip::reached;
use crate::columns_of::places;
use lay_point::Point;
use snap_pixels::{Segment, turned_all};
use std::alloc::{AllocError, Global};
use std::marker::Model;

/// The most centres that are asked sooner than rows are searched.
const FEW: usize = 16;

/// Centres with x and y exchanged, in order. Contracts see the list of them.
#[derive(Debug, Drop)]
pub(crate) struct Slab {
    /// No centre is in a lesser column.
    low: i32,
    /// No centre is in a greater column.
    high: i32,
    centres: Vec<Point>,
}

impl Model for Slab {
    ghost use Rattle.std.specs.Prelude.{◌≤ℤ◌, Contains, List};
    ghost use Rattle.lay_point.specs.declared.point.Point.{Point};
    ghost use Rattle.snap_pixels.specs.Order.{ArePointsRising};

    ghost Value = { List Point };

    ghost view = { λ s. s.centres.items };

    ghost invariant = { λ s. ArePointsRising s.centres.items
        × ((c : Point) → Contains s.centres.items c → (s.low ≤ℤ c.y) × (c.y ≤ℤ s.high)) };
}

impl Slab {
    /// Returns the slab of these centres.
    ///
    /// # Errors
    ///
    /// `AllocError`, if an allocation fails.
    pub fn of(alloc: Global, part: &[Point]) -> Result<Slab, AllocError>
        ensures { IfOk result (λ slab. AreTransposed part.now slab) }
    {
        let mut centres = turned_all(alloc, part)?;
        centres.sort_unstable();
        centres.dedup();
        let (low, high) = span(centres.as_slice());
        Ok(Slab { low, high, centres })
    }

    /// Returns the centres that the segment may meet: those in its rows, and where these are many, those in
    /// the rows that it reaches in the columns of the slab.
    pub fn near(&self, segment: &Segment) -> &[Point]
        ensures inside { (c : Point) → Contains result.now c → Contains self.now c }
        ensures all { (c : Point) → Contains self.now c → Meets segment.now.a segment.now.b c
            → Contains result.now c }
    {
        let centres = self.centres.as_slice();
        let (from, to) = places(segment, centres);
        if to - from <= FEW {
            return &centres[from..to];
        }
        let (first, last) = reached(segment, self.low, self.high, centres);
        let end = to.min(last);
        let start = from.max(first).min(end);
        &centres[start..end]
    }
}

/// Returns the least column of the centres, and the greatest.
fn span(centres: &[Point]) -> (i32, i32)
    ensures { (c : Point) → Contains centres.now c → (result.0 ≤ℤ c.y) × (c.y ≤ℤ result.1) }
{
    let mut low = i32::MAX;
    let mut high = i32::MIN;
    for centre in centres {
        low = low.min(centre.y);
        high = high.max(centre.y);
    }
    (low, high)
}
