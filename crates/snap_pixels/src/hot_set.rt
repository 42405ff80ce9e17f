//! Sets of hot centres.
ghost use Rattle.std.specs.Prelude.{◌≡◌, ◌↔◌, IfOk, IsTrue, Contains, map};
ghost use Rattle.lay_point.specs.declared.point.Point.{Point};
ghost use Rattle.snap_pixels.specs.Order.{ArePointsRising, transposed};

use crate::gathered::Gathered;
use lay_point::Point;
use std::alloc::{AllocError, Global};
use std::marker::Model;

/// The centres of hot pixels, each once, in the order of points: by x, then by y. Contracts see
/// the list of them.
#[derive(Debug, Drop)]
pub struct HotSet {
    centres: Vec<Point>,
}

impl Model for HotSet {
    ghost use Rattle.std.specs.Prelude.{List};
    ghost use Rattle.lay_point.specs.declared.point.Point.{Point};
    ghost use Rattle.snap_pixels.specs.Order.{ArePointsRising};

    ghost Value = { List Point };

    ghost view = { λ h. h.centres.items };

    ghost invariant = { λ h. ArePointsRising h.centres.items };
}

impl HotSet {
    /// Returns the set of the centres that were gathered.
    ///
    /// # Errors
    ///
    /// `AllocError`, if an allocation fails.
    ///
    /// # Cost
    ///
    /// A sort of the centres.
    pub(crate) fn of(alloc: Global, gathered: Gathered) -> Result<HotSet, AllocError>
        ensures rising { IfOk result (λ set. ArePointsRising set) }
        ensures members { IfOk result (λ set. (c : Point) → Contains set c ↔ Contains gathered c) }
    {
        let centres = gathered.into_rising(alloc)?;
        Ok(HotSet { centres })
    }

    /// Returns whether the pixel of `centre` is hot.
    ///
    /// # Cost
    ///
    /// Comparisons in proportion to the logarithm of the number of centres.
    pub fn contains(&self, centre: Point) -> bool
        ensures { IsTrue result ↔ Contains self.now centre }
    {
        self.centres.binary_search(&centre).is_ok()
    }

    /// Returns the hot centres, in order.
    pub fn centres(&self) -> &[Point]
        ensures value { result.now ≡ self.now }
        ensures rising { ArePointsRising self.now }
    {
        self.centres.as_slice()
    }
}

/// Returns the points with x and y exchanged.
///
/// # Errors
///
/// `AllocError`, if an allocation fails.
///
/// # Cost
///
/// A pass over the points.
pub fn turned_all(alloc: Global, points: &[Point]) -> Result<Vec<Point>, AllocError>
    ensures { IfOk result (λ others. others.items ≡ map transposed points.now) }
{
    let mut others = Vec::with_capacity(alloc, points.len())?;
    for point in points {
        others.push(turned(*point))?;
    }
    Ok(others)
}

/// Returns the point with x and y exchanged.
pub fn turned(point: Point) -> Point
    ensures { result ≡ transposed point }
{
    Point {
        x: point.y,
        y: point.x,
    }
}
