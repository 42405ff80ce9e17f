//! Sides of a pixel, as tests of a segment's points.
ghost use Rattle.std.specs.Prelude.{◌≡◌, ◌↔◌, ◌^◌, neg_ℤ, ℤ, pos, ◌+ℤ◌, ◌-ℤ◌, ◌*ℤ◌, ◌≤ℤ◌, ◌<ℤ◌, IsTrue};
ghost use Rattle.std.specs.Ordering.{int_cmp};
ghost use Rattle.snap_pixels.specs.Segments.{along};

use crate::exact::{difference, product};
use std::cmp::Ordering;

/// A side of a pixel. The point at the fraction t / k of the way along a segment is inside where
/// `slope * t + offset * k` is positive.
#[derive(Clone, Copy)]
pub(crate) struct Side {
    pub(crate) slope: i64,
    pub(crate) offset: i64,
    /// The points on the side are outside.
    pub(crate) open: bool,
}

impl Side {
    ghost use Rattle.snap_pixels.specs.Sides.{Passes};

    /// Returns the lower side of the interval round `centre`, for a segment from `a` to `b`.
    pub(crate) fn lower(a: i32, b: i32, centre: i32) -> Side
        ensures { (k t : ℤ) → Passes result k t
            ↔ ((pos 2 *ℤ centre *ℤ k) ≤ℤ (pos 2 *ℤ along k t a b +ℤ k)) }
    {
        Side {
            slope: doubled(difference(a, b)),
            offset: doubled(difference(centre, a)) + 1,
            open: false,
        }
    }

    /// Returns the upper side of the interval round `centre`, for a segment from `a` to `b`.
    pub(crate) fn upper(a: i32, b: i32, centre: i32) -> Side
        ensures { (k t : ℤ) → Passes result k t
            ↔ ((pos 2 *ℤ along k t a b) <ℤ (pos 2 *ℤ centre *ℤ k +ℤ k)) }
    {
        Side {
            slope: doubled(difference(b, a)),
            offset: doubled(difference(a, centre)) + 1,
            open: true,
        }
    }

    /// Returns whether a segment parallel to the side is inside.
    pub(crate) fn is_level_inside(self) -> bool
        requires { self.slope ≡ pos 0 }
        ensures { (k t : ℤ) → pos 1 ≤ℤ k → IsTrue result ↔ Passes self k t }
    {
        if self.open {
            self.offset > 0
        } else {
            self.offset >= 0
        }
    }

    /// Returns the order of the fractions at which a point passes this side and the other.
    pub(crate) fn turn(self, other: Side) -> Ordering
        ensures { result ≡ int_cmp (self.slope *ℤ other.offset) (other.slope *ℤ self.offset) }
    {
        product(self.slope, other.offset).cmp(&product(other.slope, self.offset))
    }
}

/// Returns twice the way.
fn doubled(way: i64) -> i64
    requires low { neg_ℤ (pos (2 ^ 32)) <ℤ way }
    requires high { way <ℤ pos (2 ^ 32) }
    ensures { result ≡ pos 2 *ℤ way }
{
    2 * way
}
