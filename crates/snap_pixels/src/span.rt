//! The fractions of the way along a segment that are between two sides.
ghost use Rattle.std.specs.Prelude.{◌↔◌, ℤ, pos, ◌≤ℤ◌, ◌<ℤ◌, IsTrue};
ghost use Rattle.snap_pixels.specs.Pixels.{IsRoundedTo};
ghost use Rattle.snap_pixels.specs.Segments.{IsFraction, along};

use crate::side::Side;
use std::cmp::Ordering;

/// The fractions between a side that a point enters by and one that it leaves by.
#[derive(Clone, Copy)]
pub(crate) struct Span {
    low: Side,
    high: Side,
    ghost enters: { pos 0 <ℤ low.slope },
    ghost leaves: { high.slope <ℤ pos 0 },
}

impl Span {
    ghost use Rattle.snap_pixels.specs.Sides.{IsWithin, Passes};

    /// Returns the fractions from 0 to 1.
    pub(crate) fn whole() -> Span
        ensures { (k t : ℤ) → IsWithin result k t ↔ ((pos 0 ≤ℤ t) × (t ≤ℤ k)) }
    {
        Span {
            low: Side {
                slope: 1,
                offset: 0,
                open: false,
            },
            high: Side {
                slope: -1,
                offset: 1,
                open: false,
            },
        }
    }

    /// Returns the span of no fractions: those above 1 and at most 1.
    fn none() -> Span
        ensures { (k t : ℤ) → ¬ IsWithin result k t }
    {
        Span {
            low: Side {
                slope: 1,
                offset: -1,
                open: true,
            },
            high: Side {
                slope: -1,
                offset: 1,
                open: false,
            },
        }
    }

    /// Returns the part of the span in which a segment from `a` to `b` is in the interval round
    /// `centre`.
    pub(crate) fn cut(self, a: i32, b: i32, centre: i32) -> Span
        ensures { (k t : ℤ) → pos 1 ≤ℤ k → IsWithin result k t
            ↔ (IsWithin self k t × IsRoundedTo centre k (along k t a b)) }
    {
        self.inside(Side::lower(a, b, centre))
            .inside(Side::upper(a, b, centre))
    }

    /// Returns the part of the span that is inside the side.
    fn inside(self, side: Side) -> Span
        ensures { (k t : ℤ) → pos 1 ≤ℤ k → IsWithin result k t ↔ (IsWithin self k t × Passes side k t) }
    {
        if side.slope > 0 {
            return Span {
                low: Span::later(self.low, side),
                high: self.high,
            };
        }
        if side.slope < 0 {
            return Span {
                low: self.low,
                high: Span::earlier(self.high, side),
            };
        }
        if side.is_level_inside() {
            return self;
        }
        Span::none()
    }

    /// Returns whether there is a fraction in the span.
    pub(crate) fn holds_some(self) -> bool
        ensures { IsTrue result ↔ ((k : ℤ) × (t : ℤ) × (pos 1 ≤ℤ k) × IsWithin self k t) }
    {
        match self.low.turn(self.high) {
            Ordering::Less => false,
            Ordering::Equal => !self.low.open && !self.high.open,
            Ordering::Greater => true,
        }
    }

    /// Returns the side that a point enters by later.
    fn later(first: Side, second: Side) -> Side
        requires first { pos 0 <ℤ first.slope }
        requires second { pos 0 <ℤ second.slope }
        ensures enters { pos 0 <ℤ result.slope }
        ensures both { (k t : ℤ) → pos 1 ≤ℤ k → Passes result k t ↔ (Passes first k t × Passes second k t) }
    {
        match first.turn(second) {
            Ordering::Less => second,
            Ordering::Equal => if first.open { first } else { second },
            Ordering::Greater => first,
        }
    }

    /// Returns the side that a point leaves by earlier.
    fn earlier(first: Side, second: Side) -> Side
        requires first { first.slope <ℤ pos 0 }
        requires second { second.slope <ℤ pos 0 }
        ensures leaves { result.slope <ℤ pos 0 }
        ensures both { (k t : ℤ) → pos 1 ≤ℤ k → Passes result k t ↔ (Passes first k t × Passes second k t) }
    {
        match first.turn(second) {
            Ordering::Less => first,
            Ordering::Equal => if first.open { first } else { second },
            Ordering::Greater => second,
        }
    }
}
