//! Places on a segment, and the centres of their pixels.
ghost use Rattle.std.specs.Prelude.{◌≡◌, pos, ◌*ℤ◌, ◌≤ℤ◌};
ghost use Rattle.snap_pixels.specs.Pixels.{IsRoundedTo};
ghost use Rattle.snap_pixels.specs.Segments.{IsFraction, along};

use crate::exact::MAX_AREA;

/// Returns the centre of the unit interval that holds the point at `part / scale` of the way.
pub(crate) fn rounded(from: i32, to: i32, part: i128, scale: i128) -> i32
    requires fraction { IsFraction part scale }
    requires small { scale ≤ℤ MAX_AREA }
    ensures { IsRoundedTo result scale (along scale part from to) }
{
    nearest(place(from, to, part, scale), scale)
}

/// Returns the coordinate at `part / scale` of the way, at `scale`. The coordinates are at most 2^31
/// in magnitude and the scale at most 2^65, so each product is at most 2^96.
fn place(from: i32, to: i32, part: i128, scale: i128) -> i128
    requires fraction { IsFraction part scale }
    requires small { scale ≤ℤ MAX_AREA }
    ensures value { result ≡ along scale part from to }
    ensures low { (i32.MIN *ℤ scale) ≤ℤ result }
    ensures high { result ≤ℤ (i32.MAX *ℤ scale) }
{
    weighed(from, scale - part) + weighed(to, part)
}

/// Returns a coordinate times a weight.
fn weighed(coordinate: i32, weight: i128) -> i128
    requires whole { pos 0 ≤ℤ weight }
    requires small { weight ≤ℤ MAX_AREA }
    ensures value { result ≡ coordinate *ℤ weight }
    ensures low { (i32.MIN *ℤ weight) ≤ℤ result }
    ensures high { result ≤ℤ (i32.MAX *ℤ weight) }
{
    i128::from(coordinate) * weight
}

/// Returns the centre of the unit interval that holds `place / scale`.
fn nearest(place: i128, scale: i128) -> i32
    requires whole { pos 1 ≤ℤ scale }
    requires small { scale ≤ℤ MAX_AREA }
    requires low { (i32.MIN *ℤ scale) ≤ℤ place }
    requires high { place ≤ℤ (i32.MAX *ℤ scale) }
    ensures { IsRoundedTo result scale place }
{
    (2 * place + scale).div_euclid(2 * scale) as i32
}
