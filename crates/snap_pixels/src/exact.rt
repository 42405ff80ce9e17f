//! Arithmetic that is exact for all coordinates.
ghost use Rattle.std.specs.Prelude.{◌≡◌, ◌^◌, pos, neg_ℤ, ◌+ℤ◌, ◌-ℤ◌, ◌*ℤ◌, ◌≤ℤ◌, ◌<ℤ◌};
ghost use Rattle.lay_point.specs.declared.point.Point.{Point};
ghost use Rattle.snap_pixels.specs.Segments.{cross};

use lay_point::Point;

/// The greatest magnitude of an area: of a difference of two products below 2^64.
pub const MAX_AREA: i128 = 1 << 65;

const _: () = prove!(MAX_AREA == 36_893_488_147_419_103_232);

/// Returns the way from one coordinate to another. It has a magnitude below 2^32.
pub(crate) fn difference(from: i32, to: i32) -> i64
    ensures value { result ≡ to -ℤ from }
    ensures low { neg_ℤ (pos (2 ^ 32)) <ℤ result }
    ensures high { result <ℤ pos (2 ^ 32) }
{
    i64::from(to) - i64::from(from)
}

/// Returns the product. Each factor is at most 2^63 in magnitude, so the product is at most 2^126.
pub(crate) fn product(a: i64, b: i64) -> i128
    ensures { result ≡ a *ℤ b }
{
    i128::from(a) * i128::from(b)
}

/// Returns twice the area that the ways from `a` to `b` and from `c` to `d` span. Each of the two
/// products is below 2^64 in magnitude, since each way is below 2^32.
pub fn area(a: Point, b: Point, c: Point, d: Point) -> i128
    ensures value { result ≡ cross a b c d }
    ensures low { neg_ℤ MAX_AREA ≤ℤ result }
    ensures high { result ≤ℤ MAX_AREA }
{
    let rising = product(difference(a.x, b.x), difference(c.y, d.y));
    let falling = product(difference(a.y, b.y), difference(c.x, d.x));
    rising - falling
}
