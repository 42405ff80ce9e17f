//! Coordinates as distances from the least one, which are numbers without a sign in the same order.
ghost use Rattle.std.specs.Prelude.{◌≡◌, ◌+ℤ◌, ◌<◌, ◌^◌, pos};
ghost use Rattle.snap_pixels.specs.Coordinates.{coordinate_from, from_least};

/// Returns how far the coordinate is from the least of all.
pub fn from_least(at: i32) -> u64
    ensures value { result ≡ from_least at }
    ensures sum { pos result ≡ at +ℤ pos 2147483648 }
    ensures bound { result < 2 ^ 32 }
{
    (i64::from(at) + 2_147_483_648).unsigned_abs()
}

/// Returns the coordinate that is so far from the least of all.
pub fn coordinate_from(distance: u64) -> i32
    requires { distance < 2 ^ 32 }
    ensures { result ≡ coordinate_from distance }
{
    (distance as i64 - 2_147_483_648) as i32
}
