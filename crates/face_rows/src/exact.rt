//! Arithmetic that is exact for all coordinates.
ghost use Rattle.std.specs.Prelude.{◌≡◌, ◌^◌, pos, neg_ℤ, ◌-ℤ◌, ◌*ℤ◌, ◌≤ℤ◌, ◌<ℤ◌};

/// Returns a number times a factor. It is at most 2^66 times 2^33 in magnitude.
pub(crate) fn scaled(number: i128, factor: i64) -> i128
    requires low { neg_ℤ (pos (2 ^ 66)) ≤ℤ number }
    requires high { number ≤ℤ pos (2 ^ 66) }
    requires whole { pos 0 ≤ℤ factor }
    requires small { factor ≤ℤ pos (2 ^ 33) }
    ensures value { result ≡ factor *ℤ number }
    ensures low { neg_ℤ (pos (2 ^ 99)) ≤ℤ result }
    ensures high { result ≤ℤ pos (2 ^ 99) }
{
    i128::from(factor) * number
}

/// Returns twice the way from one coordinate to another.
pub(crate) fn twice(from: i32, to: i32) -> i64
    ensures value { result ≡ pos 2 *ℤ (to -ℤ from) }
    ensures low { neg_ℤ (pos (2 ^ 33)) <ℤ result }
    ensures high { result <ℤ pos (2 ^ 33) }
{
    2 * (i64::from(to) - i64::from(from))
}
