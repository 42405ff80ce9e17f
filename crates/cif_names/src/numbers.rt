//! Integers that words spell, and distances in database units, half-hundredths of a micrometre.
ghost use Rattle.std.specs.Prelude.{◌≡◌, ◌≤◌, ◌<◌, ◌^◌, IfSome};
ghost use Rattle.cif_names.specs.Entries.{
  coordinate_of,
  in_bits,
  limit_of,
  product_in_units,
  scaled_to_units,
};
ghost use Rattle.cif_names.specs.Words.{integer_of, with_sign};

use byte_io::number_of;
use cif_grammar::{Number, Scale};

/// The greatest magnitude of a coordinate.
const MAX_COORDINATE: u32 = 2_147_483_648;

const _: () = prove!(MAX_COORDINATE == 2_147_483_648);

/// Returns the coordinate that the word spells at this scale, in database units. `None` where it spells none, isn't
/// whole, or has more than 32 bits.
#[tactic(auto, unfolding(crate::specs::Entries::coordinate_of))]
pub(crate) fn coordinate_of(scale: Scale, word: &[u8]) -> Option<Number>
    ensures { result ≡ coordinate_of scale word.now }
{
    let number = integer_of(word)?;
    scaled(scale, number)
}

/// Returns the distance at this scale, in database units.
#[tactic(auto, unfolding(crate::specs::Entries::scaled_to_units))]
fn scaled(scale: Scale, number: Number) -> Option<Number>
    requires { number.magnitude ≤ MAX_COORDINATE }
    ensures { result ≡ scaled_to_units scale number }
{
    if scale.denominator == 0 {
        return None;
    }
    let product = product(scale, number.magnitude);
    let denominator = u64::from(scale.denominator);
    if product % denominator != 0 {
        return None;
    }
    in_bits(number.negative, product / denominator)
}

/// Returns the magnitude in database units, times the scale's numerator.
fn product(scale: Scale, magnitude: u32) -> u64
    requires { magnitude ≤ MAX_COORDINATE }
    ensures { result ≡ product_in_units scale magnitude }
{
    2 * u64::from(magnitude) * u64::from(scale.numerator)
}

/// Returns the number where it has 32 bits.
fn in_bits(negative: bool, magnitude: u64) -> Option<Number>
    ensures { result ≡ in_bits negative magnitude }
{
    if magnitude > limit_of(negative) {
        return None;
    }
    Some(Number {
        negative,
        magnitude: magnitude as u32,
    })
}

/// Returns the greatest magnitude of an integer of 32 bits.
fn limit_of(negative: bool) -> u64
    ensures { result ≡ limit_of negative }
{
    let most = u64::from(MAX_COORDINATE);
    if negative { most } else { most - 1 }
}

/// Returns the integer that the word spells.
#[tactic(auto, unfolding(crate::specs::Words::integer_of))]
fn integer_of(word: &[u8]) -> Option<Number>
    ensures value { result ≡ integer_of word.now }
    ensures small { IfSome result (λ n. n.magnitude ≤ MAX_COORDINATE) }
{
    match word {
        [b'-', digits @ ..] => with_sign(true, number_of(MAX_COORDINATE, digits)),
        digits => with_sign(false, number_of(MAX_COORDINATE, digits)),
    }
}

/// Returns the number with this sign, where there is one.
fn with_sign(negative: bool, magnitude: Option<u32>) -> Option<Number>
    requires { IfSome magnitude (λ n. n ≤ MAX_COORDINATE) }
    ensures value { result ≡ with_sign negative magnitude }
    ensures small { IfSome result (λ n. n.magnitude ≤ MAX_COORDINATE) }
{
    let magnitude = magnitude?;
    Some(Number {
        negative,
        magnitude,
    })
}
