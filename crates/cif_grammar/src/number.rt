//! Numbers at the start of bytes, of any number of digits.
//!
//! What is read of a number is at most `MAX_MAGNITUDE + 1`, so that a greater one is known to be too big.
ghost use Rattle.std.specs.Prelude.{◌≡◌};
ghost use Rattle.std.specs.List.{take_while};
ghost use Rattle.lay_point.specs.Names.{is_digit};
ghost use Rattle.cif_grammar.specs.Bytes.{skip};
ghost use Rattle.cif_grammar.specs.ScanGrammar.{capped_magnitude};
ghost use Rattle.cif_grammar.specs.Numbers.{
  behind_separator,
  digits_at,
  integer_at,
  magnitude_at,
  signed_at,
};
ghost use Rattle.cif_grammar.specs.Views.{Gives};

use crate::bytes::{Class, skip};

/// The greatest magnitude that a text may write.
pub const MAX_MAGNITUDE: u32 = 2_147_483_647;

const _: () = prove!(MAX_MAGNITUDE == 2_147_483_647);

/// A number with its sign. `-0` is one.
#[derive(Clone, Copy, Debug, PartialEq, Eq)]
pub struct Number {
    /// Whether a `-` stands before it.
    pub negative: bool,
    /// What its digits spell.
    pub magnitude: u32,
}

/// Reads separators, then digits. Returns the number and what stands behind it.
#[tactic(auto, unfolding(crate::specs::Numbers::integer_at))]
pub fn integer(bytes: &[u8]) -> Option<(u32, &[u8])>
    ensures { Gives (λ f. (f.0, f.1.now)) result (integer_at bytes.now) }
{
    digits(skip(bytes, Class::Separator))
}

/// Reads separators, a sign or none, then digits. Returns the number and what stands behind it.
#[tactic(auto, unfolding(crate::specs::Numbers::sign_at, crate::specs::Numbers::signed_at))]
pub(crate) fn signed(bytes: &[u8]) -> Option<(Number, &[u8])>
    ensures { Gives (λ f. (f.0, f.1.now)) result (signed_at bytes.now) }
{
    match skip(bytes, Class::Separator) {
        [b'-', behind @ ..] => magnitude(true, behind),
        digits => magnitude(false, digits),
    }
}

/// Returns what stands behind the separator at the start.
#[tactic(auto, unfolding(crate::specs::Numbers::behind_separator))]
pub(crate) fn behind_separator(bytes: &[u8]) -> Option<&[u8]>
    ensures { Gives (λ f. f.now) result (behind_separator bytes.now) }
{
    match bytes {
        [first, behind @ ..] if Class::Separator.contains(*first) => Some(behind),
        _ => None,
    }
}

#[tactic(auto, unfolding(crate::specs::Numbers::magnitude_at))]
fn magnitude(negative: bool, bytes: &[u8]) -> Option<(Number, &[u8])>
    ensures { Gives (λ f. (f.0, f.1.now)) result
        (magnitude_at negative bytes.now) }
{
    let (magnitude, behind) = digits(bytes)?;
    let number = Number {
        negative,
        magnitude,
    };
    Some((number, behind))
}

#[tactic(auto, unfolding(crate::specs::Numbers::digits_at))]
fn digits(bytes: &[u8]) -> Option<(u32, &[u8])>
    ensures { Gives (λ f. (f.0, f.1.now)) result (digits_at bytes.now) }
{
    match bytes {
        [first, ..] if first.is_ascii_digit() => Some(written(bytes)),
        _ => None,
    }
}

/// Returns what the digits at the start spell and what stands behind them, in one pass.
fn written(bytes: &[u8]) -> (u32, &[u8])
    ensures value { result.0 ≡ capped_magnitude (take_while is_digit bytes.now) }
    ensures behind { result.1.now ≡ skip is_digit bytes.now }
{
    let mut value = 0u64;
    let mut rest = bytes;
    while let Some((byte, behind)) = rest.split_first() {
        if !byte.is_ascii_digit() {
            break;
        }
        value = (10 * value + u64::from(*byte - b'0')).min(u64::from(MAX_MAGNITUDE) + 1);
        rest = behind;
    }
    (value as u32, rest)
}
