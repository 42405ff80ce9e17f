//! Numbers that words spell.
ghost use Rattle.std.specs.Prelude.{◌≡◌, ◌≤◌, IfSome};
ghost use Rattle.std.specs.List.{AllPass, list_all};
ghost use Rattle.lay_point.specs.Names.{is_digit};
ghost use Rattle.byte_io.specs.Numbers.{is_number, parsed_number, value_up_to};

use crate::decimal::capped_decimal;

/// Returns the number that the word spells, `None` where it spells none up to the limit. Leading zeros are allowed, a sign
/// isn't.
///
/// # Cost
///
/// Two passes over the word.
#[tactic(auto, unfolding(crate::specs::Numbers::parsed_number))]
pub fn number_of(limit: u32, word: &[u8]) -> Option<u32>
    ensures value { result ≡ parsed_number limit word.now }
    ensures small { IfSome result (λ n. n ≤ limit) }
{
    if !is_number(word) {
        return None;
    }
    value_up_to(limit, word)
}

/// Returns whether the word is a digit or more and nothing else.
///
/// # Cost
///
/// A pass over the word.
pub fn is_number(word: &[u8]) -> bool
    ensures { result ≡ is_number word.now }
{
    !word.is_empty() && are_digits(word)
}

/// Returns whether all bytes are digits.
///
/// # Cost
///
/// A pass over the bytes.
pub fn are_digits(bytes: &[u8]) -> bool
    ensures { result ≡ list_all is_digit bytes.now }
{
    bytes.iter().all(|b| b.is_ascii_digit())
}

/// Returns the value of the digits, `None` where it is above the limit.
fn value_up_to(limit: u32, digits: &[u8]) -> Option<u32>
    requires { AllPass is_digit digits.now }
    ensures value { result ≡ value_up_to limit digits.now }
    ensures small { IfSome result (λ n. n ≤ limit) }
{
    let value = capped_decimal(limit, digits);
    if u64::from(limit) < value {
        None
    } else {
        Some(value as u32)
    }
}
