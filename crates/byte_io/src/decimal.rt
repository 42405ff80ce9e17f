//! Decimal numbers as text, and back.
ghost use Rattle.std.specs.Prelude.{◌≡◌, ◌+◌, ◌<◌, ◌≤◌, ◌∷◌, ◌++◌, OnErr, OnOk, decimal, drop};
ghost use Rattle.std.specs.Fmt.{signed_decimal};
ghost use Rattle.std.specs.List.{AllPass};
ghost use Rattle.lay_point.specs.Names.{is_digit};
ghost use Rattle.byte_io.specs.Decimal.{capped_decimal};

use itoa::{Buffer, write_digits};
use lay_point::NoMemory;

/// Appends the number's digits, without leading zeros.
///
/// # Errors
///
/// `NoMemory`, if an allocation fails.
pub fn push_unsigned(bytes: &mut Vec<u8>, number: u64) -> Result<(), NoMemory>
    ensures ok { OnOk result (bytes.new.items ≡ bytes.old.items ++ decimal number) }
    ensures err { OnErr result (bytes.new.items ≡ bytes.old.items) }
{
    let mut buffer = Buffer::new();
    bytes.extend_from_slice(buffer.format(number).as_bytes())?;
    Ok(())
}

/// Appends the integer's digits, without leading zeros, after a minus sign where it is negative.
///
/// # Errors
///
/// `NoMemory`, if an allocation fails.
pub fn push_signed(bytes: &mut Vec<u8>, integer: i32) -> Result<(), NoMemory>
    ensures ok { OnOk result (bytes.new.items ≡ bytes.old.items ++ signed_decimal integer) }
    ensures err { OnErr result (bytes.new.items ≡ bytes.old.items) }
{
    let mut buffer = Buffer::new();
    bytes.extend_from_slice(buffer.format(integer).as_bytes())?;
    Ok(())
}

/// How many bytes two integers take at most: for each a space, a minus sign and ten digits.
pub(crate) const PAIR_LEN: usize = 24;

/// Writes a space and the integer so that they end at `end`, and returns where they begin.
pub(crate) fn write_spaced(text: &mut [u8; PAIR_LEN], end: usize, integer: i32) -> usize
    requires { (12 ≤ end) × (end ≤ 24) }
    ensures room { end ≤ result + 12 }
    ensures within { result < end }
    ensures written { drop result text.new ≡ 32 ∷ (signed_decimal integer ++ drop end text.old) }
{
    let start = write_signed(text, end, integer) - 1;
    text[start] = b' ';
    start
}

/// Writes the integer's digits, after a minus sign where it is negative, so that they end at `end`. Returns where they
/// begin.
fn write_signed(text: &mut [u8; PAIR_LEN], end: usize, integer: i32) -> usize
    requires { (12 ≤ end) × (end ≤ 24) }
    ensures room { end ≤ result + 11 }
    ensures within { result ≤ end }
    ensures written { drop result text.new ≡ signed_decimal integer ++ drop end text.old }
{
    let start = write_digits(u64::from(integer.unsigned_abs()), text, end);
    if integer >= 0 {
        return start;
    }
    text[start - 1] = b'-';
    start - 1
}

/// Returns the value of the digits, or one more than `limit` where that is less. There may be any
/// number of digits, or none.
///
/// # Cost
///
/// A pass over the digits.
pub fn capped_decimal(limit: u32, digits: &[u8]) -> u64
    requires { AllPass is_digit digits.now }
    ensures { result ≡ capped_decimal (limit + 1) digits.now }
{
    let cap = u64::from(limit) + 1;
    let mut value = 0u64;
    for digit in digits {
        value = (10 * value + u64::from(*digit - b'0')).min(cap);
    }
    value
}
