//! Words of a line, and what they spell.
ghost use Rattle.std.specs.Prelude.{◌+◌, ◌≡◌, ◌≤◌, [], neg_ℤ, length, not, option_map, pos, ◌<◌, ◌-◌, ◌^◌, IfSome, MatchOption, Some, None};
ghost use Rattle.std.specs.List.{position};
ghost use Rattle.job_text.specs.Job.{is_none_of};
ghost use Rattle.job_text.specs.Words.{
  IsFirstWord,
  before_dot,
  from_word,
  is_negative,
  is_word_separator,
  parsed_cell,
  parsed_coordinate,
  parsed_item,
  parsed_mirror,
  parsed_quarter,
  parsed_turning,
  parsed_txn,
  words,
};

use byte_io::{find_byte, number_of};
use lay_cells::{CellId, MAX_SYMBOL};
use lay_layouts::ItemId;
use lay_point::Quarter;
use txn_commands::TxnId;
use undo_rules::MAX_SESSIONS;

/// The greatest number of a session.
pub(crate) const MAX_SESSION: u32 = MAX_SESSIONS as u32;

const _: () = prove!(MAX_SESSION == 64);

/// The greatest number of a transaction.
const MAX_TXN: u32 = 65_535;

/// The greatest number of an item of a transaction.
const MAX_SEQ: u32 = 4_294_967_295;

/// The greatest coordinate.
const MAX_COORDINATE: u32 = 2_147_483_647;

/// The first word and what stands behind it. `None` where there is no word.
pub(crate) fn split_word(line: &[u8]) -> Option<(&[u8], &[u8])>
    ensures { MatchOption result (words line.now ≡ []) (λ p. IsFirstWord line.now p.0.now p.1.now) }
{
    let from = from_word(line);
    if from.is_empty() {
        return None;
    }
    let len = separator_place(from).unwrap_or(from.len());
    Some(from.split_at(len))
}

/// The line from its first word on.
fn from_word(line: &[u8]) -> &[u8]
    ensures { result.now ≡ from_word line.now }
{
    let start = word_place(line).unwrap_or(line.len());
    &line[start..]
}

/// Where the first word begins.
fn word_place(line: &[u8]) -> Option<usize>
    ensures value { result ≡ position (λ b. not (is_word_separator b)) line.now }
    ensures inside { IfSome result (λ n. n < length line.now) }
{
    line.iter().position(|b| !is_separator(*b))
}

/// Where the first separator stands.
fn separator_place(line: &[u8]) -> Option<usize>
    ensures value { result ≡ position is_word_separator line.now }
    ensures inside { IfSome result (λ n. n < length line.now) }
{
    line.iter().position(|b| is_separator(*b))
}

/// Returns whether there is no word in the line.
pub(crate) fn is_blank(line: &[u8]) -> bool
    ensures { result ≡ is_none_of (words line.now) }
{
    split_word(line).is_none()
}

/// Returns whether the byte separates words.
fn is_separator(byte: u8) -> bool
    ensures { result ≡ is_word_separator byte }
{
    byte == b' ' || byte == b'\t'
}

/// The cell that the word names.
#[tactic(auto, unfolding(crate::specs::Words::parsed_cell))]
pub(crate) fn cell_of(word: &[u8]) -> Option<CellId>
    ensures { result ≡ parsed_cell word.now }
{
    match word {
        b"top" => Some(CellId::Top),
        _ => number_of(MAX_SYMBOL, word).map(CellId::Symbol),
    }
}

/// The transaction that the word names.
#[tactic(auto, unfolding(crate::specs::Words::parsed_txn))]
pub(crate) fn txn_of(word: &[u8]) -> Option<TxnId>
    ensures { result ≡ parsed_txn word.now }
{
    let (session, behind) = before_dot(MAX_SESSION, word)?;
    let txn = number_of(MAX_TXN, behind)?;
    Some(TxnId {
        session: session as u8,
        txn: txn as u16,
    })
}

/// The item that the word names.
#[tactic(auto, unfolding(crate::specs::Words::parsed_item))]
pub(crate) fn item_of(word: &[u8]) -> Option<ItemId>
    ensures { result ≡ parsed_item word.now }
{
    let (session, behind) = before_dot(MAX_SESSION, word)?;
    let (txn, behind) = before_dot(MAX_TXN, behind)?;
    let seq = number_of(MAX_SEQ, behind)?;
    Some(ItemId {
        session: session as u8,
        txn: txn as u16,
        seq,
    })
}

/// The number before the first dot, up to the limit, and what stands behind the dot.
#[tactic(auto, unfolding(crate::specs::Words::before_dot))]
fn before_dot(limit: u32, word: &[u8]) -> Option<(u32, &[u8])>
    ensures value { option_map (λ p. (p.0, p.1.now)) result ≡ before_dot limit word.now }
    ensures small { IfSome result (λ p. p.0 ≤ limit) }
{
    let dot = find_byte(word, b'.')?;
    let number = number_of(limit, &word[..dot])?;
    Some((number, &word[dot + 1..]))
}

/// Whether a turn mirrors, and its quarter turns, as the word spells them.
#[tactic(auto, unfolding(crate::specs::Words::parsed_turning))]
pub(crate) fn turning_of(word: &[u8]) -> Option<(bool, Quarter)>
    ensures { result ≡ parsed_turning word.now }
{
    let (letter, degrees) = word.split_first()?;
    let mirror = mirror_of(*letter)?;
    Some((mirror, quarter_of(degrees)?))
}

/// Whether a turn of this letter mirrors.
fn mirror_of(letter: u8) -> Option<bool>
    ensures { result ≡ parsed_mirror letter }
{
    match letter {
        b'r' => Some(false),
        b'm' => Some(true),
        _ => None,
    }
}

/// The quarter turns of so many degrees.
#[tactic(auto, unfolding(crate::specs::Words::parsed_quarter))]
fn quarter_of(degrees: &[u8]) -> Option<Quarter>
    ensures { result ≡ parsed_quarter degrees.now }
{
    match degrees {
        b"0" => Some(Quarter::R0),
        b"90" => Some(Quarter::R90),
        b"180" => Some(Quarter::R180),
        b"270" => Some(Quarter::R270),
        _ => None,
    }
}

/// The coordinate that the word spells.
#[tactic(auto, unfolding(crate::specs::Words::parsed_coordinate))]
pub(crate) fn coordinate_of(word: &[u8]) -> Option<i32>
    ensures { result ≡ parsed_coordinate word.now }
{
    if is_negative(word) {
        let number = number_of(MAX_COORDINATE + 1, &word[1..])?;
        return Some(negated(number));
    }
    let number = number_of(MAX_COORDINATE, word)?;
    Some(signed(number))
}

/// The number with a minus sign before it.
fn negated(number: u32) -> i32
    requires { number ≤ MAX_COORDINATE + 1 }
    ensures { result ≡ neg_ℤ (pos number) }
{
    (-i64::from(number)) as i32
}

/// The number as a signed one.
fn signed(number: u32) -> i32
    requires { number ≤ MAX_COORDINATE }
    ensures { result ≡ pos number }
{
    number as i32
}

/// Returns whether the word begins with a minus sign.
fn is_negative(word: &[u8]) -> bool
    ensures { result ≡ is_negative word.now }
{
    word.first() == Some(&b'-')
}
