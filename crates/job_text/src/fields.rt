//! What the first words of a line mean, and what stands behind them.
ghost use Rattle.std.specs.Prelude.{◌≡◌, option_map};
ghost use Rattle.job_text.specs.Job.{is_none_of};
ghost use Rattle.job_text.specs.Steps.{
  cell_alone,
  if_ended,
  item_alone,
  leading_cell,
  leading_coordinate,
  leading_item,
  leading_point,
  leading_symbol,
  leading_turning,
  leading_txn,
  point_of,
  symbol_alone,
  txn_alone,
};
ghost use Rattle.job_text.specs.Words.{words};

use crate::words::{cell_of, coordinate_of, is_blank, item_of, split_word, turning_of, txn_of};
use byte_io::number_of;
use lay_cells::{CellId, MAX_SYMBOL};
use lay_layouts::ItemId;
use lay_point::{Point, Quarter};
use txn_commands::TxnId;

/// The cell that the first word names, and what stands behind the word.
pub(crate) fn cell_at(line: &[u8]) -> Option<(CellId, &[u8])>
    ensures { option_map (λ p. (p.0, words p.1.now)) result ≡ leading_cell (words line.now) }
{
    let (word, behind) = split_word(line)?;
    Some((cell_of(word)?, behind))
}

/// The number of a symbol that the first word spells, and what stands behind the word.
pub(crate) fn symbol_at(line: &[u8]) -> Option<(u32, &[u8])>
    ensures { option_map (λ p. (p.0, words p.1.now)) result ≡ leading_symbol (words line.now) }
{
    let (word, behind) = split_word(line)?;
    Some((number_of(MAX_SYMBOL, word)?, behind))
}

/// The item that the first word names, and what stands behind the word.
pub(crate) fn item_at(line: &[u8]) -> Option<(ItemId, &[u8])>
    ensures { option_map (λ p. (p.0, words p.1.now)) result ≡ leading_item (words line.now) }
{
    let (word, behind) = split_word(line)?;
    Some((item_of(word)?, behind))
}

/// The turn without its shift that the first word names, and what stands behind the word.
pub(crate) fn turning_at(line: &[u8]) -> Option<((bool, Quarter), &[u8])>
    ensures { option_map (λ p. (p.0, words p.1.now)) result ≡ leading_turning (words line.now) }
{
    let (word, behind) = split_word(line)?;
    Some((turning_of(word)?, behind))
}

/// The point that the first two words spell, and what stands behind them.
#[tactic(auto, unfolding(crate::specs::Steps::leading_point))]
pub(crate) fn point_at(line: &[u8]) -> Option<(Point, &[u8])>
    ensures { option_map (λ p. (p.0, words p.1.now)) result ≡ leading_point (words line.now) }
{
    let (x, behind) = coordinate_at(line)?;
    let (y, behind) = coordinate_at(behind)?;
    Some((Point { x, y }, behind))
}

/// The coordinate that the first word spells, and what stands behind the word.
fn coordinate_at(line: &[u8]) -> Option<(i32, &[u8])>
    ensures { option_map (λ p. (p.0, words p.1.now)) result ≡ leading_coordinate (words line.now) }
{
    let (word, behind) = split_word(line)?;
    Some((coordinate_of(word)?, behind))
}

/// The point that two words spell.
#[tactic(auto, unfolding(crate::specs::Steps::point_of))]
pub(crate) fn point_of(x: &[u8], y: &[u8]) -> Option<Point>
    ensures { result ≡ point_of x.now y.now }
{
    let x = coordinate_of(x)?;
    let y = coordinate_of(y)?;
    Some(Point { x, y })
}

/// The transaction that the one word names, and what stands behind the word.
fn txn_at(line: &[u8]) -> Option<(TxnId, &[u8])>
    ensures { option_map (λ p. (p.0, words p.1.now)) result ≡ leading_txn (words line.now) }
{
    let (word, behind) = split_word(line)?;
    Some((txn_of(word)?, behind))
}

/// The cell that the one word names.
#[tactic(auto, unfolding(crate::specs::Steps::cell_alone))]
pub(crate) fn cell_alone(line: &[u8]) -> Option<CellId>
    ensures { result ≡ cell_alone (words line.now) }
{
    let (cell, behind) = cell_at(line)?;
    ended(behind, cell)
}

/// The transaction that the one word names.
#[tactic(auto, unfolding(crate::specs::Steps::txn_alone))]
pub(crate) fn txn_alone(line: &[u8]) -> Option<TxnId>
    ensures { result ≡ txn_alone (words line.now) }
{
    let (txn, behind) = txn_at(line)?;
    ended(behind, txn)
}

/// The item that the one word names.
#[tactic(auto, unfolding(crate::specs::Steps::item_alone))]
pub(crate) fn item_alone(line: &[u8]) -> Option<ItemId>
    ensures { result ≡ item_alone (words line.now) }
{
    let (id, behind) = item_at(line)?;
    ended(behind, id)
}

/// The number of a symbol that the one word spells.
#[tactic(auto, unfolding(crate::specs::Steps::symbol_alone))]
pub(crate) fn symbol_alone(line: &[u8]) -> Option<u32>
    ensures { result ≡ symbol_alone (words line.now) }
{
    let (number, behind) = symbol_at(line)?;
    ended(behind, number)
}

/// The value, where no word is left.
pub(crate) fn ended<T: Drop>(line: &[u8], value: T) -> Option<T>
    ensures { result ≡ if_ended (words line.now) value }
{
    if is_blank(line) { Some(value) } else { None }
}
