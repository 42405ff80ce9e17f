//! What the words of a step have to be.

use crate::sections::MAX_SESSION;
use byte_io::{find_byte, is_number, number_of};
use lay_cells::MAX_SYMBOL;
use lay_point::LayerName;

/// What a word of a step has to be.
#[derive(Clone, Copy, Debug, PartialEq, Eq)]
pub(crate) enum Part {
    Cell,
    Symbol,
    Layer,
    Number,
    Item,
    Txn,
    Turn,
}

impl Part {
    /// Returns what the word has to be, as a sentence names it.
    pub(crate) fn name(self) -> &'static str {
        match self {
            Part::Cell => "a cell, `top` or a symbol's number up to 999,999,999",
            Part::Symbol => "a symbol's number, up to 999,999,999",
            Part::Layer => "a layer's name, 1 to 16 digits or upper-case letters",
            Part::Number => "a whole number from -2,147,483,648 to 2,147,483,647",
            Part::Item => "an item, as `1.1.1` or `0.0.3`",
            Part::Txn => "a transaction, as `1.1`",
            Part::Turn => "a turn: r0, r90, r180, r270, m0, m90, m180 or m270",
        }
    }

    /// Returns whether the word is so.
    pub(crate) fn fits(self, word: &[u8]) -> bool {
        match self {
            Part::Cell => word == b"top".as_slice() || number_of(MAX_SYMBOL, word).is_some(),
            Part::Symbol => number_of(MAX_SYMBOL, word).is_some(),
            Part::Layer => LayerName::new(word).is_some(),
            Part::Number => is_coordinate(word),
            Part::Item => is_item(word),
            Part::Txn => is_txn(word),
            Part::Turn => is_turn(word),
        }
    }
}

/// Returns what the words after this one have to be in a step of a fixed length, `None` where no such step begins so.
pub(crate) fn parts_of(name: &[u8]) -> Option<&'static [Part]> {
    match name {
        b"open" | b"commit" | b"cancel" => Some(&[]),
        b"undo" | b"redo" => Some(&[Part::Txn]),
        b"look" | b"delete" => Some(&[Part::Item]),
        b"move" => Some(&[Part::Item, Part::Number, Part::Number]),
        b"layer" => Some(&[Part::Item, Part::Layer]),
        b"mkcell" | b"rmcell" => Some(&[Part::Symbol]),
        b"place" => Some(&[
            Part::Cell,
            Part::Symbol,
            Part::Turn,
            Part::Number,
            Part::Number,
        ]),
        b"and" | b"or" | b"not" | b"xor" => Some(&[
            Part::Cell,
            Part::Layer,
            Part::Layer,
            Part::Layer,
        ]),
        b"box" => Some(&[
            Part::Cell,
            Part::Layer,
            Part::Number,
            Part::Number,
            Part::Number,
            Part::Number,
        ]),
        _ => None,
    }
}

/// Returns whether the word is a coordinate.
fn is_coordinate(word: &[u8]) -> bool {
    match word {
        [b'-', digits @ ..] => number_of(2_147_483_648, digits).is_some(),
        _ => number_of(2_147_483_647, word).is_some(),
    }
}

/// Returns whether the word names a transaction: its session and its number.
fn is_txn(word: &[u8]) -> bool {
    match parted(word) {
        Some((session, number)) => number_of(MAX_SESSION, session).is_some()
            && number_of(65_535, number).is_some(),
        None => false,
    }
}

/// Returns whether the word names an item: its transaction, and its number in that.
fn is_item(word: &[u8]) -> bool {
    let Some((session, behind)) = parted(word) else {
        return false;
    };
    let Some((txn, number)) = parted(behind) else {
        return false;
    };
    number_of(MAX_SESSION, session).is_some()
        && number_of(65_535, txn).is_some()
        && is_number(number)
        && number_of(4_294_967_295, number).is_some()
}

/// Returns what comes before the first dot of the word, and what comes after it.
fn parted(word: &[u8]) -> Option<(&[u8], &[u8])> {
    let dot = find_byte(word, b'.')?;
    Some((&word[..dot], &word[dot + 1..]))
}

/// Returns whether the word is a turn.
fn is_turn(word: &[u8]) -> bool {
    match word {
        [b'r' | b'm', degrees @ ..] => match degrees {
            b"0" | b"90" | b"180" | b"270" => true,
            _ => false,
        },
        _ => false,
    }
}
