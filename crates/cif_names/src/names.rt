//! What is kept of a text's names and labels.
ghost use Rattle.std.specs.Prelude.{◌≡◌, IfOk, OnOk, filter};
ghost use Rattle.cif_names.specs.Names.{
  is_of_symbols,
  kept_after,
  names_of,
  nothing,
  with_line,
  within,
};
ghost use Rattle.cif_names.specs.Woven.{sets_layer};

use crate::labels::{label_line, name_line};
use crate::pieces::split_piece;
use crate::place::Place;
use crate::words::split_word;
use cif_grammar::{Class, skip};
use lay_cells::Cells;
use lay_point::{NoMemory, Sequence};
use std::alloc::Global;

/// A line that is kept.
#[derive(Debug, Drop)]
pub(crate) struct Entry {
    /// The symbol in whose definition it stands; none where it stands in no definition.
    pub symbol: Option<u32>,
    /// `9 NAME;`, `94 TEXT X Y [WORD];` or ` L LAYER; 94 TEXT X Y;`, with its newline, its distances in database units.
    pub line: Sequence<u8>,
}

impl Entry {
    /// Returns whether the line is one of these symbols, or of none.
    fn is_within(&self, symbols: &Cells) -> bool
        ensures { result ≡ is_of_symbols symbols.now self.now }
    {
        match self.symbol {
            Some(symbol) => symbols.position(symbol).is_some(),
            None => true,
        }
    }

    /// Returns the same line once more.
    fn copy(&self, alloc: Global) -> Result<Entry, NoMemory>
        ensures { IfOk result (λ entry. entry ≡ self.now) }
    {
        let line = Vec::from_slice(alloc, self.line.as_slice())?;
        Ok(Entry {
            symbol: self.symbol,
            line: Sequence::from_vec(line),
        })
    }

    /// Returns whether the line sets a layer.
    pub fn sets_layer(&self) -> bool
        ensures { result ≡ sets_layer self.now.line }
    {
        self.line.as_slice().starts_with(b" ")
    }
}

/// Names and labels of a CIF text, by symbol.
#[derive(Debug, Drop)]
pub struct Names {
    /// In the order of the text.
    entries: Sequence<Entry>,
    left_out: usize,
}

impl Names {
    /// Returns the names and labels of a text, whether the reader takes it or not.
    ///
    /// # Errors
    ///
    /// `NoMemory`, if an allocation fails.
    ///
    /// # Cost
    ///
    /// Linear in the text.
    #[tactic(auto, unfolding(crate::specs::Names::names_of, crate::specs::Names::names_from))]
    pub fn of(alloc: Global, text: &[u8]) -> Result<Names, NoMemory>
        ensures { IfOk result (λ names. names ≡ names_of text.now) }
    {
        let mut names = Names::nothing(alloc);
        let mut place = Place::outside();
        let mut rest = skip(text, Class::Gap);
        while let Some((piece, behind)) = split_piece(rest) {
            names.keep(alloc, &place, piece)?;
            place = place.after(piece);
            rest = behind;
        }
        Ok(names)
    }

    /// Returns how many `9` and `94` commands of the text couldn't be kept, and how many `91` there were.
    pub fn left_out(&self) -> usize
        ensures { result ≡ self.now.left_out }
    {
        self.left_out
    }

    /// Returns those of these symbols, and those of no symbol.
    ///
    /// # Errors
    ///
    /// `NoMemory`, if an allocation fails.
    ///
    /// # Cost
    ///
    /// A look-up in a hash table for each entry, and a copy of those that are returned.
    pub fn within(&self, alloc: Global, symbols: &Cells) -> Result<Names, NoMemory>
        ensures { IfOk result (λ names. names ≡ within symbols.now self.now) }
    {
        Ok(Names {
            entries: Sequence::from_vec(entries_within(alloc, self.entries(), symbols)?),
            left_out: self.left_out,
        })
    }

    /// Returns the lines that are kept, in the order of the text.
    pub(crate) fn entries(&self) -> &[Entry]
        ensures { result.now ≡ self.now.entries }
    {
        self.entries.as_slice()
    }

    /// Returns none.
    fn nothing(alloc: Global) -> Names
        ensures { result ≡ nothing }
    {
        Names {
            entries: Sequence::from_vec(Vec::new(alloc)),
            left_out: 0,
        }
    }

    /// Keeps the command at this place, if it is a name or a label.
    #[tactic(auto, unfolding(crate::specs::Names::kept_after))]
    fn keep(&mut self, alloc: Global, place: &Place, piece: &[u8]) -> Result<(), NoMemory>
        ensures { OnOk result (self.new ≡ kept_after self.old place.now piece.now) }
    {
        let Some((word, behind)) = split_word(piece) else {
            return Ok(());
        };
        match word {
            b"9" => {
                let line = name_line(alloc, place.symbol, behind)?;
                self.add(place.symbol, line)
            }
            b"94" => {
                let line = label_line(alloc, place, behind)?;
                self.add(place.symbol, line)
            }
            b"91" => self.add(place.symbol, None),
            _ => Ok(()),
        }
    }

    /// Adds the line to those of the symbol, or counts one that is left out.
    fn add(&mut self, symbol: Option<u32>, line: Option<Sequence<u8>>) -> Result<(), NoMemory>
        ensures { OnOk result (self.new ≡ with_line self.old symbol line) }
    {
        match line {
            None => self.left_out = self.left_out.checked_add(1).ok_or(NoMemory)?,
            Some(line) => self.entries.push(Entry { symbol, line })?,
        }
        Ok(())
    }
}

/// Returns those of the entries that are of these symbols, or of none.
fn entries_within(alloc: Global, entries: &[Entry], symbols: &Cells) -> Result<Vec<Entry>, NoMemory>
    ensures { IfOk result (λ kept. kept.items ≡ filter (is_of_symbols symbols.now) entries.now) }
{
    let mut kept = Vec::new(alloc);
    let mut left = entries;
    while let Some((entry, behind)) = left.split_first() {
        if entry.is_within(symbols) {
            kept.push(entry.copy(alloc)?)?;
        }
        left = behind;
    }
    Ok(kept)
}
