//! The names and labels of a text, by cell.
//!
//! `cif_names` puts them into any text with definitions. So they are read from a text of empty definitions, one for each symbol,
//! and one of a number that no symbol has for what stands outside of all.

use cif_names::{Names, with_names};
use lay_cells::{CellId, Cells, MAX_SYMBOL};
use lay_point::{NoMemory, Point};
use std::alloc::Global;
use std::collections::BTreeMap;
use std::io::Write;

/// The number of the definition for what stands outside of all.
const OUTSIDE: u32 = MAX_SYMBOL + 1;

/// A label of a cell.
#[derive(Debug, Drop)]
pub(crate) struct Label {
    pub(crate) text: Vec<u8>,
    /// Where it stands in its cell.
    pub(crate) place: Point,
}

/// The names and labels of a text.
#[derive(Drop)]
pub(crate) struct CellNames {
    names: BTreeMap<u32, Vec<u8>>,
    labels: BTreeMap<u32, Vec<Label>>,
}

impl CellNames {
    /// Returns those of a text with these symbols.
    pub(crate) fn of(alloc: Global, text: &[u8], symbols: &Cells) -> Result<CellNames, NoMemory> {
        let names = Names::of(alloc, text)?;
        let definitions = empty_definitions(alloc, symbols)?;
        let lines = with_names(alloc, &names, &definitions)?;
        let mut found = CellNames {
            names: BTreeMap::new(alloc),
            labels: BTreeMap::new(alloc),
        };
        let mut number = OUTSIDE;
        for line in lines.split(|byte| *byte == b'\n') {
            number = found.add_line(alloc, number, line)?;
        }
        Ok(found)
    }

    /// Returns the name of a cell, where it has one.
    pub(crate) fn name_of(&self, cell: CellId) -> Option<&[u8]> {
        self.names
            .get(&definition_of(cell))
            .map(|name| name.as_slice())
    }

    /// Returns the labels of a cell.
    pub(crate) fn labels_of(&self, cell: CellId) -> &[Label] {
        match self.labels.get(&definition_of(cell)) {
            None => &[],
            Some(labels) => labels.as_slice(),
        }
    }

    /// Returns the first symbol of this name.
    pub(crate) fn symbol_of(&self, name: &[u8]) -> Option<u32> {
        self.names
            .iter()
            .find(|entry| entry.1.as_slice() == name)
            .map(|entry| *entry.0)
    }

    /// Adds what a line says of the definition with this number. Returns the number of the definition in which the next line
    /// stands.
    fn add_line(&mut self, alloc: Global, number: u32, line: &[u8]) -> Result<u32, NoMemory> {
        if let Some(begun) = line.strip_prefix(b"DS ") {
            return Ok(number_of(without_semicolon(begun)).unwrap_or(number));
        }
        if let Some(name) = line.strip_prefix(b"9 ") {
            self.add_name(alloc, number, without_semicolon(name))?;
        } else if let Some(label) = label_of(alloc, line)? {
            self.add_label(alloc, number, label)?;
        }
        Ok(number)
    }

    /// Names the symbol, if it has no name.
    fn add_name(&mut self, alloc: Global, number: u32, name: &[u8]) -> Result<(), NoMemory> {
        if self.names.contains_key(&number) {
            return Ok(());
        }
        let name = Vec::from_slice(alloc, name)?;
        self.names.insert(number, name)?;
        Ok(())
    }

    /// Adds a label of the symbol.
    fn add_label(&mut self, alloc: Global, number: u32, label: Label) -> Result<(), NoMemory> {
        let mut labels = self.labels.remove(&number).unwrap_or(Vec::new(alloc));
        labels.push(label)?;
        self.labels.insert(number, labels)?;
        Ok(())
    }
}

/// Returns the number of the definition in which what is said of the cell is put.
fn definition_of(cell: CellId) -> u32 {
    match cell {
        CellId::Top => OUTSIDE,
        CellId::Symbol(number) => number,
    }
}

/// Returns the text of empty definitions, the last of which is called.
fn empty_definitions(alloc: Global, symbols: &Cells) -> Result<Vec<u8>, NoMemory> {
    let mut lines = Vec::new(alloc);
    for place in 0..symbols.len() {
        if let Some(number) = symbols.at(place) {
            write!(lines, "DS {number};\n").map_err(|_| NoMemory)?;
        }
    }
    write!(lines, "DS {OUTSIDE};\nC {OUTSIDE};\n").map_err(|_| NoMemory)?;
    Ok(lines)
}

/// Returns the label of a line `94 TEXT X Y [WORD];`, which may have the command before it that sets the layer.
fn label_of(alloc: Global, line: &[u8]) -> Result<Option<Label>, NoMemory> {
    let mut words = line.split(|byte| *byte == b' ');
    if !words.any(|word| word == b"94".as_slice()) {
        return Ok(None);
    }
    let (Some(text), Some(x), Some(y)) = (words.next(), words.next(), words.next()) else {
        return Ok(None);
    };
    let (Some(x), Some(y)) = (coordinate_of(x), coordinate_of(without_semicolon(y))) else {
        return Ok(None);
    };
    Ok(Some(Label {
        text: Vec::from_slice(alloc, text)?,
        place: Point { x, y },
    }))
}

/// Returns the bytes without a semicolon at their end.
fn without_semicolon(bytes: &[u8]) -> &[u8] {
    bytes.strip_suffix(b";").unwrap_or(bytes)
}

/// Returns the number that the bytes spell.
fn number_of(bytes: &[u8]) -> Option<u32> {
    std::str::from_utf8(bytes).ok()?.parse::<u32>().ok()
}

/// Returns the coordinate that the bytes spell.
fn coordinate_of(bytes: &[u8]) -> Option<i32> {
    std::str::from_utf8(bytes).ok()?.parse::<i32>().ok()
}
