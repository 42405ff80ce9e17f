//! Which cell is drawn.

use crate::cell_names::CellNames;
use job_advice::uncalled_symbols;
use lay_cells::CellId;
use lay_items::Snapshot;
use lay_point::NoMemory;
use std::alloc::Global;

/// Returns the cell of this name; without one the top cell, or, where it is empty, the first symbol that none calls.
pub(crate) fn cell_named(
    alloc: Global,
    snapshot: &Snapshot,
    names: &CellNames,
    word: Option<&str>,
) -> Result<Option<CellId>, NoMemory> {
    match word {
        Some("top") => Ok(Some(CellId::Top)),
        Some(word) => Ok(symbol_named(snapshot, names, word).map(CellId::Symbol)),
        None if snapshot.items(CellId::Top).next().is_some() => Ok(Some(CellId::Top)),
        None => Ok(Some(first_uncalled(alloc, snapshot)?)),
    }
}

/// Returns the number of the symbol that the word names: it is the number, or else its name.
fn symbol_named(snapshot: &Snapshot, names: &CellNames, word: &str) -> Option<u32> {
    match word.parse::<u32>() {
        Ok(number) if snapshot.cells().position(number).is_some() => Some(number),
        _ => names.symbol_of(word.as_bytes()),
    }
}

/// Returns the first symbol that no symbol calls, or the top cell where there is none.
fn first_uncalled(alloc: Global, snapshot: &Snapshot) -> Result<CellId, NoMemory> {
    let first = uncalled_symbols(alloc, snapshot)?.first().copied();
    Ok(first.map_or(CellId::Top, CellId::Symbol))
}
