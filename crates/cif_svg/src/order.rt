//! An order in which cells come behind those that they call.

use lay_cells::CellId;
use lay_items::Snapshot;
use lay_point::NoMemory;
use std::alloc::Global;
use std::collections::BTreeSet;

/// Who calls whom, by the places of cells: a symbol's position, and behind them all the top cell's.
#[derive(Drop)]
struct Graph {
    /// The callers of each cell, each once.
    callers: Vec<Vec<usize>>,
    /// How many cells each calls.
    called: Vec<usize>,
}

/// Returns the place of a cell among all.
pub(crate) fn place_of(snapshot: &Snapshot, cell: CellId) -> usize {
    let behind = snapshot.cells().len();
    match cell {
        CellId::Top => behind,
        CellId::Symbol(number) => snapshot.cells().position(number).unwrap_or(behind),
    }
}

/// Returns the cell at a place.
fn cell_at(snapshot: &Snapshot, place: usize) -> CellId {
    snapshot
        .cells()
        .at(place)
        .map_or(CellId::Top, CellId::Symbol)
}

/// Adds the numbers of the symbols that the cell calls.
fn add_called(
    called: &mut BTreeSet<u32>,
    snapshot: &Snapshot,
    cell: CellId,
) -> Result<(), NoMemory> {
    for (_, target, _) in snapshot.calls(cell) {
        called.insert(target).map_err(|_| NoMemory)?;
    }
    Ok(())
}

/// Returns all cells, each behind those that it calls.
pub(crate) fn callees_first(alloc: Global, snapshot: &Snapshot) -> Result<Vec<CellId>, NoMemory> {
    let mut graph = graph_of(alloc, snapshot)?;
    let mut done = uncalling(alloc, &graph.called)?;
    let mut cells = Vec::new(alloc);
    for next in 0..graph.callers.len() {
        let Some(place) = done.get(next).copied() else {
            break;
        };
        cells.push(cell_at(snapshot, place))?;
        graph.take_out(place, &mut done)?;
    }
    Ok(cells)
}

/// Returns of these cells in this order, each behind those that it calls, the ones that are drawn with a cell, callers first.
pub(crate) fn drawn_with(
    alloc: Global,
    snapshot: &Snapshot,
    cells: &[CellId],
    drawn: CellId,
) -> Result<Vec<CellId>, NoMemory> {
    let mut called = BTreeSet::new(alloc);
    let mut below = Vec::new(alloc);
    for cell in cells.iter().rev() {
        if *cell == drawn || is_among(&called, *cell) {
            add_called(&mut called, snapshot, *cell)?;
            below.push(*cell)?;
        }
    }
    Ok(below)
}

/// Returns whether the cell is one of these symbols.
fn is_among(symbols: &BTreeSet<u32>, cell: CellId) -> bool {
    match cell {
        CellId::Top => false,
        CellId::Symbol(number) => symbols.contains(&number),
    }
}

/// Returns the graph of a layout's calls.
fn graph_of(alloc: Global, snapshot: &Snapshot) -> Result<Graph, NoMemory> {
    let count = snapshot.cells().len();
    let mut graph = Graph {
        callers: no_callers(alloc, count)?,
        called: Vec::new(alloc),
    };
    for place in 0..=count {
        graph.add(alloc, snapshot, place)?;
    }
    Ok(graph)
}

/// Returns a list without callers for each of so many symbols and for the top cell.
fn no_callers(alloc: Global, symbols: usize) -> Result<Vec<Vec<usize>>, NoMemory> {
    let mut callers = Vec::new(alloc);
    for _ in 0..=symbols {
        callers.push(Vec::new(alloc))?;
    }
    Ok(callers)
}

/// Returns the places of the cells that call none.
fn uncalling(alloc: Global, called: &[usize]) -> Result<Vec<usize>, NoMemory> {
    let mut places = Vec::new(alloc);
    for (place, count) in called.iter().enumerate() {
        if *count == 0 {
            places.push(place)?;
        }
    }
    Ok(places)
}

impl Graph {
    /// Adds the calls of the cell at the place.
    fn add(&mut self, alloc: Global, snapshot: &Snapshot, place: usize) -> Result<(), NoMemory> {
        let mut called = BTreeSet::new(alloc);
        add_called(&mut called, snapshot, cell_at(snapshot, place))?;
        self.called.push(called.len())?;
        for number in called.iter() {
            let target = place_of(snapshot, CellId::Symbol(*number));
            if let Some(callers) = self.callers.get_mut(target) {
                callers.push(place)?;
            }
        }
        Ok(())
    }

    /// Takes the cell at the place out, and adds the places of those that call no other any more.
    fn take_out(&mut self, place: usize, done: &mut Vec<usize>) -> Result<(), NoMemory> {
        let Some(callers) = self.callers.get(place) else {
            return Ok(());
        };
        for caller in callers {
            if let Some(count) = self.called.get_mut(*caller) {
                *count = count.saturating_sub(1);
                if *count == 0 {
                    done.push(*caller)?;
                }
            }
        }
        Ok(())
    }
}
