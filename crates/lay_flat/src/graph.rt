//! The calls of the cells that a cell leads to, as a graph. What stands in other cells isn't looked at.
//!
//! The calls are in the order of the search, and not of the layout. Depth and number of walks don't
//! depend on it.
ghost use Rattle.std.specs.Prelude.{◌≡◌, [], ◌++◌, IfOk, IsTrue, OnOk, length, map};
ghost use Rattle.lay_cells.specs.Symbols.{has_cell};
ghost use Rattle.lay_cells.specs.Tallies.{counted};
ghost use Rattle.lay_cells.specs.WalkLists.{longest};
ghost use Rattle.lay_layouts.specs.Layout.{is_cell};
ghost use Rattle.lay_layouts.specs.Sound.{IsSound};
ghost use Rattle.lay_flat.specs.Ends.{walks_of};
ghost use Rattle.lay_items.specs.Graphs.{AreCallsTo, BeginsIn, CoverReached, IsGraphFrom, in_graph};
ghost use Rattle.lay_items.specs.Graphs.{
  AreClosed,
  first_symbols,
  symbol_calls,
  top_calls,
  with_called,
};

use crate::call_lists::{Call, CallLists};
use lay_cells::{CallGraph, CellId, Cells};
use lay_point::NoMemory;
use std::alloc::Global;

/// Returns the calls of the longest walk from a cell, and how many walks there are, as far as they are counted.
pub(crate) fn depth_and_walks(
    alloc: Global,
    lists: &mut CallLists<'_>,
    cell: CellId,
) -> Result<(usize, usize), NoMemory>
    requires { IsTrue (is_cell lists.old cell) }
    ensures depth { IfOk result (λ found. found.0 ≡ longest (walks_of lists.old cell)) }
    ensures walks { IfOk result (λ found. found.1 ≡ counted (length (walks_of lists.old cell))) }
    ensures same { OnOk result (lists.new ≡ lists.old) }
{
    let graph = graph_from(alloc, lists, cell)?;
    let depth = graph.depth(alloc, cell)?;
    let walks = graph.walks(alloc, cell)?;
    Ok((depth, walks))
}

/// Returns the graph of the calls in a cell and in all that it leads to.
fn graph_from(alloc: Global, lists: &mut CallLists<'_>, cell: CellId) -> Result<CallGraph, NoMemory>
    requires { IsTrue (is_cell lists.old cell) }
    ensures graph { IfOk result (IsGraphFrom lists.old cell) }
    ensures sound { IsSound lists.old }
    ensures same { OnOk result (lists.new ≡ lists.old) }
{
    let _version = lists.version();
    let symbols = symbols_from(alloc, lists, cell)?;
    let mut graph = CallGraph::new(alloc, &symbols)?;
    add_top(alloc, &mut graph, lists, cell)?;
    add_symbols(alloc, &mut graph, lists, &symbols)?;
    Ok(graph)
}

/// Adds the calls that stand in these symbols.
fn add_symbols(
    alloc: Global,
    graph: &mut CallGraph,
    lists: &mut CallLists<'_>,
    symbols: &Cells,
) -> Result<(), NoMemory>
    requires same { graph.old.symbols ≡ symbols.now }
    requires closed { AreClosed lists.old symbols.now }
    ensures graph { OnOk result
        (graph.new ≡ record graph.old { calls = graph.old.calls ++ symbol_calls lists.old symbols.now }) }
    ensures same { OnOk result (lists.new ≡ lists.old) }
{
    // there are no more than a usize counts
    let _len = symbols.len();
    let mut index = 0;
    while let Some(number) = symbols.at(index) {
        let list = lists.of(alloc, CellId::Symbol(number))?;
        add_calls(graph, CellId::Symbol(number), list.as_slice())?;
        index += 1;
    }
    Ok(())
}

/// Adds the calls of the top cell, where it is this cell.
fn add_top(
    alloc: Global,
    graph: &mut CallGraph,
    lists: &mut CallLists<'_>,
    cell: CellId,
) -> Result<(), NoMemory>
    requires { BeginsIn lists.old cell graph.old.symbols }
    ensures graph { OnOk result
        (graph.new ≡ record graph.old { calls = graph.old.calls ++ top_calls lists.old cell }) }
    ensures same { OnOk result (lists.new ≡ lists.old) }
{
    match cell {
        CellId::Top => {
            let list = lists.of(alloc, CellId::Top)?;
            add_calls(graph, CellId::Top, list.as_slice())
        }
        CellId::Symbol(_) => Ok(()),
    }
}

/// Adds these calls, which stand in a cell.
fn add_calls(graph: &mut CallGraph, cell: CellId, calls: &[Call]) -> Result<(), NoMemory>
    requires cell { IsTrue (has_cell graph.old.symbols cell) }
    requires targets { AreCallsTo graph.old.symbols calls.now }
    ensures { OnOk result
        (graph.new ≡ record graph.old { calls = graph.old.calls ++ map (in_graph cell) calls.now }) }
{
    for (_, target, _) in calls {
        graph.add(cell, *target)?;
    }
    Ok(())
}

/// Returns the symbols that a cell leads to, itself among them where it is one. Each call in them is looked
/// at once.
fn symbols_from(alloc: Global, lists: &mut CallLists<'_>, cell: CellId) -> Result<Cells, NoMemory>
    requires { IsTrue (is_cell lists.old cell) }
    ensures symbols { IfOk result (CoverReached lists.old cell) }
    ensures same { OnOk result (lists.new ≡ lists.old) }
{
    // no more can be reached, and a usize counts them
    let _most = lists.version().cells().len();
    let mut symbols = first_symbols(alloc, lists, cell)?;
    let mut index = 0;
    while let Some(number) = symbols.at(index) {
        let list = lists.of(alloc, CellId::Symbol(number))?;
        add_called(&mut symbols, list.as_slice())?;
        index += 1;
    }
    Ok(symbols)
}

/// Returns the symbol that the cell is, or those that the top cell calls.
fn first_symbols(alloc: Global, lists: &mut CallLists<'_>, cell: CellId) -> Result<Cells, NoMemory>
    ensures symbols { IfOk result (λ symbols. symbols ≡ first_symbols lists.old cell) }
    ensures same { OnOk result (lists.new ≡ lists.old) }
{
    let mut symbols = Cells::new(alloc);
    match cell {
        CellId::Top => {
            let list = lists.of(alloc, CellId::Top)?;
            add_called(&mut symbols, list.as_slice())?;
        }
        CellId::Symbol(number) => {
            symbols.add(number)?;
        }
    }
    Ok(symbols)
}

/// Adds the symbols that these calls call, where they are new.
fn add_called(symbols: &mut Cells, calls: &[Call]) -> Result<(), NoMemory>
    ensures { OnOk result (symbols.new ≡ with_called symbols.old calls.now) }
{
    for (_, target, _) in calls {
        symbols.add(*target)?;
    }
    Ok(())
}
