//! The command that places a symbol.
ghost use Rattle.std.specs.Prelude.{◌≡◌, ◌++◌, IfOk, OnOk, map, reverse};
ghost use Rattle.txn_commands.specs.declared.element.Element.TheVariants.{Calls};
ghost use Rattle.lay_point.specs.Memory.{IsAnswer};
ghost use Rattle.lay_cells.specs.declared.cell_id.CellId.TheVariants.{Symbol};
ghost use Rattle.txn_commands.specs.declared.command.Command.TheVariants as command;
ghost use Rattle.txn_commands.specs.Acts.{place_act};
ghost use Rattle.txn_commands.specs.Plans.{plan};
ghost use Rattle.txn_commands.specs.Reach.{is_among, reached};
ghost use Rattle.txn_plans.specs.Searching.{called_in, first_in, symbols_from, top_in};

use crate::act::{Act, make_act};
use crate::layout_view::LayoutView;
use lay_cells::{CellId, Cells};
use lay_items::Snapshot;
use lay_layouts::{Item, ItemId};
use lay_point::{NoMemory, Turn};
use std::alloc::Global;
use txn_commands::{CmdFault, Element};

/// Plans a call of a symbol.
#[tactic(auto, unfolding(txn_commands::specs::Plans::plan))]
pub(crate) fn plan_place(
    alloc: Global,
    seen: &LayoutView<'_>,
    new: ItemId,
    cell: CellId,
    target: u32,
    turn: Turn,
) -> Result<Act, CmdFault>
    ensures { IsAnswer CmdFault.NoMemory result (plan new (command.Place cell target turn) seen.now) }
{
    if !seen.is_cell(cell) || !seen.is_cell(CellId::Symbol(target)) {
        return Err(CmdFault::NoCell);
    }
    if !turn.shift.is_in_range() {
        return Err(CmdFault::OutOfRange);
    }
    let cells = cells_from(alloc, &seen.whole(alloc)?, CellId::Symbol(target))?;
    if is_among(cell, &cells) {
        return Err(CmdFault::Cycle);
    }
    Ok(place_act(alloc, new, cell, target, turn, &cells)?)
}

/// Returns the cells to which calls lead from a cell, itself first. Each call is looked at once.
pub(crate) fn cells_from(
    alloc: Global,
    layout: &Snapshot,
    from: CellId,
) -> Result<Vec<CellId>, NoMemory>
    ensures { IfOk result (λ cells. cells.items ≡ reached layout.now from) }
{
    let symbols = symbols_from(alloc, layout, from)?;
    let mut cells = Vec::with_capacity(alloc, symbols.len() + 1)?;
    push_top(&mut cells, from)?;
    push_symbols(&mut cells, &symbols)?;
    Ok(cells)
}

/// Pushes the top cell, where the cell is that.
fn push_top(cells: &mut Vec<CellId>, from: CellId) -> Result<(), NoMemory>
    ensures { OnOk result (cells.new.items ≡ cells.old.items ++ top_in from) }
{
    match from {
        CellId::Top => Ok(cells.push(CellId::Top)?),
        CellId::Symbol(_) => Ok(()),
    }
}

/// Pushes the cells of these symbols.
fn push_symbols(cells: &mut Vec<CellId>, symbols: &[u32]) -> Result<(), NoMemory>
    ensures { OnOk result (cells.new.items ≡ cells.old.items ++ map Symbol symbols.now) }
{
    for number in symbols {
        cells.push(CellId::Symbol(*number))?;
    }
    Ok(())
}

/// Returns the symbols to which calls lead from a cell, itself first where it is one.
fn symbols_from(alloc: Global, layout: &Snapshot, from: CellId) -> Result<Vec<u32>, NoMemory>
    ensures { IfOk result (λ found. found.items ≡ symbols_from layout.now from) }
{
    let mut seen = Cells::new(alloc);
    let mut found = Vec::new(alloc);
    let mut pending = Vec::new(alloc);
    push_first(alloc, &mut pending, layout, from)?;
    while let Some(number) = pending.pop() {
        if seen.add(number)? {
            found.push(number)?;
            push_called(alloc, &mut pending, layout, CellId::Symbol(number))?;
        }
    }
    Ok(found)
}

/// Pushes the symbol that the cell is, or those that the top cell calls, so that they are popped in order.
fn push_first(
    alloc: Global,
    pending: &mut Vec<u32>,
    layout: &Snapshot,
    from: CellId,
) -> Result<(), NoMemory>
    ensures { OnOk result (pending.new.items ≡ pending.old.items ++ reverse (first_in layout.now from)) }
{
    match from {
        CellId::Top => push_called(alloc, pending, layout, CellId::Top),
        CellId::Symbol(number) => Ok(pending.push(number)?),
    }
}

/// Pushes the symbols that are called in a cell, so that they are popped in order of the calls.
fn push_called(
    alloc: Global,
    pending: &mut Vec<u32>,
    layout: &Snapshot,
    cell: CellId,
) -> Result<(), NoMemory>
    ensures { OnOk result (pending.new.items ≡ pending.old.items ++ reverse (called_in layout.now cell)) }
{
    let mut called = called_in(alloc, layout, cell)?;
    while let Some(target) = called.pop() {
        pending.push(target)?;
    }
    Ok(())
}

/// Returns the symbols that are called in a cell, in order of the calls.
fn called_in(alloc: Global, layout: &Snapshot, cell: CellId) -> Result<Vec<u32>, NoMemory>
    ensures { IfOk result (λ called. called.items ≡ called_in layout.now cell) }
{
    let mut called = Vec::new(alloc);
    for (_, target, _) in layout.calls(cell) {
        called.push(target)?;
    }
    Ok(called)
}

/// Returns whether the cell is one of these.
fn is_among(cell: CellId, cells: &[CellId]) -> bool
    ensures { result ≡ is_among cell cells.now }
{
    cells.iter().any(|other| cell == *other)
}

/// A call is made, where these cells are reached from its target.
fn place_act(
    alloc: Global,
    new: ItemId,
    cell: CellId,
    target: u32,
    turn: Turn,
    cells: &[CellId],
) -> Result<Act, NoMemory>
    ensures { IfOk result (λ act. act ≡ place_act new cell target turn cells.now) }
{
    let mut elements = Vec::with_capacity(alloc, cells.len() + 3)?;
    elements.push(Element::Item(new))?;
    if let CellId::Symbol(number) = cell {
        elements.push(Element::Cell(number))?;
    }
    elements.push(Element::Cell(target))?;
    push_calls(&mut elements, cells)?;
    let call = Item::Placed { cell, target, turn };
    Ok(make_act(new, call, elements))
}

/// Pushes the calls in each of these cells.
fn push_calls(elements: &mut Vec<Element>, cells: &[CellId]) -> Result<(), NoMemory>
    ensures { OnOk result (elements.new.items ≡ elements.old.items ++ map Calls cells.now) }
{
    for cell in cells {
        elements.push(Element::Calls(*cell))?;
    }
    Ok(())
}
