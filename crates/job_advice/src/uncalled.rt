//! The symbols that no symbol calls.
ghost use Rattle.std.specs.Prelude.{◌≡◌, ℕ, IfOk, OnOk};
ghost use Rattle.lay_cells.specs.Symbols.{has_symbol};
ghost use Rattle.lay_cells.specs.declared.cell_id.CellId.TheVariants.{Symbol};
ghost use Rattle.lay_items.specs.Graphs.{with_called};
ghost use Rattle.lay_layouts.specs.Lent.{calls_in};
ghost use Rattle.job_advice.specs.Uncalled.{is_called, uncalled_symbols};

use lay_cells::{CellId, Cells};
use lay_items::Snapshot;
use lay_point::NoMemory;
use std::alloc::Global;

/// Returns the numbers of the symbols that no symbol calls, in the order of their slots.
///
/// # Errors
///
/// `NoMemory`, if an allocation fails.
///
/// # Cost
///
/// It goes over the calls in each symbol, and puts those that are called into a hash table.
pub fn uncalled_symbols(alloc: Global, layout: &Snapshot) -> Result<Vec<u32>, NoMemory>
    ensures { IfOk result (λ numbers. numbers.items ≡ uncalled_symbols layout.now) }
{
    let called = called_symbols(alloc, layout)?;
    let cells = layout.cells();
    let mut uncalled = Vec::new(alloc);
    for place in 0..cells.len() {
        let number = cells.at(place).unwrap();
        if called.position(number).is_none() {
            uncalled.push(number)?;
        }
    }
    Ok(uncalled)
}

/// Returns the symbols that symbols call.
fn called_symbols(alloc: Global, layout: &Snapshot) -> Result<Cells, NoMemory>
    ensures { IfOk result (λ called. (number : ℕ) → has_symbol called number ≡ is_called layout.now number) }
{
    let cells = layout.cells();
    let mut called = Cells::new(alloc);
    for place in 0..cells.len() {
        add_called(&mut called, layout, cells.at(place).unwrap())?;
    }
    Ok(called)
}

/// Adds the symbols that the symbol of this number calls, where they are new.
fn add_called(called: &mut Cells, layout: &Snapshot, number: u32) -> Result<(), NoMemory>
    ensures { OnOk result (called.new ≡ with_called called.old (calls_in layout.now (Symbol number))) }
{
    for (_, target, _) in layout.calls(CellId::Symbol(number)) {
        called.add(target)?;
    }
    Ok(())
}
