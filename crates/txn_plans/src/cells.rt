//! Commands that make and drop symbols.
ghost use Rattle.std.specs.Prelude.{◌≡◌};
ghost use Rattle.lay_point.specs.Memory.{IsAnswer};
ghost use Rattle.txn_commands.specs.declared.command.Command.TheVariants as command;
ghost use Rattle.txn_commands.specs.Plans.{is_used, plan};
ghost use Rattle.txn_plans.specs.Using.{is_use};

use crate::act::{Act, drop_cell_act, make_cell_act};
use crate::layout_view::LayoutView;
use lay_cells::{CellId, MAX_SYMBOL};
use lay_items::Snapshot;
use lay_layouts::{Item, ItemId};
use std::alloc::Global;
use txn_commands::CmdFault;

/// Plans that a symbol is made.
#[tactic(auto, unfolding(txn_commands::specs::Plans::plan))]
pub(crate) fn plan_make_cell(
    alloc: Global,
    seen: &LayoutView<'_>,
    new: ItemId,
    number: u32,
) -> Result<Act, CmdFault>
    ensures { IsAnswer CmdFault.NoMemory result (plan new (command.MakeCell number) seen.now) }
{
    if number > MAX_SYMBOL {
        return Err(CmdFault::OutOfRange);
    }
    if seen.slot(number).is_some() {
        return Err(CmdFault::CellThere);
    }
    Ok(make_cell_act(alloc, number)?)
}

/// Plans that a symbol goes.
#[tactic(auto, unfolding(txn_commands::specs::Plans::plan))]
pub(crate) fn plan_drop_cell(
    alloc: Global,
    seen: &LayoutView<'_>,
    new: ItemId,
    number: u32,
) -> Result<Act, CmdFault>
    ensures { IsAnswer CmdFault.NoMemory result (plan new (command.DropCell number) seen.now) }
{
    if seen.slot(number).is_none() {
        return Err(CmdFault::NoCell);
    }
    if is_used(&seen.whole(alloc)?, number) {
        return Err(CmdFault::CellUsed);
    }
    Ok(drop_cell_act(alloc, number)?)
}

/// Returns whether the symbol holds an item, or is called.
fn is_used(layout: &Snapshot, number: u32) -> bool
    ensures { result ≡ is_used layout.now number }
{
    for (id, item) in layout.version().iter() {
        if is_use(id, item, number) {
            return true;
        }
    }
    false
}

/// Returns whether the item of this id stands in the symbol, or calls it.
fn is_use(_id: ItemId, item: &Item, number: u32) -> bool
    ensures { result ≡ is_use number (_id, item.now) }
{
    match item {
        Item::Shape { cell, .. } => *cell == CellId::Symbol(number),
        Item::Placed { cell, target, .. } => *cell == CellId::Symbol(number) || *target == number,
    }
}
