//! What a command is to do in a transaction, or why it is refused.
ghost use Rattle.std.specs.Prelude.{◌≡◌};
ghost use Rattle.lay_point.specs.Memory.{IsAnswer};
ghost use Rattle.txn_commands.specs.Plans.{plan};

use crate::act::Act;
use crate::booleans::{BoolArgs, plan_bool};
use crate::calls::plan_place;
use crate::cells::{plan_drop_cell, plan_make_cell};
use crate::changes::{plan_delete, plan_layer, plan_look, plan_move};
use crate::layout_view::LayoutView;
use crate::shapes::{plan_box, plan_poly};
use band_workers::Bands;
use lay_layouts::ItemId;
use std::alloc::Global;
use std::thread::Threads;
use txn_commands::{CmdFault, Command};

/// Plans a command on the layout as its transaction sees it, whose next new item has this id. The refusals
/// come in the order of each command's tests. Any answer can give way to `NoMemory`. `bands` finds the
/// edges of a Boolean.
///
/// # Errors
///
/// The first refusal of the command's tests, in their order; `NoMemory`, if an allocation fails.
///
/// # Cost
///
/// Of a call that of a search of the calls, of a symbol that is dropped that of a pass over the items, of
/// an operation that of two flattenings and of `combine`. Of all others a few look-ups.
pub fn plan(
    rt: &(impl Threads + Sync),
    alloc: Global,
    bands: &impl Bands,
    seen: &LayoutView<'_>,
    new: ItemId,
    command: &Command,
) -> Result<Act, CmdFault>
    ensures { IsAnswer CmdFault.NoMemory result (plan new command.now seen.now) }
{
    match command {
        Command::Box { cell, layer, a, b } => plan_box(alloc, seen, new, *cell, *layer, *a, *b),
        Command::Poly {
            cell,
            layer,
            points,
        } => plan_poly(alloc, seen, new, *cell, *layer, points.as_slice()),
        Command::Delete(id) => plan_delete(alloc, seen, new, *id),
        Command::Move { id, dx, dy } => plan_move(alloc, seen, new, *id, *dx, *dy),
        Command::SetLayer { id, layer } => plan_layer(alloc, seen, new, *id, *layer),
        Command::Place { cell, target, turn } => {
            plan_place(alloc, seen, new, *cell, *target, *turn)
        }
        Command::Look(id) => plan_look(alloc, seen, new, *id),
        Command::Bool {
            op,
            cell,
            a,
            b,
            out,
        } => {
            let asked = BoolArgs::new(*op, *cell, *a, *b, *out);
            plan_bool(rt, alloc, bands, seen, new, asked)
        }
        Command::MakeCell(number) => plan_make_cell(alloc, seen, new, *number),
        Command::DropCell(number) => plan_drop_cell(alloc, seen, new, *number),
    }
}
