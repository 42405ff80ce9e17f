//! The ends of walks.
ghost use Rattle.std.specs.Prelude.{◌≡◌, ◌++◌, OnOk};
ghost use Rattle.lay_flat.specs.Ends.{ends_within, turn_after};

use crate::call_lists::CallLists;
use lay_cells::CellId;
use lay_point::{NoMemory, Turn};
use std::alloc::Global;

/// Where a walk ends.
#[derive(Clone, Copy, Debug)]
pub struct End {
    /// The cell.
    pub cell: CellId,
    /// What is done to all points there, where that is in range.
    pub turn: Option<Turn>,
}

/// Appends the ends of the walks from a cell of at most so many calls, behind calls with this turn.
pub(crate) fn list_ends(
    alloc: Global,
    lists: &mut CallLists<'_>,
    cell: CellId,
    turn: Option<Turn>,
    calls: usize,
    ends: &mut Vec<End>,
) -> Result<(), NoMemory>
    ensures ends { OnOk result (ends.new.items ≡ ends.old.items ++ ends_within lists.old calls cell turn) }
    ensures same { OnOk result (lists.new ≡ lists.old) }
{
    ends.push(End { cell, turn })?;
    if calls == 0 {
        return Ok(());
    }
    let list = lists.of(alloc, cell)?;
    let here = list.as_slice();
    for call in here {
        let next = turn_after(turn, call.2);
        list_ends(alloc, lists, CellId::Symbol(call.1), next, calls - 1, ends)?;
    }
    Ok(())
}

/// Returns the turn of a call and then this one, where that is in range.
fn turn_after(turn: Option<Turn>, call: Turn) -> Option<Turn>
    ensures { result ≡ turn_after turn call }
{
    match turn {
        Some(turn) => call.then(turn),
        None => None,
    }
}
