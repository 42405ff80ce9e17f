//! Where cells stand in the picture.

use crate::bounds::Bounds;
use crate::drawing::Plan;
use crate::frame::Frame;
use crate::order::place_of;
use lay_cells::CellId;
use lay_point::{NoMemory, Turn};
use std::alloc::Global;

/// The most places of cells that are looked at.
const MAX_PLACED: usize = 1_024;

/// The most calls of a cell that are looked at in each place.
const MAX_CALLS: usize = 65_536;

/// A cell where it stands in the picture.
#[derive(Clone, Copy, Debug)]
pub(crate) struct Placed {
    pub(crate) cell: CellId,
    pub(crate) turn: Turn,
    /// The box of what it shows there.
    pub(crate) bounds: Bounds,
}

/// Returns the drawn cell and those that are called in it, level by level, as far as they are large enough for letters.
pub(crate) fn placed_in(
    alloc: Global,
    plan: &Plan<'_>,
    frame: &Frame,
) -> Result<Vec<Placed>, NoMemory> {
    let mut placed = Vec::new(alloc);
    placed.push(Placed {
        cell: plan.cell,
        turn: Turn::unturned(),
        bounds: frame.bounds,
    })?;
    for next in 0..MAX_PLACED {
        let Some(caller) = placed.get(next).copied() else {
            break;
        };
        add_called(&mut placed, plan, frame, caller)?;
    }
    Ok(placed)
}

/// Adds what a placed cell calls.
fn add_called(
    placed: &mut Vec<Placed>,
    plan: &Plan<'_>,
    frame: &Frame,
    caller: Placed,
) -> Result<(), NoMemory> {
    for (_, target, turn) in plan.snapshot.calls(caller.cell).take(MAX_CALLS) {
        if placed.len() >= MAX_PLACED {
            return Ok(());
        }
        let called = placed_call(plan, caller.turn, CellId::Symbol(target), turn);
        if let Some(called) = called.filter(|called| is_large(called.bounds, frame)) {
            placed.push(called)?;
        }
    }
    Ok(())
}

/// Returns where a call with this turn places a cell, where the caller is placed by that one.
fn placed_call(plan: &Plan<'_>, caller: Turn, cell: CellId, turn: Turn) -> Option<Placed> {
    let turn = turn.then(caller)?;
    let bounds = plan.extents.bounds(place_of(plan.snapshot, cell))?;
    Some(Placed {
        cell,
        turn,
        bounds: bounds.turned(turn),
    })
}

/// Returns whether letters have room in the box.
fn is_large(bounds: Bounds, frame: &Frame) -> bool {
    let least = frame.letters(2);
    bounds.width() >= least || bounds.height() >= least
}
