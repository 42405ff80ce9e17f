//! What the cells hold, a group for each cell and layer.

use crate::drawing::Plan;
use crate::order::place_of;
use crate::path::{box_of, put_box, put_shape};
use lay_cells::CellId;
use lay_point::{LayerName, NoMemory, Point, Quarter, Turn};
use std::io::Write;

/// The most boxes of a path.
const MAX_BOXES: usize = 1_000;

/// Appends the groups of all cells that are drawn, each behind those that it uses.
pub(crate) fn put_groups(lines: &mut Vec<u8>, plan: &Plan<'_>) -> Result<(), NoMemory> {
    for cell in plan.cells.iter().rev() {
        put_cell(lines, plan, *cell)?;
    }
    Ok(())
}

/// Appends the groups of a cell, one for each layer of which it holds something.
fn put_cell(lines: &mut Vec<u8>, plan: &Plan<'_>, cell: CellId) -> Result<(), NoMemory> {
    let Some(held) = plan.extents.held(place_of(plan.snapshot, cell)) else {
        return Ok(());
    };
    for place in held.keys() {
        if let Some(layer) = plan.extents.layers().get(*place) {
            put_group(lines, plan, cell, *place, layer)?;
        }
    }
    Ok(())
}

/// Appends the group of a cell and a layer: its own shapes, and what it calls.
fn put_group(
    lines: &mut Vec<u8>,
    plan: &Plan<'_>,
    cell: CellId,
    place: usize,
    layer: &LayerName,
) -> Result<(), NoMemory> {
    lines.extend_from_slice(b"<g id=\"")?;
    put_id(lines, cell, layer)?;
    lines.extend_from_slice(b"\">\n")?;
    put_shapes(lines, plan, cell, layer)?;
    put_calls(lines, plan, cell, place, layer)?;
    lines.extend_from_slice(b"</g>\n")?;
    Ok(())
}

/// Appends the name of the group of a cell and a layer.
pub(crate) fn put_id(lines: &mut Vec<u8>, cell: CellId, layer: &LayerName) -> Result<(), NoMemory> {
    match cell {
        CellId::Top => lines.extend_from_slice(b"top-")?,
        CellId::Symbol(number) => write!(lines, "c{number}-").map_err(|_| NoMemory)?,
    }
    lines.extend_from_slice(layer.as_bytes())?;
    Ok(())
}

/// Appends the paths of the cell's own shapes on the layer: one of all boxes, and one for each other shape.
fn put_shapes(
    lines: &mut Vec<u8>,
    plan: &Plan<'_>,
    cell: CellId,
    layer: &LayerName,
) -> Result<(), NoMemory> {
    put_boxes(lines, plan, cell, layer)?;
    for (_, rings) in plan.snapshot.shapes(cell, layer) {
        if box_of(rings).is_none() {
            put_shape(lines, rings)?;
        }
    }
    Ok(())
}

/// Appends the path of the cell's own boxes on the layer, if there are any.
fn put_boxes(
    lines: &mut Vec<u8>,
    plan: &Plan<'_>,
    cell: CellId,
    layer: &LayerName,
) -> Result<(), NoMemory> {
    let mut boxes = 0usize;
    for (_, rings) in plan.snapshot.shapes(cell, layer) {
        if let Some(bounds) = box_of(rings) {
            put_begin(lines, boxes)?;
            put_box(lines, bounds)?;
            boxes = boxes.saturating_add(1);
        }
    }
    if boxes != 0 {
        lines.extend_from_slice(b"\"/>\n")?;
    }
    Ok(())
}

/// Appends what comes before a box, behind so many others.
fn put_begin(lines: &mut Vec<u8>, before: usize) -> Result<(), NoMemory> {
    if before == 0 {
        lines.extend_from_slice(b"<path fill-rule=\"nonzero\" d=\"")?;
    } else if before % MAX_BOXES == 0 {
        lines.extend_from_slice(b"\"/>\n<path fill-rule=\"nonzero\" d=\"")?;
    }
    Ok(())
}

/// Appends a use for each call of the cell that shows something of the layer.
fn put_calls(
    lines: &mut Vec<u8>,
    plan: &Plan<'_>,
    cell: CellId,
    place: usize,
    layer: &LayerName,
) -> Result<(), NoMemory> {
    for (_, target, turn) in plan.snapshot.calls(cell) {
        let called = CellId::Symbol(target);
        if plan.extents.holds(place_of(plan.snapshot, called), place) {
            lines.extend_from_slice(b"<use href=\"#")?;
            put_id(lines, called, layer)?;
            put_turn(lines, turn)?;
        }
    }
    Ok(())
}

/// Appends the rest of a use with this turn.
fn put_turn(lines: &mut Vec<u8>, turn: Turn) -> Result<(), NoMemory> {
    let Point { x, y } = turn.shift;
    match matrix_of(turn) {
        None => write!(lines, "\" x=\"{x}\" y=\"{y}\"/>\n").map_err(|_| NoMemory),
        Some(matrix) => {
            write!(lines, "\" transform=\"matrix({matrix} {x} {y})\"/>\n").map_err(|_| NoMemory)
        }
    }
}

/// Returns the first four numbers of the turn's matrix: where it takes (1, 0) and (0, 1). `None` where that is to themselves.
fn matrix_of(turn: Turn) -> Option<&'static str> {
    match (turn.mirror, turn.quarter) {
        (false, Quarter::R0) => None,
        (false, Quarter::R90) => Some("0 1 -1 0"),
        (false, Quarter::R180) => Some("-1 0 0 -1"),
        (false, Quarter::R270) => Some("0 -1 1 0"),
        (true, Quarter::R0) => Some("-1 0 0 1"),
        (true, Quarter::R90) => Some("0 -1 -1 0"),
        (true, Quarter::R180) => Some("1 0 0 -1"),
        (true, Quarter::R270) => Some("0 1 1 0"),
    }
}
