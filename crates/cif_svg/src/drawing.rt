//! The picture as a whole.

use crate::cell_names::CellNames;
use crate::extents::{Extent, Extents};
use crate::foot::put_foot;
use crate::frame::{Frame, caption_of};
use crate::groups::{put_groups, put_id};
use crate::legend::put_legend;
use crate::marks::put_marks;
use crate::order::{callees_first, drawn_with, place_of};
use crate::style::style_of;
use lay_cells::CellId;
use lay_items::Snapshot;
use lay_point::{LayerName, NoMemory};
use std::alloc::Global;
use std::io::Write;

/// The most shapes of a layer that get outlines and one opacity. Of more, each is small, and so many outlines are dark.
const MAX_OUTLINED: u64 = 4_000;

/// What is drawn.
#[derive(Drop)]
pub(crate) struct Plan<'s> {
    pub(crate) snapshot: &'s Snapshot,
    pub(crate) names: &'s CellNames,
    /// The cell that is drawn.
    pub(crate) cell: CellId,
    /// It and the cells that are drawn with it, callers first.
    pub(crate) cells: Vec<CellId>,
    pub(crate) extents: Extents,
}

/// A layer of the picture.
#[derive(Clone, Copy, Debug)]
pub(crate) struct Sheet {
    /// Its place among all layers of the text, which says how it looks.
    pub(crate) place: usize,
    pub(crate) layer: LayerName,
    pub(crate) extent: Extent,
}

/// Returns the picture of a cell.
pub(crate) fn picture(
    alloc: Global,
    snapshot: &Snapshot,
    names: &CellNames,
    cell: CellId,
) -> Result<Vec<u8>, NoMemory> {
    let order = callees_first(alloc, snapshot)?;
    let plan = Plan {
        snapshot,
        names,
        cell,
        cells: drawn_with(alloc, snapshot, &order, cell)?,
        extents: Extents::of(alloc, snapshot, &order)?,
    };
    let sheets = sheets_of(alloc, &plan)?;
    let caption = caption_of(alloc, &plan)?;
    let frame = Frame::of(&plan, &sheets, &caption);
    let mut lines = Vec::new(alloc);
    put_head(&mut lines, &frame)?;
    put_styles(&mut lines, &sheets, &frame)?;
    put_groups(&mut lines, &plan)?;
    lines.extend_from_slice(b"</defs>\n")?;
    put_sheets(&mut lines, &plan, &by_area(alloc, &sheets)?, &frame)?;
    put_marks(alloc, &mut lines, &plan, &frame)?;
    put_legend(&mut lines, &sheets, &frame)?;
    put_foot(&mut lines, &caption, &frame)?;
    Ok(lines)
}

/// Returns the layers of which the drawn cell holds something, in order of their names.
fn sheets_of(alloc: Global, plan: &Plan<'_>) -> Result<Vec<Sheet>, NoMemory> {
    let mut sheets = Vec::new(alloc);
    let Some(held) = plan.extents.held(place_of(plan.snapshot, plan.cell)) else {
        return Ok(sheets);
    };
    for (place, extent) in held.iter() {
        if let Some(layer) = plan.extents.layers().get(*place) {
            sheets.push(Sheet {
                place: *place,
                layer: *layer,
                extent: *extent,
            })?;
        }
    }
    Ok(sheets)
}

/// Returns the layers with the largest area first.
fn by_area(alloc: Global, sheets: &[Sheet]) -> Result<Vec<Sheet>, NoMemory> {
    let mut sorted = Vec::from_slice(alloc, sheets)?;
    sorted.sort_unstable_by(|first: &Sheet, second: &Sheet| {
        second
            .extent
            .area
            .cmp(&first.extent.area)
            .then(first.place.cmp(&second.place))
    });
    Ok(sorted)
}

/// Appends the head: the picture's size, a white ground and the size of letters.
fn put_head(lines: &mut Vec<u8>, frame: &Frame) -> Result<(), NoMemory> {
    let (width, height, letter) = (frame.whole_width(), frame.whole_height(), frame.letter);
    let (wide, high) = (frame.pixels(width), frame.pixels(height));
    let margin = frame.letters(2);
    write!(
        lines,
        "<svg xmlns=\"http://www.w3.org/2000/svg\" viewBox=\"-{margin} -{margin} {width} {height}\" width=\"{wide}\" height=\"{high}\" font-family=\"monospace\" font-size=\"{letter}\">\n<style>g>path,g>rect{{vector-effect:non-scaling-stroke}}</style>\n<rect x=\"-{margin}\" y=\"-{margin}\" width=\"{width}\" height=\"{height}\" fill=\"white\"/>\n"
    )
    .map_err(|_| NoMemory)?;
    Ok(())
}

/// Appends the begin of the definitions, and the hatches.
fn put_styles(lines: &mut Vec<u8>, sheets: &[Sheet], frame: &Frame) -> Result<(), NoMemory> {
    lines.extend_from_slice(b"<defs>\n")?;
    for sheet in sheets {
        put_hatch(lines, sheet, frame)?;
    }
    Ok(())
}

/// Appends the hatch of a layer that has one.
fn put_hatch(lines: &mut Vec<u8>, sheet: &Sheet, frame: &Frame) -> Result<(), NoMemory> {
    let (style, letter) = (style_of(sheet.place), frame.letter);
    let Some(hatch) = style.hatch else {
        return Ok(());
    };
    let colour = style.colour;
    lines.extend_from_slice(b"<pattern id=\"hatch-")?;
    lines.extend_from_slice(sheet.layer.as_bytes())?;
    write!(
        lines,
        "\" width=\"{letter}\" height=\"{letter}\" viewBox=\"0 0 8 8\" patternUnits=\"userSpaceOnUse\"><rect width=\"8\" height=\"8\" fill=\"white\"/><path d=\"{hatch}\" fill=\"none\" stroke=\"{colour}\" stroke-width=\"2\"/></pattern>\n"
    )
    .map_err(|_| NoMemory)?;
    Ok(())
}

/// Appends the layers, each a group of its name; a y axis that goes upward is turned there.
fn put_sheets(
    lines: &mut Vec<u8>,
    plan: &Plan<'_>,
    sheets: &[Sheet],
    frame: &Frame,
) -> Result<(), NoMemory> {
    let (right, down) = (frame.x_of(0), frame.y_of(0));
    write!(
        lines,
        "<g transform=\"matrix(1 0 0 -1 {right} {down})\" fill-rule=\"evenodd\" stroke-width=\"2\">\n"
    )
    .map_err(|_| NoMemory)?;
    for sheet in sheets {
        put_sheet(lines, plan, sheet)?;
    }
    lines.extend_from_slice(b"</g>\n")?;
    Ok(())
}

/// Appends a layer. Where its shapes are few it is of one opacity, and the outlines of all lie below all insides, so that an outline
/// is round the layer and not round each shape. Browsers take minutes for that where they are many.
fn put_sheet(lines: &mut Vec<u8>, plan: &Plan<'_>, sheet: &Sheet) -> Result<(), NoMemory> {
    let is_outlined = sheet.extent.shapes <= MAX_OUTLINED;
    put_begin(lines, sheet, is_outlined)?;
    if is_outlined {
        put_use(lines, plan, sheet)?;
        lines.extend_from_slice(b" fill=\"none\" stroke=\"black\"/>\n")?;
    }
    put_use(lines, plan, sheet)?;
    lines.extend_from_slice(b" fill=\"")?;
    put_fill(lines, sheet)?;
    lines.extend_from_slice(b"\"/>\n</g>\n")?;
    Ok(())
}

/// Appends the begin of a layer's group.
fn put_begin(lines: &mut Vec<u8>, sheet: &Sheet, is_outlined: bool) -> Result<(), NoMemory> {
    lines.extend_from_slice(b"<g id=\"")?;
    lines.extend_from_slice(sheet.layer.as_bytes())?;
    let opacity: &[u8] = if is_outlined {
        b"\" opacity=\"0.65\"><title>"
    } else {
        b"\" fill-opacity=\"0.65\"><title>"
    };
    lines.extend_from_slice(opacity)?;
    lines.extend_from_slice(sheet.layer.as_bytes())?;
    lines.extend_from_slice(b"</title>\n")?;
    Ok(())
}

/// Appends the begin of a use of what the drawn cell holds of a layer.
fn put_use(lines: &mut Vec<u8>, plan: &Plan<'_>, sheet: &Sheet) -> Result<(), NoMemory> {
    lines.extend_from_slice(b"<use href=\"#")?;
    put_id(lines, plan.cell, &sheet.layer)?;
    lines.push(b'"')?;
    Ok(())
}

/// Appends how the inside of a layer's shapes is filled.
pub(crate) fn put_fill(lines: &mut Vec<u8>, sheet: &Sheet) -> Result<(), NoMemory> {
    let style = style_of(sheet.place);
    if style.hatch.is_none() {
        lines.extend_from_slice(style.colour.as_bytes())?;
        return Ok(());
    }
    lines.extend_from_slice(b"url(#hatch-")?;
    lines.extend_from_slice(sheet.layer.as_bytes())?;
    lines.push(b')')?;
    Ok(())
}
