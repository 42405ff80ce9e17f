//! Measures of a picture.

use crate::bounds::Bounds;
use crate::drawing::{Plan, Sheet};
use crate::order::place_of;
use crate::text::{put_escaped, put_micrometres};
use lay_cells::CellId;
use lay_point::{NoMemory, Point};
use std::alloc::Global;
use std::io::Write;

/// How many letters a picture's longer side is long, about.
const LETTERS: i64 = 48;

/// The longer side of a picture in pixels.
const PIXELS: i64 = 1_000;

/// The fewest rows of a legend of several columns.
const MIN_ROWS: i64 = 8;

/// A picture's measures, in database units.
#[derive(Clone, Copy, Debug, PartialEq, Eq)]
pub(crate) struct Frame {
    /// The box of what is drawn.
    pub(crate) bounds: Bounds,
    /// The height of a letter, and the unit of all distances round the drawing.
    pub(crate) letter: i64,
    /// How many layers the legend has.
    layers: i64,
    /// How many letters the longest of their names has.
    longest: i64,
    /// How many letters are under the drawing.
    caption: i64,
}

impl Frame {
    /// The measures of a picture with this caption.
    pub(crate) fn of(plan: &Plan<'_>, sheets: &[Sheet], caption: &[u8]) -> Frame {
        let bounds = drawn_bounds(plan);
        Frame {
            bounds,
            letter: (bounds.width().max(bounds.height()) / LETTERS).max(1),
            layers: count(sheets.len()),
            longest: longest_name(sheets),
            caption: count(caption.len()),
        }
    }

    /// So many times a letter's height.
    pub(crate) fn letters(&self, count: i64) -> i64 {
        self.letter.saturating_mul(count)
    }

    /// How wide so many letters are beside each other, and a little more.
    pub(crate) fn wide(&self, count: i64) -> i64 {
        self.letters(count).saturating_mul(5) / 8
    }

    /// Where a place of the layout is in the picture, from its left side.
    pub(crate) fn x_of(&self, x: i64) -> i64 {
        x.saturating_sub(self.bounds.left)
    }

    /// Where a place of the layout is in the picture, from its upper side.
    pub(crate) fn y_of(&self, y: i64) -> i64 {
        self.bounds.high.saturating_sub(y)
    }

    /// Where letters stand whose middle is at this height.
    pub(crate) fn base(&self, y: i64) -> i64 {
        y.saturating_add(self.letters(3) / 8)
    }

    /// How many rows the legend has.
    pub(crate) fn rows(&self) -> i64 {
        let room = self.bounds.height().checked_div(self.letters(3));
        room.unwrap_or(0).max(MIN_ROWS)
    }

    /// How many columns the legend has.
    fn columns(&self) -> i64 {
        let last = self.layers.saturating_sub(1);
        last.checked_div(self.rows()).unwrap_or(0).saturating_add(1)
    }

    /// How wide a column of the legend is.
    pub(crate) fn column(&self) -> i64 {
        self.wide(self.longest).saturating_add(self.letters(5))
    }

    /// The width of the whole picture: margins, the drawing and its legend, or what is under them.
    pub(crate) fn whole_width(&self) -> i64 {
        let legend = self.column().saturating_mul(self.columns());
        self.bounds
            .width()
            .saturating_add(legend)
            .max(self.wide(self.caption))
            .saturating_add(self.letters(4))
    }

    /// The height of the drawing, or of the legend beside it.
    pub(crate) fn body_height(&self) -> i64 {
        let legend = self.letters(self.layers.min(self.rows()).saturating_mul(3));
        self.bounds.height().max(legend)
    }

    /// The height of the whole picture: margins, the drawing or the legend, and two lines under it.
    pub(crate) fn whole_height(&self) -> i64 {
        self.body_height().saturating_add(self.letters(8))
    }

    /// How many pixels a side of this length has.
    pub(crate) fn pixels(&self, side: i64) -> i64 {
        let longer = self.whole_width().max(self.whole_height());
        let pixels = side.saturating_mul(PIXELS).checked_div(longer);
        pixels.unwrap_or(0).max(1)
    }
}

/// Returns the box of the drawn cell, or the origin alone where it holds nothing.
fn drawn_bounds(plan: &Plan<'_>) -> Bounds {
    plan.extents
        .bounds(place_of(plan.snapshot, plan.cell))
        .unwrap_or(Bounds::of(Point { x: 0, y: 0 }))
}

/// Returns how many letters the longest name has.
fn longest_name(sheets: &[Sheet]) -> i64 {
    let mut longest = 0;
    for sheet in sheets {
        longest = longest.max(count(sheet.layer.as_bytes().len()));
    }
    longest
}

/// Returns a number of things, up to a million, as one that may be below 0.
pub(crate) fn count(things: usize) -> i64 {
    things.min(1_000_000) as i64
}

/// Returns what is said under the drawing: the cell, and how large what it holds is.
pub(crate) fn caption_of(alloc: Global, plan: &Plan<'_>) -> Result<Vec<u8>, NoMemory> {
    let bounds = drawn_bounds(plan);
    let mut caption = Vec::new(alloc);
    put_cell(&mut caption, plan)?;
    caption.extend_from_slice(b": ")?;
    put_micrometres(&mut caption, bounds.width())?;
    caption.extend_from_slice(" \u{d7} ".as_bytes())?;
    put_micrometres(&mut caption, bounds.height())?;
    caption.extend_from_slice(" \u{b5}m".as_bytes())?;
    Ok(caption)
}

/// Appends what the drawn cell is called.
fn put_cell(caption: &mut Vec<u8>, plan: &Plan<'_>) -> Result<(), NoMemory> {
    match (plan.cell, plan.names.name_of(plan.cell)) {
        (CellId::Top, _) => caption.extend_from_slice(b"top cell")?,
        (CellId::Symbol(number), None) => {
            write!(caption, "symbol {number}").map_err(|_| NoMemory)?;
        }
        (CellId::Symbol(number), Some(name)) => {
            put_escaped(caption, name)?;
            write!(caption, ", symbol {number}").map_err(|_| NoMemory)?;
        }
    }
    Ok(())
}
