//! Names of cells and labels in the picture.
//!
//! A text that would lie on one that is there already is left out, and so is a name that is longer than its cell is wide.

use crate::bounds::Bounds;
use crate::cell_names::Label;
use crate::drawing::Plan;
use crate::frame::{Frame, count};
use crate::placed::{Placed, placed_in};
use crate::text::put_escaped;
use lay_point::{NoMemory, Point, Turn};
use std::alloc::Global;
use std::io::Write;

/// The texts in the drawing so far.
#[derive(Drop)]
struct Marks {
    /// Where they are.
    boxes: Vec<Bounds>,
}

/// Appends the labels, and where they leave room the names of called cells.
pub(crate) fn put_marks(
    alloc: Global,
    lines: &mut Vec<u8>,
    plan: &Plan<'_>,
    frame: &Frame,
) -> Result<(), NoMemory> {
    let placed = placed_in(alloc, plan, frame)?;
    let mut marks = Marks {
        boxes: Vec::new(alloc),
    };
    let halo = (frame.letter / 4).max(1);
    write!(
        lines,
        "<g id=\"labels\" stroke=\"white\" stroke-width=\"{halo}\" paint-order=\"stroke\">\n"
    )
    .map_err(|_| NoMemory)?;
    for place in &placed {
        put_labels(lines, &mut marks, plan, frame, place)?;
    }
    put_names(lines, &mut marks, plan, frame, &placed)?;
    lines.extend_from_slice(b"</g>\n")?;
    Ok(())
}

/// A side of a place.
#[derive(Clone, Copy, Debug)]
enum Side {
    Left,
    Right,
}

impl Marks {
    /// Takes the box for a text, and returns whether it was free.
    fn take(&mut self, wanted: Bounds) -> Result<bool, NoMemory> {
        if self.boxes.iter().any(|taken| taken.meets(wanted)) {
            return Ok(false);
        }
        self.boxes.push(wanted)?;
        Ok(true)
    }
}

/// Appends the labels of a placed cell.
fn put_labels(
    lines: &mut Vec<u8>,
    marks: &mut Marks,
    plan: &Plan<'_>,
    frame: &Frame,
    placed: &Placed,
) -> Result<(), NoMemory> {
    for label in plan.names.labels_of(placed.cell) {
        put_label(lines, marks, frame, placed.turn, label)?;
    }
    Ok(())
}

/// Appends a label, if its place is in the drawing and its text has room there.
fn put_label(
    lines: &mut Vec<u8>,
    marks: &mut Marks,
    frame: &Frame,
    turn: Turn,
    label: &Label,
) -> Result<(), NoMemory> {
    let Some(place) = turn.apply(label.place) else {
        return Ok(());
    };
    let width = frame.wide(count(label.text.len()));
    let side = side_of(frame, place, width);
    if !frame.bounds.holds(place) || !marks.take(beside(frame, place, width, side))? {
        return Ok(());
    }
    put_dot(lines, frame, place, side)?;
    put_escaped(lines, &label.text)?;
    lines.extend_from_slice(b"</text>\n")?;
    Ok(())
}

/// Returns the side on which a text of this width is put: the right one, if it ends in the drawing there.
fn side_of(frame: &Frame, place: Point, width: i64) -> Side {
    let end = frame.x_of(i64::from(place.x)).saturating_add(width);
    if end > frame.bounds.width() {
        Side::Left
    } else {
        Side::Right
    }
}

/// Appends a dot at a place, and the begin of a text beside it.
fn put_dot(lines: &mut Vec<u8>, frame: &Frame, place: Point, side: Side) -> Result<(), NoMemory> {
    let (x, y) = (
        frame.x_of(i64::from(place.x)),
        frame.y_of(i64::from(place.y)),
    );
    let (dot, base) = ((frame.letter / 6).max(1), frame.base(y));
    let aside = frame.letter / 3;
    let (anchor, start) = match side {
        Side::Left => ("end", x.saturating_sub(aside)),
        Side::Right => ("start", x.saturating_add(aside)),
    };
    write!(
        lines,
        "<circle cx=\"{x}\" cy=\"{y}\" r=\"{dot}\"/><text x=\"{start}\" y=\"{base}\" text-anchor=\"{anchor}\">"
    )
    .map_err(|_| NoMemory)?;
    Ok(())
}

/// Returns the box of a text of this width on a side of a place.
fn beside(frame: &Frame, place: Point, width: i64, side: Side) -> Bounds {
    let (at, half) = (Bounds::of(place), frame.letter / 2);
    let far = width.saturating_add(half);
    let high = Bounds {
        low: at.low.saturating_sub(half),
        high: at.high.saturating_add(half),
        ..at
    };
    match side {
        Side::Left => Bounds {
            left: at.left.saturating_sub(far),
            ..high
        },
        Side::Right => Bounds {
            right: at.right.saturating_add(far),
            ..high
        },
    }
}

/// Appends the names of the placed cells but the drawn one, which is the first.
fn put_names(
    lines: &mut Vec<u8>,
    marks: &mut Marks,
    plan: &Plan<'_>,
    frame: &Frame,
    placed: &[Placed],
) -> Result<(), NoMemory> {
    for place in placed.iter().skip(1) {
        if let Some(name) = plan.names.name_of(place.cell) {
            put_name(lines, marks, frame, place.bounds, name)?;
        }
    }
    Ok(())
}

/// Appends a cell's name in the middle of what it shows, and the box of that.
fn put_name(
    lines: &mut Vec<u8>,
    marks: &mut Marks,
    frame: &Frame,
    bounds: Bounds,
    name: &[u8],
) -> Result<(), NoMemory> {
    let width = frame.wide(count(name.len()));
    let fits = width <= bounds.width() && frame.letter <= bounds.height();
    let wanted = amid(frame, bounds, width);
    if !fits || !marks.take(wanted)? {
        return Ok(());
    }
    put_box(lines, frame, bounds)?;
    let x = frame.x_of(middle(bounds.left, bounds.right));
    let y = frame.y_of(middle(bounds.low, bounds.high));
    let base = frame.base(y);
    write!(
        lines,
        "<text x=\"{x}\" y=\"{base}\" text-anchor=\"middle\" font-style=\"italic\">"
    )
    .map_err(|_| NoMemory)?;
    put_escaped(lines, name)?;
    lines.extend_from_slice(b"</text>\n")?;
    Ok(())
}

/// Returns the box of a text of this width in the middle of a box.
fn amid(frame: &Frame, bounds: Bounds, width: i64) -> Bounds {
    let x = middle(bounds.left, bounds.right);
    let y = middle(bounds.low, bounds.high);
    Bounds {
        left: x.saturating_sub(width / 2),
        right: x.saturating_add(width / 2),
        low: y.saturating_sub(frame.letter / 2),
        high: y.saturating_add(frame.letter / 2),
    }
}

/// Returns the middle of two numbers.
fn middle(low: i64, high: i64) -> i64 {
    low.saturating_add(high.saturating_sub(low) / 2)
}

/// Appends a box.
fn put_box(lines: &mut Vec<u8>, frame: &Frame, bounds: Bounds) -> Result<(), NoMemory> {
    let (x, y) = (frame.x_of(bounds.left), frame.y_of(bounds.high));
    let (width, height) = (bounds.width(), bounds.height());
    write!(
        lines,
        "<rect x=\"{x}\" y=\"{y}\" width=\"{width}\" height=\"{height}\" fill=\"none\" stroke=\"black\" stroke-width=\"1\" stroke-dasharray=\"2 4\"/>"
    )
    .map_err(|_| NoMemory)?;
    Ok(())
}
