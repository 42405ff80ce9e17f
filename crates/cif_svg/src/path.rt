//! The paths of shapes.
//!
//! Boxes of a cell and layer share a path, since each runs anticlockwise there and the path is filled where any of them goes round
//! a place. Any other shape is a path of its own, filled by parity.

use crate::bounds::Bounds;
use lay_point::{NoMemory, Point, Ring};
use std::io::Write;

/// Appends the path of a shape's rings.
pub(crate) fn put_shape(lines: &mut Vec<u8>, rings: &[Ring]) -> Result<(), NoMemory> {
    lines.extend_from_slice(b"<path d=\"")?;
    for ring in rings {
        put_ring(lines, ring.points())?;
    }
    lines.extend_from_slice(b"\"/>\n")?;
    Ok(())
}

/// Appends a closed ring: its first point, and for each further one how far it is from the one before.
fn put_ring(lines: &mut Vec<u8>, points: &[Point]) -> Result<(), NoMemory> {
    let mut before = None;
    for point in points {
        put_step(lines, before, *point)?;
        before = Some(*point);
    }
    lines.push(b'z')?;
    Ok(())
}

/// Appends the step to a point.
fn put_step(lines: &mut Vec<u8>, before: Option<Point>, point: Point) -> Result<(), NoMemory> {
    let Some(before) = before else {
        let (x, y) = (point.x, point.y);
        return write!(lines, "M{x} {y}").map_err(|_| NoMemory);
    };
    let right = i64::from(point.x).saturating_sub(i64::from(before.x));
    let up = i64::from(point.y).saturating_sub(i64::from(before.y));
    if up == 0 {
        write!(lines, "h{right}").map_err(|_| NoMemory)
    } else if right == 0 {
        write!(lines, "v{up}").map_err(|_| NoMemory)
    } else {
        write!(lines, "l{right} {up}").map_err(|_| NoMemory)
    }
}

/// Appends a box to a path of boxes.
pub(crate) fn put_box(lines: &mut Vec<u8>, bounds: Bounds) -> Result<(), NoMemory> {
    let (x, y, width, height) = (bounds.left, bounds.low, bounds.width(), bounds.height());
    write!(lines, "M{x} {y}h{width}v{height}h-{width}z").map_err(|_| NoMemory)
}

/// Returns the box that a shape is, if it is one.
pub(crate) fn box_of(rings: &[Ring]) -> Option<Bounds> {
    let [ring] = rings else {
        return None;
    };
    let [first, second, third, fourth] = ring.points() else {
        return None;
    };
    let bounds = Bounds::of(*first).with(Bounds::of(*third));
    let is_across = first.y == second.y && second.x == third.x;
    let is_upright = first.x == second.x && second.y == third.y;
    let is_closed = Bounds::of(*second).with(Bounds::of(*fourth)) == bounds;
    let is_box = bounds.width() > 0 && bounds.height() > 0;
    (is_box && is_closed && (is_across || is_upright)).then_some(bounds)
}
