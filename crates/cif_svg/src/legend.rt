//! The legend beside the drawing.

use crate::drawing::{Sheet, put_fill};
use crate::frame::{Frame, count};
use lay_point::NoMemory;
use std::io::Write;

/// Appends the legend: for each layer a square that looks as it does, and its name.
pub(crate) fn put_legend(
    lines: &mut Vec<u8>,
    sheets: &[Sheet],
    frame: &Frame,
) -> Result<(), NoMemory> {
    lines.extend_from_slice(b"<g id=\"legend\">\n")?;
    for (number, sheet) in sheets.iter().enumerate() {
        put_entry(lines, count(number), sheet, frame)?;
    }
    lines.extend_from_slice(b"</g>\n")?;
    Ok(())
}

/// Appends the entry of a layer.
fn put_entry(
    lines: &mut Vec<u8>,
    number: i64,
    sheet: &Sheet,
    frame: &Frame,
) -> Result<(), NoMemory> {
    let (x, y) = (left_of(frame, number), upper_of(frame, number));
    let (side, text) = (frame.letters(2), x.saturating_add(frame.letters(3)));
    let base = frame.base(y.saturating_add(frame.letter));
    write!(
        lines,
        "<rect x=\"{x}\" y=\"{y}\" width=\"{side}\" height=\"{side}\" stroke=\"black\" opacity=\"0.65\" fill=\""
    )
    .map_err(|_| NoMemory)?;
    put_fill(lines, sheet)?;
    write!(lines, "\"/><text x=\"{text}\" y=\"{base}\">").map_err(|_| NoMemory)?;
    lines.extend_from_slice(sheet.layer.as_bytes())?;
    lines.extend_from_slice(b"</text>\n")?;
    Ok(())
}

/// Returns how far the entry of this number is from the drawing's left side: entries go down column by column.
fn left_of(frame: &Frame, number: i64) -> i64 {
    let column = number.checked_div(frame.rows()).unwrap_or(0);
    frame
        .bounds
        .width()
        .saturating_add(frame.letters(2))
        .saturating_add(frame.column().saturating_mul(column))
}

/// Returns how far the entry of this number is from the drawing's upper side.
fn upper_of(frame: &Frame, number: i64) -> i64 {
    let row = number.checked_rem(frame.rows()).unwrap_or(0);
    frame.letters(row.saturating_mul(3))
}
