//! What is under the drawing: a scale bar and the caption.

use crate::frame::Frame;
use crate::text::put_micrometres;
use lay_point::NoMemory;
use std::io::Write;

/// Appends the scale bar with its length, and the caption under it.
pub(crate) fn put_foot(lines: &mut Vec<u8>, caption: &[u8], frame: &Frame) -> Result<(), NoMemory> {
    let bar = scale_bar(frame.bounds.width());
    let y = frame.body_height().saturating_add(frame.letters(3) / 2);
    let thick = (frame.letter / 4).max(1);
    let text = bar.saturating_add(frame.letter);
    let base = y.saturating_add(frame.letter / 2);
    let under = base.saturating_add(frame.letters(2));
    write!(
        lines,
        "<rect x=\"0\" y=\"{y}\" width=\"{bar}\" height=\"{thick}\"/><text x=\"{text}\" y=\"{base}\">"
    )
    .map_err(|_| NoMemory)?;
    put_micrometres(lines, bar)?;
    write!(lines, " \u{b5}m</text>\n<text x=\"0\" y=\"{under}\">").map_err(|_| NoMemory)?;
    lines.extend_from_slice(caption)?;
    lines.extend_from_slice(b"</text>\n</svg>\n")?;
    Ok(())
}

/// Returns the longest of 2, 4, 10, 20 units and so on, which are 10, 20, 50, 100 nanometres, that fits into a third of a
/// width, or 2.
fn scale_bar(width: i64) -> i64 {
    let mut bar: i64 = 2;
    for step in 0..30 {
        let longer = if step % 3 == 1 {
            (bar / 2).saturating_mul(5)
        } else {
            bar.saturating_mul(2)
        };
        if longer.saturating_mul(3) > width {
            return bar;
        }
        bar = longer;
    }
    bar
}
