//! The part of a line that is shown round a place.
ghost use Rattle.std.specs.Prelude.{◌≤◌, length};

use crate::place::line_end;
use lay_point::NoMemory;
use std::alloc::{AllocError, Global};

/// How many bytes of a line are shown, at most, before the place and after it.
const SHOWN: usize = 60;

/// Returns the line round the place, indented, and a caret under the place.
pub(crate) fn window(
    alloc: Global,
    text: &[u8],
    start: usize,
    offset: usize,
) -> Result<Vec<u8>, NoMemory>
    requires before { start ≤ offset }
    requires inside { offset ≤ length text.now }
{
    let from = start.max(offset.saturating_sub(SHOWN));
    let to = line_end(text, offset).min(offset.saturating_add(SHOWN));
    let mut lines = Vec::new(alloc);
    lines.extend_from_slice(b"  ")?;
    put_shown(&mut lines, &text[from..to])?;
    lines.extend_from_slice(b"\n  ")?;
    for _ in from..offset {
        lines.push(b' ')?;
    }
    lines.extend_from_slice(b"^\n")?;
    Ok(lines)
}

/// Appends the bytes, a blank for each that can't be printed.
fn put_shown(lines: &mut Vec<u8>, bytes: &[u8]) -> Result<(), AllocError> {
    for byte in bytes {
        let shown = if (b' '..=b'~').contains(byte) {
            *byte
        } else {
            b' '
        };
        lines.push(shown)?;
    }
    Ok(())
}
