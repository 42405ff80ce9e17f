//! A top cell that is empty while the layout has symbols, as editors write it.

use job_advice::uncalled_symbols;
use lay_cells::CellId;
use lay_items::Snapshot;
use lay_point::NoMemory;
use std::alloc::Global;
use std::io::Write;

/// How many symbols are named at most.
const NAMED: usize = 8;

/// Appends that the top cell is empty, and which symbols no other calls; nothing where it isn't empty, or where there is no
/// symbol.
pub(super) fn put_advice_on_top(
    alloc: Global,
    lines: &mut Vec<u8>,
    layout: &Snapshot,
) -> Result<(), NoMemory> {
    let is_empty = layout.items(CellId::Top).next().is_none();
    if !is_empty || layout.cells().len() == 0 {
        return Ok(());
    }
    let uncalled = uncalled_symbols(alloc, layout)?;
    lines.extend_from_slice(
        b"masklay: the top cell is empty, so an operation on `top` draws nothing; symbols that none calls:",
    )?;
    put_first(lines, &uncalled)?;
    put_cure(lines, uncalled.first().copied())
}

/// Appends the first of these numbers.
fn put_first(lines: &mut Vec<u8>, numbers: &[u32]) -> Result<(), NoMemory> {
    for number in numbers.iter().take(NAMED) {
        write!(lines, " {number}").map_err(|_| NoMemory)?;
    }
    Ok(())
}

/// Appends what to do, with this symbol as the example.
fn put_cure(lines: &mut Vec<u8>, example: Option<u32>) -> Result<(), NoMemory> {
    let Some(number) = example else {
        lines.push(b'\n')?;
        return Ok(());
    };
    write!(
        lines,
        "\n  Name one of these in place of `top`, as `and {number} A B OUT`, or call one at top level: `C {number};` before `E`.\n"
    )
    .map_err(|_| NoMemory)
}
