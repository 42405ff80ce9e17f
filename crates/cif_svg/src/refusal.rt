//! What is said where nothing is drawn.

use lay_point::NoMemory;
use std::alloc::Global;
use std::io::Write;

/// What is said of a word that names no cell.
pub(crate) fn of_cell(alloc: Global, word: &str) -> Result<Vec<u8>, NoMemory> {
    let mut words = Vec::new(alloc);
    write!(
        words,
        "cif_svg: the text has no cell `{word}`\n  A cell is named by its symbol's number, by the name that its command 9 gives it, or as `top`.\n"
    )
    .map_err(|_| NoMemory)?;
    Ok(words)
}

/// What is said of a second argument.
pub(crate) fn of_second(alloc: Global, word: &str) -> Result<Vec<u8>, NoMemory> {
    let mut words = Vec::new(alloc);
    write!(
        words,
        "cif_svg: `{word}` is one argument too many\n  One cell is drawn: `cif_svg [CELL] < TEXT > PICTURE`. `cif_svg --help` says more.\n"
    )
    .map_err(|_| NoMemory)?;
    Ok(words)
}
