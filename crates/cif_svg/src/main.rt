//! The program `cif_svg`: a CIF text in, a picture of one of its cells out, as SVG.
//!
//! Layers lie on one another from the one with the largest area up, each with a colour and an
//! opacity; behind twelve layers the colours come again with a hatch. The text's symbols stay
//! symbols: of each cell and layer that occur there is a group, and a call is a `use` of one, so the
//! picture grows with the text and not with the layout's flat size. A shape is filled by the even-odd
//! rule, as the text means it. The names of called cells and labels
//! are shown where they have room. Next to the drawing are a legend, a scale bar, the cell's name
//! and its size in micrometres. A coordinate of the picture is a database unit of 5 nanometres.
//!
//! # Files
//!
//! - `asked.rt`, `refusal.rt`: the argument, and what is said of faults.
//! - `cell.rt`, `cell_names.rt`: which cell is drawn, and the text's names and labels.
//! - `order.rt`, `layers.rt`, `extents.rt`, `area.rt`, `bounds.rt`: what a cell holds of each layer
//!   with its calls: its box and its area. Cells are looked at once, behind those that they call.
//! - `drawing.rt`: the picture; `groups.rt`, `path.rt`: cells' shapes and calls; `placed.rt`,
//!   `marks.rt`: names and labels; `legend.rt`, `foot.rt`, `frame.rt`, `style.rt`, `text.rt`: what
//!   is round the drawing, and its looks.
//!
//! ```text
//! cif_svg 5 < layout.cif > cell-5.svg
//! ```
#![tactic(auto)]

mod area;
mod asked;
mod bounds;
mod cell;
mod cell_names;
mod drawing;
mod extents;
mod foot;
mod frame;
mod groups;
mod layers;
mod legend;
mod marks;
mod order;
mod path;
mod placed;
mod refusal;
mod style;
mod text;

use asked::{Asked, USAGE, asked_by};
use cell::cell_named;
use cell_names::CellNames;
use cif_layout::FromCif;
use cif_read::read;
use drawing::picture;
use job_advice::of_text_fault;
use lay_items::Snapshot;
use refusal::{of_cell, of_second};
use std::env;
use std::io::{Read, Write};
use std::process::ExitCode;

/// The status where the text is refused.
const BAD_TEXT: u8 = 1;

/// The status where the argument is wrong.
const BAD_ARGUMENT: u8 = 2;

fn main(rt: HostRuntime) -> anyhow::Result<ExitCode> {
    let alloc = rt.alloc();
    let words: Vec<String> = env::args(&rt)?.collect(alloc)?;
    match asked_by(&words) {
        Asked::Help => {
            rt.stdout().write_all(USAGE.as_bytes())?;
            Ok(ExitCode::SUCCESS)
        }
        Asked::TooMuch(word) => refused(&rt, BAD_ARGUMENT, &of_second(alloc, word)?),
        Asked::Cell(word) => draw(&rt, word),
    }
}

/// Writes the picture of the cell that is asked for.
fn draw(rt: &HostRuntime, word: Option<&str>) -> anyhow::Result<ExitCode> {
    let alloc = rt.alloc();
    let mut text = Vec::new(alloc);
    rt.stdin().read_to_end(&mut text)?;
    let file = match read(alloc, &text) {
        Ok(file) => file,
        Err(fault) => return refused(rt, BAD_TEXT, &of_text_fault(alloc, &text, fault)?),
    };
    let snapshot = Snapshot::from_cif(alloc, file)?;
    let names = CellNames::of(alloc, &text, snapshot.cells())?;
    let Some(cell) = cell_named(alloc, &snapshot, &names, word)? else {
        return refused(rt, BAD_ARGUMENT, &of_cell(alloc, word.unwrap_or("top"))?);
    };
    let lines = picture(alloc, &snapshot, &names, cell)?;
    rt.stdout().write_all(&lines)?;
    Ok(ExitCode::SUCCESS)
}

/// Says why nothing is drawn.
fn refused(rt: &HostRuntime, status: u8, words: &[u8]) -> anyhow::Result<ExitCode> {
    rt.stderr().write_all(words)?;
    Ok(ExitCode::from(status))
}
