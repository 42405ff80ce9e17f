//! A layout and a command as tests write them.

use cif_layout::FromCif;
use lay_cells::CellId;
use lay_items::Snapshot;
use lay_point::{LayerName, Point};
use std::alloc::Global;
use std::test::*;
use txn_commands::Command;

/// Returns the layout without items.
pub(crate) fn empty(alloc: Global) -> Result<Snapshot, Fail> {
    Ok(Snapshot::from_cif(alloc, cif_read::read(alloc, b"E")?)?)
}

/// Returns the command that draws a box of this side in the top cell.
pub(crate) fn a_box(side: i32) -> Result<Command, Fail> {
    Ok(Command::Box {
        cell: CellId::Top,
        layer: LayerName::new(b"M").ok_or("no layer name")?,
        a: Point { x: 0, y: 0 },
        b: Point { x: side, y: side },
    })
}
