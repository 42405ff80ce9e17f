//! The program `lay_flat_bench`: reads layouts from standard input, flattens each below its symbol
//! 1, and prints how many rings come of it, or why none do. `bench/run` times it; nothing depends
//! on it.
//!
//! A line is the CIF text of a layout. The layer is `A`.
#![tactic(auto)]

use anyhow::Context;
use cif_layout::FromCif;
use cif_read::read;
use lay_cells::CellId;
use lay_flat::flatten;
use lay_items::Snapshot;
use lay_point::LayerName;
use std::io;
use std::io::Read;

fn main(rt: HostRuntime) -> anyhow::Result<()> {
    let alloc = rt.alloc();
    let text = io::read_to_string(alloc, rt.stdin())?;
    let layer = LayerName::new(b"A").context("no layer name")?;
    for line in text.as_str().lines() {
        let file = read(alloc, line.as_bytes())
            .ok()
            .context("a line isn't a layout")?;
        let snapshot = Snapshot::from_cif(alloc, file)
            .ok()
            .context("out of memory")?;
        match flatten(alloc, &snapshot, CellId::Symbol(1), &layer) {
            Ok(flat) => println!(rt; "{}", flat.rings().len())?,
            Err(fault) => println!(rt; "{fault}")?,
        }
    }
    Ok(())
}
