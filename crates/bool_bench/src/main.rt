//! The program `bool_bench`: reads layouts from standard input, combines two layers of each below
//! its top cell, and prints how many shapes, rings and points come of it, or why none do.
//! `bench/run` times it; nothing depends on it.
//!
//! A line is the word of an operation, `and`, `or`, `not` or `xor`, a space, and the CIF text of a
//! layout. The layers are `A` and `B`.
#![tactic(auto)]

use anyhow::Context;
use band_workers::OneBand;
use cif_layout::FromCif;
use cif_read::read;
use face_rows::Op;
use lay_cells::CellId;
use lay_flat::flatten;
use lay_items::Snapshot;
use lay_point::{LayerName, Ring};
use layer_ops::combine;
use std::alloc::Global;
use std::io;
use std::io::Read;
use std::thread::Threads;

fn main(rt: HostRuntime) -> anyhow::Result<()> {
    let text = io::read_to_string(rt.alloc(), rt.stdin())?;
    for line in text.as_str().lines() {
        let (word, layout) = line.split_once(' ').context("a line has no layout")?;
        let op = op_of(word).context("a line names no operation")?;
        match shapes_of(&rt, rt.alloc(), op, layout.as_bytes()) {
            Ok(shapes) => {
                let (rings, points) = sizes(shapes.as_slice());
                println!(rt; "{} {rings} {points}", shapes.len())?
            }
            Err(fault) => println!(rt; "{fault}")?,
        }
    }
    Ok(())
}

/// Returns the operation of this word.
fn op_of(word: &str) -> Option<Op> {
    match word {
        "and" => Some(Op::And),
        "or" => Some(Op::Or),
        "not" => Some(Op::Not),
        "xor" => Some(Op::Xor),
        _ => None,
    }
}

/// Returns the shapes of the operation on the layers A and B of a layout.
fn shapes_of(
    rt: &(impl Threads + Sync),
    alloc: Global,
    op: Op,
    layout: &[u8],
) -> anyhow::Result<Vec<Vec<Ring>>> {
    let file = read(alloc, layout).ok().context("a line isn't a layout")?;
    let snapshot = Snapshot::from_cif(alloc, file)
        .ok()
        .context("out of memory")?;
    let a = LayerName::new(b"A").context("no layer name")?;
    let b = LayerName::new(b"B").context("no layer name")?;
    let first = flatten(alloc, &snapshot, CellId::Top, &a)?;
    let second = flatten(alloc, &snapshot, CellId::Top, &b)?;
    Ok(combine(rt, alloc, op, &first, &second, &OneBand)?)
}

/// Returns how many rings the shapes have, and how many points these have.
fn sizes(shapes: &[Vec<Ring>]) -> (usize, usize) {
    let mut rings: usize = 0;
    let mut points: usize = 0;
    for ring in shapes.iter().flatten() {
        rings = rings.wrapping_add(1);
        points = points.wrapping_add(ring.points().len());
    }
    (rings, points)
}
