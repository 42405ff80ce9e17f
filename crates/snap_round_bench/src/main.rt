//! The program `snap_round_bench`: reads rings from standard input, rounds them and prints how many
//! edges come of them. `bench/run` times it; nothing depends on it.
//!
//! A line is a ring: the coordinates of its points, in database units, separated by blanks. Each
//! ring is a shape of its own.
#![tactic(auto)]

ghost use Rattle.std.specs.Prelude.{All, IfOk};
ghost use Rattle.lay_point.specs.Rings.{IsRing};

use anyhow::Context;
use lay_point::{Point, Ring};
use snap_chains::{Input, OwnedRing, Owner, round};
use std::alloc::{AllocError, Global};
use std::io;
use std::io::Read;

fn main(rt: HostRuntime) -> anyhow::Result<()> {
    let text = io::read_to_string(rt.alloc(), rt.stdin())?;
    let rings = rings(rt.alloc(), text.as_str())?;
    let owned = owned(rt.alloc(), rings.as_slice())?;
    let clean = round(&rt, rt.alloc(), owned.as_slice())
        .ok()
        .context("out of memory")?;
    println!(rt; "{}", clean.edges().len())?;
    Ok(())
}

/// Reads the rings of all lines.
fn rings(alloc: Global, text: &str) -> anyhow::Result<Vec<Ring>> {
    let mut rings = Vec::new(alloc);
    for line in text.lines() {
        rings.push(ring(alloc, line)?)?;
    }
    Ok(rings)
}

/// Reads the ring of a line.
fn ring(alloc: Global, line: &str) -> anyhow::Result<Ring> {
    let numbers = numbers(alloc, line)?;
    let mut points = Vec::new(alloc);
    for pair in numbers.chunks_exact(2) {
        if let [x, y] = pair {
            points.push(Point { x: *x, y: *y })?;
        }
    }
    Ring::new(alloc, points.as_slice())
        .ok()
        .context("a line isn't a ring")
}

/// Reads the numbers of a line.
fn numbers(alloc: Global, line: &str) -> anyhow::Result<Vec<i32>> {
    let mut numbers = Vec::new(alloc);
    for word in line.split_whitespace() {
        numbers.push(word.parse()?)?;
    }
    Ok(numbers)
}

/// Returns the rings, each of a shape of its own.
fn owned(alloc: Global, rings: &[Ring]) -> Result<Vec<OwnedRing<'_>>, AllocError>
    ensures { IfOk result (λ owned. All (λ r. IsRing r.1) owned.items) }
{
    let mut owned = Vec::new(alloc);
    let mut shape: u32 = 0;
    for ring in rings {
        let input = Input::First;
        let points = ring.points();
        owned.push(OwnedRing {
            owner: Owner { input, shape },
            points,
        })?;
        shape = shape.wrapping_add(1);
    }
    Ok(owned)
}
