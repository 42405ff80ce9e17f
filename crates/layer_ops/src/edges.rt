//! The edges of an operation, from both inputs rounded together.
ghost use Rattle.std.specs.Prelude.{◌≡◌, All, IfOk, OnOk, filter, length, map};
ghost use Rattle.std.specs.List.{zip};
ghost use Rattle.lay_flat.specs.Flat.{IsFlat};
ghost use Rattle.face_rows.specs.Operations.{edges_of_op};
ghost use Rattle.bool_rules.specs.Shapes.{rounded_inputs};

use crate::turning::{add_turned, lend_all};
use band_workers::Bands;
use face_rows::Op;
use lay_flat::Flat;
use lay_point::{Edge, NoMemory};
use snap_chains::{CleanEdges, Input, round};
use std::alloc::{AllocError, Global};
use std::thread::Threads;

/// Returns the edges of both inputs, rounded together.
pub(crate) fn round_both<'s>(
    rt: &(impl Threads + Sync),
    alloc: Global,
    a: &Flat<'s>,
    b: &Flat<'s>,
) -> Result<CleanEdges, NoMemory>
    ensures value { IfOk result (λ edges. edges ≡ rounded_inputs a.now b.now) }
    ensures first { OnOk result (All IsFlat a.now) }
    ensures second { OnOk result (All IsFlat b.now) }
{
    let mut rings = Vec::new(alloc);
    add_turned(alloc, &mut rings, Input::First, a)?;
    add_turned(alloc, &mut rings, Input::Second, b)?;
    let lent = lend_all(alloc, &rings)?;
    Ok(round(rt, alloc, &lent)?)
}

/// Returns the edges of the operation, in order.
pub(crate) fn operation_edges(
    rt: &(impl Threads + Sync),
    alloc: Global,
    op: Op,
    edges: &CleanEdges,
    bands: &impl Bands,
) -> Result<Vec<Edge>, NoMemory>
    ensures { IfOk result (λ kept. kept.items ≡ edges_of_op op edges.now) }
{
    let labels = bands.label_all(rt, alloc, edges, op)?;
    Ok(labelled(alloc, edges.edges(), &labels)?)
}

/// Returns the edges that have the label, each by its number.
fn labelled(alloc: Global, edges: &[Edge], labels: &[bool]) -> Result<Vec<Edge>, AllocError>
    ensures { IfOk result (λ kept.
        kept.items ≡ map (λ p. p.0) (filter (λ p. p.1) (zip edges.now labels.now))) }
{
    edges
        .iter()
        .zip(labels.iter())
        .filter(|pair| *pair.1)
        .map(|pair| *pair.0)
        .collect(alloc)
}
