//! An operation on two flattenings.
ghost use Rattle.std.specs.Prelude.{◌≡◌, ◌<◌, Err, IfOk, map, pos, ℤ, ◌≤ℤ◌};
ghost use Rattle.std.specs.List.{list_any};
ghost use Rattle.lay_point.specs.Memory.{IsAnswer};
ghost use Rattle.lay_point.specs.Parity.{odd};
ghost use Rattle.lay_point.specs.RingEdges.{edges_of};
ghost use Rattle.face_rows.specs.Operations.{op_at};
ghost use Rattle.bool_rules.specs.Shapes.{rounded_inputs, segments_of};
ghost use Rattle.layer_ops.specs.Combining.{combined, shape_lists};
ghost use Rattle.layer_ops.specs.declared.limits.TheConstants.{MAX_SEGMENTS};

use crate::counting::are_few;
use crate::edges::{operation_edges, round_both};
use crate::fault::OpFault;
use crate::shapes::shapes;
use band_workers::Bands;
use face_rows::Op;
use lay_flat::Flat;
use lay_point::Ring;
use std::alloc::Global;
use std::thread::Threads;

/// Returns the shapes of the operation, each the list of its rings. Shapes are in the order of
/// their first rings. The inputs are rounded together, in as many threads as there are processors;
/// `bands` finds the operation's edges.
///
/// # Errors
///
/// `TooMany` where the inputs have more than `MAX_SEGMENTS` sides together, before anything is rounded, and where a rounding
/// or the path round a shape has more than its limit; `NoMemory` in place of what comes after the first.
///
/// # Cost
///
/// That of `round`, of `Bands::label_all`, and of `link` and `parts` of the edges that are left.
pub fn combine(
    rt: &(impl Threads + Sync),
    alloc: Global,
    op: Op,
    a: &Flat<'_>,
    b: &Flat<'_>,
    bands: &impl Bands,
) -> Result<Vec<Vec<Ring>>, OpFault>
    ensures answer { IsAnswer OpFault.NoMemory (shape_lists result) (combined op a.now b.now) }
    ensures too_many { MAX_SEGMENTS < segments_of a.now b.now → result ≡ Err OpFault.TooMany }

    // Some shape has (x / k, y / k) inside exactly where the operation holds of the rounded inputs.
    ensures places { IfOk result (λ shapes. (k x y : ℤ) → pos 1 ≤ℤ k →
        list_any (λ shape. odd (edges_of shape) k x y) (map (λ shape. shape.items) shapes.items)
        ≡ op_at op (rounded_inputs a.now b.now) k x y) }
{
    if !are_few(a, b) {
        return Err(OpFault::TooMany);
    }
    let inputs = round_both(rt, alloc, a, b)?;
    let edges = operation_edges(rt, alloc, op, &inputs, bands)?;
    shapes(alloc, &edges)
}
