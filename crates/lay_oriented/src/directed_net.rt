//! Edges with their directions, those out that stand there in both.
ghost use Rattle.std.specs.Prelude.{◌≡◌, ◌+ℤ◌, ℤ, IfOk, OnOk};
ghost use Rattle.lay_point.specs.declared.point.Point.{Point};
ghost use Rattle.lay_point.specs.RingEdges.{edges_of};
ghost use Rattle.lay_oriented.specs.Net.{GoAlike};
ghost use Rattle.lay_oriented.specs.Winding.{IsTurn, sum_of};

use crate::edges::edges_of;
use crate::net::{is_same, ordered_edge};
use lay_point::{Point, Ring};
use std::alloc::{AllocError, Global};

/// Returns the edges of the rings by their lesser ends and then their greater ones, without an edge and the
/// same edge turned round, as often as both stand there.
pub(crate) fn directed_net(alloc: Global, rings: &[Ring]) -> Result<Vec<(Point, Point)>, AllocError>
    ensures { IfOk result (λ net. GoAlike net.items (edges_of rings.now)) }
{
    let mut edges = edges_of(alloc, rings)?;
    edges.sort_unstable_by_key(|edge: &(Point, Point)| ordered_edge(edge.0, edge.1));
    let net = without_opposites(alloc, edges.as_slice())?;
    Ok(net)
}

/// Returns the edges, of which those between the same points stand next to each other, without an edge and
/// the same edge turned round, as often as both stand there.
fn without_opposites(
    alloc: Global,
    edges: &[(Point, Point)],
) -> Result<Vec<(Point, Point)>, AllocError>
    ensures { IfOk result (λ kept. GoAlike kept.items edges.now) }
{
    let mut kept = Vec::new(alloc);
    let mut left = edges;
    while let Some((edge, behind)) = left.split_first() {
        add_or_cancel(&mut kept, *edge)?;
        left = behind;
    }
    Ok(kept)
}

/// Adds the edge to these, or takes away the last of them where that is the same edge turned round.
fn add_or_cancel(kept: &mut Vec<(Point, Point)>, edge: (Point, Point)) -> Result<(), AllocError>
    ensures { OnOk result ((f : Point × Point → ℤ) → IsTurn f → sum_of f kept.new.items ≡ sum_of f kept.old.items +ℤ f edge) }
{
    let Some(last) = kept.pop() else {
        kept.push(edge)?;
        return Ok(());
    };
    if is_same(last, (edge.1, edge.0)) {
        return Ok(());
    }
    kept.push(last)?;
    kept.push(edge)?;
    Ok(())
}
