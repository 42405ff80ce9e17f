//! Edges without directions, those out that stand twice.
ghost use Rattle.std.specs.Prelude.{◌≡◌, ◌⊎◌, ◌∷◌, IfOk, IfSome};
ghost use Rattle.std.specs.Cmp.Lexicographic.{pointwise};
ghost use Rattle.lay_point.specs.Edges.{same_edge};
ghost use Rattle.lay_point.specs.RingEdges.{edges_of};
ghost use Rattle.lay_oriented.specs.Net.{PassAlike};

use crate::edges::edges_of;
use lay_point::{Point, Ring};
use std::alloc::{AllocError, Global};

/// Returns the edges of the rings that stand there an odd number of times, each once, its lesser end
/// first, in order.
pub(crate) fn net_edges(alloc: Global, rings: &[Ring]) -> Result<Vec<(Point, Point)>, AllocError>
    ensures { IfOk result (λ net. PassAlike net.items (edges_of rings.now)) }
{
    let edges = edges_of(alloc, rings)?;
    let mut ordered = ordered_edges(alloc, edges.as_slice())?;
    ordered.sort_unstable();
    let kept = without_pairs(alloc, ordered.as_slice())?;
    Ok(kept)
}

/// Returns the edges, each with its lesser end first.
fn ordered_edges(alloc: Global, edges: &[(Point, Point)]) -> Result<Vec<(Point, Point)>, AllocError>
    ensures { IfOk result (λ ordered. PassAlike ordered.items edges.now) }
{
    let mut ordered = Vec::with_capacity(alloc, edges.len())?;
    let mut left = edges;
    while let Some((edge, behind)) = left.split_first() {
        ordered.push(ordered_edge(edge.0, edge.1))?;
        left = behind;
    }
    Ok(ordered)
}

/// Returns the edge between the points, its lesser end first.
pub(crate) fn ordered_edge(from: Point, to: Point) -> (Point, Point)
    ensures { (result ≡ (from, to)) ⊎ (result ≡ (to, from)) }
{
    if from <= to { (from, to) } else { (to, from) }
}

/// Returns the edges without those that stand twice next to each other.
fn without_pairs(alloc: Global, edges: &[(Point, Point)]) -> Result<Vec<(Point, Point)>, AllocError>
    ensures { IfOk result (λ kept. PassAlike kept.items edges.now) }
{
    let mut kept = Vec::new(alloc);
    let mut left = edges;
    while let Some((edge, behind)) = left.split_first() {
        if let Some(rest) = behind_same(*edge, behind) {
            left = rest;
        } else {
            kept.push(*edge)?;
            left = behind;
        }
    }
    Ok(kept)
}

/// Returns the edges without the first of them if that is the edge.
fn behind_same<'a>(
    edge: (Point, Point),
    edges: &'a [(Point, Point)],
) -> Option<&'a [(Point, Point)]>
    ensures { IfSome result (λ rest. edges.now ≡ edge ∷ rest.now) }
{
    let (next, rest) = edges.split_first()?;
    if is_same(edge, *next) {
        Some(rest)
    } else {
        None
    }
}

pub(crate) fn is_same(edge: (Point, Point), other: (Point, Point)) -> bool
    ensures { result ≡ same_edge edge other }
{
    edge.0 == other.0 && edge.1 == other.1
}

/// Returns whether the edges are the same, in the same order.
pub(crate) fn are_same(edges: &[(Point, Point)], others: &[(Point, Point)]) -> bool
    ensures { result ≡ pointwise same_edge edges.now others.now }
{
    edges == others
}
