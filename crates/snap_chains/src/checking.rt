//! The check whether edges are clean.
ghost use Rattle.std.specs.Prelude.{◌≡◌, ◌<◌, IfErr, IfOk, MatchOption, OnOk, length, ℕ};
ghost use Rattle.lay_point.specs.Rising.{IsRising};
ghost use Rattle.lay_point.specs.Edges.{IsEdgeBefore};
ghost use Rattle.snap_chains.specs.Clean.{IsFirstPair, NamesFirst, TwoMeetAtEnds};
ghost use Rattle.snap_chains.specs.Rounded.{AreClean};

use crate::clean_edges::{CleanEdges, CleanFault};
use crate::rounded::Rounded;
use crate::row_order::RowOrder;
use lay_point::Edge;
use snap_edge_laws::meet_at_ends;
use std::alloc::Global;

/// Returns the edges where they are clean, else the first two that aren't. The number of steps is that
/// of the pairs of edges.
///
/// # Errors
///
/// `NotClean` with the first pair of edges that have more in common than an end, by the first edge, then by the second;
/// `NoMemory`, if none has and an allocation fails, or where there are 2^32 ends or more.
pub fn check_clean(alloc: Global, rounded: Rounded) -> Result<CleanEdges, CleanFault>
    ensures value { IfOk result (λ c. c ≡ rounded) }
    ensures clean { OnOk result (AreClean rounded.0) }
    ensures first { IfErr result (NamesFirst rounded.0) }
{
    if let Some((first, second)) = first_pair(rounded.edges()) {
        return Err(CleanFault::NotClean { first, second });
    }
    let Ok(order) = RowOrder::of_edges(alloc, rounded.edges()) else {
        return Err(CleanFault::NoMemory);
    };
    // What is checked comes without owners.
    Ok(CleanEdges {
        rounded,
        order,
        shapes: 0,
    })
}

/// Returns the numbers of the first two edges that have more in common than an end.
fn first_pair(edges: &[Edge]) -> Option<(usize, usize)>
    requires { IsRising IsEdgeBefore edges.now }
    ensures { MatchOption result (AreClean edges.now) (λ p. IsFirstPair edges.now p.0 p.1) }
{
    for first in 0..edges.len() {
        if let Some(second) = first_after(edges, first) {
            return Some((first, second));
        }
    }
    None
}

/// Returns the number of the first later edge that has more in common with edge `first` than an end.
fn first_after(edges: &[Edge], first: usize) -> Option<usize>
    requires rising { IsRising IsEdgeBefore edges.now }
    requires inside { first < length edges.now }
    ensures { MatchOption result
        ((l : ℕ) → first < l → l < length edges.now → TwoMeetAtEnds edges.now first l)
        (λ second. (first < second) × (second < length edges.now) × (¬ (TwoMeetAtEnds edges.now first second))
        × ((l : ℕ) → first < l → l < second → TwoMeetAtEnds edges.now first l)) }
{
    for second in first + 1..edges.len() {
        if !meet_at_ends(edges[first], edges[second]) {
            return Some(second);
        }
    }
    None
}
