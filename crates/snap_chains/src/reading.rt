//! The edges that passes go, the owners of each, and where its ends are by rows, read of sorted passes.
ghost use Rattle.std.specs.Prelude.{◌≡◌, ◌↔◌, ◌<◌, Contains, IfOk, IsTrue, OnOk, length, map};
ghost use Rattle.std.specs.List.{AllZip};
ghost use Rattle.std.specs.List.Sorted.{IsSorted};
ghost use Rattle.lay_point.specs.Points.{IsBefore};
ghost use Rattle.lay_point.specs.Rising.{IsRising};
ghost use Rattle.snap_chains.specs.declared.pass.Pass.{Pass};
ghost use Rattle.snap_chains.specs.Passes.{HasCentres, passed_edge, visit_at};
ghost use Rattle.snap_chains.specs.Reading.{HasLastOwner, IsEdgeGroup, IsOddAdded, IsReadOff, IsView, numbered_edge, pass_cmp};
ghost use Rattle.snap_chains.specs.RowOrder.{IsSpanBy, span_of};

use crate::owner::Owner;
use crate::owner_lists::{OwnerLists, Part};
use crate::pass::{Pass, is_same_edge};
use crate::row_order::Span;
use lay_point::{Edge, Point};
use snap_pixels::sorted_in_threads;
use std::alloc::{AllocError, Global};
use std::thread::Threads;

/// Returns the edges that the passes go, each once and in order, the owners that go each an odd number of times, and
/// where the ends of each are, by the ranks of the centres. The passes are sorted in as many threads as there are
/// processors.
///
/// # Errors
///
/// `AllocError`, if an allocation fails, and where there are 2^32 owners or more.
///
/// # Cost
///
/// A sort of the passes, and one pass over them.
pub(crate) fn read(
    rt: &(impl Threads + Sync),
    alloc: Global,
    passes: Vec<Pass>,
    centres: &[Point],
    ranks: &[u32],
) -> Result<(Vec<Edge>, OwnerLists, Vec<Span>), AllocError>
    requires rising { IsRising IsBefore centres.now }
    requires inside { (p : Pass) → Contains passes.items p → HasCentres centres.now p }
    requires ranked { length ranks.now ≡ length centres.now }
    ensures view { IfOk result (λ r. IsView (map (visit_at centres.now) passes.items) r.0.items r.1) }
    ensures spans { IfOk result (λ r. AllZip (IsSpanBy centres.now ranks.now) r.0.items r.2.items) }
{
    let sorted = sorted_in_threads(rt, passes);
    let found = read_sorted(alloc, sorted.as_slice(), centres, ranks)?;
    Ok(found)
}

/// Returns the edges of sorted passes, the owners of each, and where its ends are.
fn read_sorted(
    alloc: Global,
    passes: &[Pass],
    centres: &[Point],
    ranks: &[u32],
) -> Result<(Vec<Edge>, OwnerLists, Vec<Span>), AllocError>
    requires sorted { IsSorted pass_cmp passes.now }
    requires rising { IsRising IsBefore centres.now }
    requires inside { (p : Pass) → Contains passes.now p → HasCentres centres.now p }
    requires ranked { length ranks.now ≡ length centres.now }
    ensures read { IfOk result (λ r. IsReadOff centres.now passes.now r.0.items r.1) }
    ensures spans { IfOk result (λ r. AllZip (IsSpanBy centres.now ranks.now) r.0.items r.2.items) }
{
    let mut edges = Vec::with_capacity(alloc, passes.len())?;
    let mut owners = Vec::with_capacity(alloc, passes.len())?;
    let mut parts = Vec::with_capacity(alloc, passes.len())?;
    let mut spans = Vec::with_capacity(alloc, passes.len())?;
    let mut rest = passes;
    while let Some((first, _)) = rest.split_first() {
        let (group, later) = rest.split_at(group_length(rest));
        let from = count_of(&owners)?;
        add_odd(&mut owners, group, (first.low, first.high))?;
        let to = count_of(&owners)?;
        parts.push(Part { from, to })?;
        edges.push(edge_at(*first, centres))?;
        spans.push(span_at(*first, ranks))?;
        rest = later;
    }
    Ok((edges, OwnerLists { owners, parts }, spans))
}

/// Returns how many owners there are, if a number of 32 bits can say it.
fn count_of(owners: &Vec<Owner>) -> Result<u32, AllocError>
    ensures { IfOk result (λ count. count ≡ length owners.now.items) }
{
    let count = owners.len();
    if count > u32::MAX as usize {
        return Err(AllocError);
    }
    Ok(count as u32)
}

/// Returns how many of the passes, from the first on, go the first's edge.
fn group_length(passes: &[Pass]) -> usize
    requires { 0 < length passes.now }
    ensures { IsEdgeGroup passes.now result }
{
    let first = passes[0];
    for number in 1..passes.len() {
        if !is_same_edge(first, passes[number]) {
            return number;
        }
    }
    passes.len()
}

/// Returns the edge that the pass goes.
fn edge_at(pass: Pass, centres: &[Point]) -> Edge
    requires rising { IsRising IsBefore centres.now }
    requires inside { HasCentres centres.now pass }
    ensures { result ≡ passed_edge centres.now pass }
{
    edge_between(centres[pass.low as usize], centres[pass.high as usize])
}

/// Returns where the ends of the pass's edge are, by the ranks of their numbers.
fn span_at(pass: Pass, ranks: &[u32]) -> Span
    requires { (pass.low < length ranks.now) × (pass.high < length ranks.now) }
    ensures { result ≡ span_of ranks.now (numbered_edge pass) }
{
    Span {
        low: ranks[pass.low as usize],
        high: ranks[pass.high as usize],
    }
}

/// Returns the edge between two points, the lesser first.
fn edge_between(low: Point, high: Point) -> Edge
    requires { IsBefore low high }
    ensures { result ≡ (low, high) }
{
    Edge::new(low, high).unwrap()
}

/// Adds the owners that are there an odd number of times among passes of one edge, in order.
fn add_odd(owners: &mut Vec<Owner>, group: &[Pass], _edge: (u32, u32)) -> Result<(), AllocError>
    requires sorted { IsSorted pass_cmp group.now }
    requires same { (p : Pass) → Contains group.now p → numbered_edge p ≡ _edge }
    ensures { OnOk result (IsOddAdded group.now _edge owners.old.items owners.new.items) }
{
    let base = owners.len();
    for pass in group {
        if ends_with(owners.as_slice(), base, pass.owner) {
            owners.pop();
        } else {
            owners.push(pass.owner)?;
        }
    }
    Ok(())
}

/// Returns whether the owner is the last, behind the first `base`.
fn ends_with(owners: &[Owner], base: usize, owner: Owner) -> bool
    ensures { IsTrue result ↔ HasLastOwner owners.now base owner }
{
    base < owners.len() && owners[owners.len() - 1] == owner
}
