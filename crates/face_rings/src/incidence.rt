//! Which edges stand at a point, and which of them are left.
ghost use Rattle.std.specs.Prelude.{
  ◌≡◌,
  ◌↔◌,
  ◌<◌,
  ◌≤◌,
  All,
  Contains,
  IfOk,
  IsTrue,
  MatchOption,
  None,
  Some,
  false,
  if◌then◌else◌,
  length,
  replicate,
  slice_index_or,
  slice_set,
  true,
  ℕ,
};
ghost use Rattle.lay_point.specs.declared.point.Point.{Point};
ghost use Rattle.lay_point.specs.Edges.{is_before};
ghost use Rattle.lay_point.specs.Points.{point_eq};
ghost use Rattle.face_rings.specs.declared.incidence.End.{End};
ghost use Rattle.face_rings.specs.Incidence.{
  AreEndsOf,
  AreFirstsOf,
  IsFirstAt,
  IsIncidence,
  IsUsedAt,
  KeepsMarks,
  left_of,
  next_first,
};
ghost use Rattle.face_ring_laws.specs.Linking.{Ends, take_at};

use lay_point::{Edge, NoMemory, Point};
use std::alloc::{AllocError, Global};

/// That an edge, by its number, has an end at a point. Ends are in the order of their points, then of
/// their numbers.
#[derive(Clone, Copy, Debug, PartialEq, Eq, PartialOrd, Ord)]
pub(crate) struct End {
    /// Where the end is.
    pub at: Point,
    /// The number of the edge.
    pub edge: usize,
}

/// For an edge, the indices of the first ends at its two points.
#[derive(Clone, Copy, Debug)]
pub(crate) struct Firsts {
    /// That at the lesser point.
    pub low: usize,
    /// That at the greater point.
    pub high: usize,
}

/// A point that a walk has come to, and the index of the first end there.
#[derive(Clone, Copy, Debug)]
pub(crate) struct Stop {
    /// The point.
    pub at: Point,
    /// The index of the first end at it.
    pub first: usize,
}

/// Marks of the edges that are used, and an index by which the least edge without one is found at a point.
///
/// A search at a point starts at that point's first end, or at the cursor kept there: the ends between
/// are of used edges. So each end is passed once in all. Where the first end at a point is, is known for
/// both points of each edge.
#[derive(Debug, Drop)]
pub(crate) struct Incidence {
    /// The ends of all edges, in order.
    pub ends: Vec<End>,
    /// For each edge, the first ends at its points.
    pub firsts: Vec<Firsts>,
    /// For the first end at a point, from where on an edge without a mark may come.
    pub cursors: Vec<usize>,
    /// For each edge, whether it is used.
    pub used: Vec<bool>,
}

impl Incidence {
    /// Returns the index of the edges, none of which is used yet.
    ///
    /// # Errors
    ///
    /// `NoMemory`, if an allocation fails.
    pub fn new(alloc: Global, edges: &[Edge]) -> Result<Incidence, NoMemory>
        ensures sound { IfOk result (IsIncidence edges.now) }
        ensures all { IfOk result (λ i. left_of edges.now i.used.items ≡ edges.now) }
        ensures none { IfOk result (λ i. (k : ℕ) → k < length edges.now → slice_index_or i.used.items k true ≡ false) }
        ensures lesser { IfOk result (λ i. (e : Ends) → Contains edges.now e → IsTrue (is_before e.0 e.1)) }
    {
        let ends = sorted_ends(alloc, edges)?;
        let firsts = firsts_of(alloc, edges, &ends)?;
        let cursors = vec![in alloc; 0; ends.len()]?;
        let used = vec![in alloc; false; edges.len()]?;
        Ok(Incidence {
            ends,
            firsts,
            cursors,
            used,
        })
    }

    /// Takes the least edge at the stop that isn't used, marks it, and returns its number.
    pub fn take_at(&mut self, edges: &[Edge], stop: Stop) -> Option<usize>
        requires sound { IsIncidence edges.now self.old }
        requires first { IsFirstAt self.old.ends.items stop.at stop.first }
        ensures sound { IsIncidence edges.now self.new }
        ensures kept { KeepsMarks self.old.used.items self.new.used.items }
        ensures taken { MatchOption result
            ((take_at stop.at (left_of edges.now self.old.used.items) ≡ None) × (self.new.used.items ≡ self.old.used.items))
            (λ n. (n < length edges.now) × ((d : Ends) → take_at stop.at (left_of edges.now self.old.used.items)
            ≡ Some (slice_index_or edges.now n d, left_of edges.now self.new.used.items))) }
    {
        let first = stop.first;
        let index = first_unused(&self.ends, &self.used, self.cursors[first].max(first));
        self.cursors[first] = index;
        if index >= self.ends.len() {
            return None;
        }
        let end = self.ends[index];
        if end.at != stop.at {
            return None;
        }
        self.used[end.edge] = true;
        Some(end.edge)
    }

    /// Returns the stop at the lesser end of the edge of this number.
    pub fn low_stop(&self, edges: &[Edge], number: usize) -> Stop
        requires sound { IsIncidence edges.now self.now }
        requires inside { number < length edges.now }
        ensures point { (d : Ends) → result.at ≡ (slice_index_or edges.now number d).0 }
        ensures first { IsFirstAt self.now.ends.items result.at result.first }
    {
        let edge = edges[number];
        let firsts = self.firsts[number];
        let at = edge.low();
        let first = firsts.low;
        Stop { at, first }
    }

    /// Returns the stop at the greater end of the edge of this number.
    pub fn high_stop(&self, edges: &[Edge], number: usize) -> Stop
        requires sound { IsIncidence edges.now self.now }
        requires inside { number < length edges.now }
        ensures point { (d : Ends) → result.at ≡ (slice_index_or edges.now number d).1 }
        ensures first { IsFirstAt self.now.ends.items result.at result.first }
    {
        let edge = edges[number];
        let firsts = self.firsts[number];
        let at = edge.high();
        let first = firsts.high;
        Stop { at, first }
    }
}

/// Returns the ends of the edges, in order.
fn sorted_ends(alloc: Global, edges: &[Edge]) -> Result<Vec<End>, AllocError>
    ensures sound { IfOk result (λ ends. AreEndsOf edges.now ends.items) }
    ensures lesser { IfOk result (λ ends. (e : Ends) → Contains edges.now e → IsTrue (is_before e.0 e.1)) }
{
    let mut ends = Vec::with_capacity(alloc, 2 * edges.len())?;
    for (number, edge) in edges.iter().enumerate() {
        ends.push(End {
            at: edge.low(),
            edge: number,
        })?;
        ends.push(End {
            at: edge.high(),
            edge: number,
        })?;
    }
    ends.sort_unstable();
    Ok(ends)
}

/// Returns for each edge the first ends at its points, by one pass over the ends.
fn firsts_of(alloc: Global, edges: &[Edge], ends: &[End]) -> Result<Vec<Firsts>, AllocError>
    requires ends { AreEndsOf edges.now ends.now }
    requires inside { All (λ e. e.edge < length edges.now) ends.now }
    ensures { IfOk result (λ firsts. AreFirstsOf edges.now ends.now firsts.items) }
{
    let mut firsts = vec![in alloc; Firsts { low: 0, high: 0 }; edges.len()]?;
    let mut first = 0;
    for (index, end) in ends.iter().enumerate() {
        first = first_or_next(ends, first, index);
        let edge = edges[end.edge];
        firsts[end.edge] = with_first(firsts[end.edge], edge, Stop { at: end.at, first });
    }
    Ok(firsts)
}

/// Returns `first`, the first end at the point of the end before, where this end is at that point too,
/// and its own index otherwise.
fn first_or_next(ends: &[End], first: usize, index: usize) -> usize
    requires inside { index < length ends.now }
    ensures { result ≡ next_first ends.now first index }
{
    if index == 0 {
        return 0;
    }
    let (before, end) = (ends[index - 1], ends[index]);
    if before.at == end.at { first } else { index }
}

/// Returns the first ends of the edge, with that of this stop where it is one of the edge's points.
fn with_first(firsts: Firsts, edge: Edge, stop: Stop) -> Firsts
    ensures low { result.low ≡ (if point_eq edge.0 stop.at then stop.first else firsts.low) }
    ensures high { result.high ≡ (if point_eq edge.1 stop.at then stop.first else firsts.high) }
{
    let mut firsts = firsts;
    if edge.low() == stop.at {
        firsts.low = stop.first;
    }
    if edge.high() == stop.at {
        firsts.high = stop.first;
    }
    firsts
}

/// Returns the index of the first end from `from` on whose edge isn't used.
fn first_unused(ends: &[End], used: &[bool], from: usize) -> usize
    requires { All (λ e. e.edge < length used.now) ends.now }
    ensures reached { from ≤ result }
    ensures passed { (k : ℕ) → from ≤ k → k < result → IsUsedAt used.now ends.now k }
    ensures stopped { (d : End) → result < length ends.now → slice_index_or used.now (slice_index_or ends.now result d).edge true ≡ false }
{
    let mut index = from;
    while index < ends.len() && used[ends[index].edge] {
        index += 1;
    }
    index
}
