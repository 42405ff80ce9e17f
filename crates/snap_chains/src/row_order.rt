//! The ends of edges in the order of rows.
ghost use Rattle.std.specs.Prelude.{◌≡◌, ◌<◌, ◌^◌, All, Contains, IfOk, Some, length, map, slice_get};
ghost use Rattle.std.specs.List.Sorted.{IsStrictlyIncreasing};
ghost use Rattle.snap_chains.specs.RowOrder.{AreInRowOrder, AreSpansOf, HasKeys, IsSpanOf, end_key, keyed_point};

use lay_point::{Edge, Point};
use snap_pixels::{coordinate_from, from_least, sort_once};
use std::alloc::{AllocError, Global};
use std::marker::Model;

/// Where the ends of an edge are among points.
#[derive(Clone, Copy, Debug)]
pub struct Span {
    /// The index of its lesser end.
    pub low: u32,
    /// That of its greater end.
    pub high: u32,
}

/// Points by rows upward, in a row from right to left, and where among them the ends of edges are. Contracts see the
/// pair of both lists.
#[derive(Debug, Drop)]
pub struct RowOrder {
    pub(crate) points: Vec<Point>,
    pub(crate) spans: Vec<Span>,
}

impl Model for RowOrder {
    ghost use Rattle.std.specs.Prelude.{List};
    ghost use Rattle.lay_point.specs.declared.point.Point.{Point};
    ghost use Rattle.snap_chains.specs.declared.row_order.Span.{Span};

    ghost Value = { List Point × List Span };

    ghost view = { λ o. (o.points.items, o.spans.items) };
}

impl RowOrder {
    /// Returns the ends of the edges in the order of rows.
    ///
    /// # Errors
    ///
    /// `AllocError`, if an allocation fails, and where there are 2^32 ends or more.
    ///
    /// # Cost
    ///
    /// A sort of the ends.
    pub(crate) fn of_edges(alloc: Global, edges: &[Edge]) -> Result<RowOrder, AllocError>
        ensures { IfOk result (λ order. AreInRowOrder edges.now order) }
    {
        let mut keys = end_keys(alloc, edges)?;
        sort_once(&mut keys);
        if keys.len() >= 4_294_967_296 {
            return Err(AllocError);
        }
        let points = keyed_points(alloc, keys.as_slice())?;
        let spans = keyed_spans(alloc, keys.as_slice(), edges)?;
        Ok(RowOrder { points, spans })
    }

    /// Returns the points, by rows upward, in a row from right to left.
    pub fn points(&self) -> &[Point]
        ensures { result.now ≡ self.now.0 }
    {
        self.points.as_slice()
    }

    /// Returns where the ends of each edge are, in the order of the edges.
    pub fn spans(&self) -> &[Span]
        ensures { result.now ≡ self.now.1 }
    {
        self.spans.as_slice()
    }
}

/// Returns the keys of the edges' ends.
fn end_keys(alloc: Global, edges: &[Edge]) -> Result<Vec<u64>, AllocError>
    ensures { IfOk result (λ keys. All (HasKeys keys.items) edges.now) }
{
    let mut keys = Vec::with_capacity(alloc, edges.len())?;
    for edge in edges {
        keys.push(end_key(edge.low()))?;
        keys.push(end_key(edge.high()))?;
    }
    Ok(keys)
}

/// Returns the key of the point. Keys are in the order of rows, in a row from right to left.
fn end_key(point: Point) -> u64
    ensures value { result ≡ end_key point }
    ensures point { keyed_point result ≡ point }
{
    from_least(point.y) * 4_294_967_296 + (4_294_967_295 - from_least(point.x))
}

/// Returns the point of the key.
fn keyed_point(key: u64) -> Point
    ensures { result ≡ keyed_point key }
{
    Point {
        x: coordinate_from(4_294_967_295 - key % 4_294_967_296),
        y: coordinate_from(key / 4_294_967_296),
    }
}

/// Returns the points of the keys.
fn keyed_points(alloc: Global, keys: &[u64]) -> Result<Vec<Point>, AllocError>
    ensures { IfOk result (λ points. points.items ≡ map keyed_point keys.now) }
{
    let mut points = Vec::with_capacity(alloc, keys.len())?;
    for key in keys {
        points.push(keyed_point(*key))?;
    }
    Ok(points)
}

/// Returns where the ends of the edges are among the keys.
fn keyed_spans(alloc: Global, keys: &[u64], edges: &[Edge]) -> Result<Vec<Span>, AllocError>
    requires increasing { IsStrictlyIncreasing keys.now }
    requires few { length keys.now < 2 ^ 32 }
    requires keyed { All (HasKeys keys.now) edges.now }
    ensures as_many { IfOk result (λ spans. length spans.items ≡ length edges.now) }
    ensures spans { IfOk result (λ spans. AreSpansOf (map keyed_point keys.now) edges.now spans.items) }
{
    let mut spans = Vec::with_capacity(alloc, edges.len())?;
    for edge in edges {
        spans.push(keyed_span(keys, *edge))?;
    }
    Ok(spans)
}

/// Returns where the ends of the edge are among the keys.
fn keyed_span(keys: &[u64], edge: Edge) -> Span
    requires increasing { IsStrictlyIncreasing keys.now }
    requires few { length keys.now < 2 ^ 32 }
    requires keyed { HasKeys keys.now edge }
    ensures { IsSpanOf (map keyed_point keys.now) edge result }
{
    Span {
        low: index_of(keys, end_key(edge.low())),
        high: index_of(keys, end_key(edge.high())),
    }
}

/// Returns the index of the key.
fn index_of(keys: &[u64], key: u64) -> u32
    requires increasing { IsStrictlyIncreasing keys.now }
    requires few { length keys.now < 2 ^ 32 }
    requires keyed { Contains keys.now key }
    ensures { slice_get keys.now result ≡ Some key }
{
    keys.partition_point(|other: &u64| *other < key) as u32
}
