//! Where edges begin and where they end, in the order of the sweep.
ghost use Rattle.std.specs.Prelude.{◌≡◌, ◌<◌, ◌≤◌, false, IfOk, IsTrue, int_le, length};
ghost use Rattle.lay_point.specs.Edges.{is_before};
ghost use Rattle.snap_chains.specs.RowOrder.{AreInRowOrder};
ghost use Rattle.face_rows.specs.Laws.{AreLesserFirst};
ghost use Rattle.face_sweep.specs.Ends.{
  AreBegins,
  AreFlagged,
  AreSortedEnds,
  AreTopFlags,
  AreTops,
  IsNoLater,
  IsSooner,
  begin_number,
  begin_of,
  begin_place,
  edge_begins,
  is_level,
  level_part,
  upward_span,
};

use face_rows::upward;
use lay_point::{Edge, Point};
use snap_chains::{RowOrder, Span};
use snap_pixels::sorted_in_threads;
use std::alloc::{AllocError, Global};
use std::thread::{self, Threads};

/// The index of a point among points in the order of the sweep: by rows upward, and in a row from right to left.
#[derive(Clone, Copy, Debug, PartialEq, Eq, PartialOrd, Ord)]
pub(crate) struct Place {
    pub(crate) key: u32,
}

/// What the key of a level edge has more than its number.
const LEVEL: u64 = 2_147_483_648;

/// What a key has more for each place before the edge's.
const PLACE: u64 = 4_294_967_296;

/// Where an edge begins, with its number, as one number. Such numbers are in the order of the sweep, and at one place
/// the level edges come after those that rise.
#[derive(Clone, Copy, Debug, PartialEq, Eq, PartialOrd, Ord)]
pub(crate) struct Begin {
    pub(crate) key: u64,
}

/// Where the edges of a list begin, and at which places edges end, in the order of the sweep.
#[derive(Debug, Drop)]
pub(crate) struct Ends {
    pub(crate) begins: Vec<Begin>,
    pub(crate) tops: Vec<Place>,
}

impl Place {
    /// Returns whether the sweep comes to this place before the other.
    pub(crate) fn is_before(self, other: Place) -> bool
        ensures sooner { IsTrue result → IsSooner self other }
        ensures later { result ≡ false → IsNoLater other self }
    {
        self < other
    }
}

impl Begin {
    fn new(edge: Edge, span: Span, number: usize) -> Begin
        requires { number < 2147483648 }
        ensures value { result ≡ begin_of number (edge, span) }
        ensures lesser { IsTrue (is_before edge.0 edge.1) }
    {
        let (low, high) = upward(edge);
        let (place, _) = upward_span(edge, span);
        Begin {
            key: u64::from(place) * PLACE + level_part(low, high) + number as u64,
        }
    }

    /// Returns where the edge begins.
    pub(crate) fn place(self) -> Place
        ensures { result ≡ begin_place self }
    {
        Place {
            key: (self.key / PLACE) as u32,
        }
    }

    /// Returns the number of the edge.
    pub(crate) fn number(self) -> usize
        ensures { result ≡ begin_number self }
    {
        (self.key % LEVEL) as usize
    }

    /// Returns whether the edge is level.
    pub(crate) fn is_level(self) -> bool
        ensures { result ≡ is_level self }
    {
        LEVEL <= self.key % PLACE
    }
}

/// Returns where the edge begins, and where it ends.
fn upward_span(edge: Edge, span: Span) -> (u32, u32)
    ensures { result ≡ upward_span edge span }
{
    if edge.low().y <= edge.high().y {
        return (span.low, span.high);
    }
    (span.high, span.low)
}

/// Returns what the key of the edge between these points has more than its number.
fn level_part(low: Point, high: Point) -> u64
    ensures value { result ≡ level_part (int_le high.y low.y) }
    ensures bound { result ≤ 2147483648 }
{
    if high.y <= low.y { LEVEL } else { 0 }
}

impl Ends {
    /// Returns where the edges begin and end.
    ///
    /// # Errors
    ///
    /// `AllocError`, if an allocation fails, and where there are more than 2^31 edges or more than 2^32 points.
    pub(crate) fn of_edges(
        alloc: Global,
        edges: &[Edge],
        order: &RowOrder,
    ) -> Result<Ends, AllocError>
        requires { AreInRowOrder edges.now order.now }
        ensures ends { IfOk result (AreSortedEnds order.now.0 edges.now) }
        ensures lesser { IfOk result (λ ends. AreLesserFirst edges.now) }
    {
        let mut begins = begins_of(alloc, edges, order.spans())?;
        begins.sort_unstable();
        let tops = tops_of(alloc, edges, order)?;
        Ok(Ends { begins, tops })
    }

    /// Returns the same as `of_edges`. The begins are found in one thread and the tops in another, and the begins are
    /// sorted in as many as there are processors.
    pub(crate) fn in_threads(
        rt: &(impl Threads + Sync),
        alloc: Global,
        edges: &[Edge],
        order: &RowOrder,
    ) -> Result<Ends, AllocError>
        requires { AreInRowOrder edges.now order.now }
        ensures ends { IfOk result (AreSortedEnds order.now.0 edges.now) }
        ensures lesser { IfOk result (λ ends. AreLesserFirst edges.now) }
    {
        let tops = || -> Result<Vec<Place>, AllocError>
            requires { AreInRowOrder edges.now order.now }
            ensures { IfOk result (λ tops. AreTops order.entry.now.0 edges.entry.now tops.items) }
        { tops_of(alloc, edges, order) };
        let begins = || -> Result<Vec<Begin>, AllocError>
            requires { AreInRowOrder edges.now order.now }
            ensures begins { IfOk result (λ begins. AreBegins order.entry.now.0 edges.entry.now begins.items) }
            ensures lesser { IfOk result (λ begins. AreLesserFirst edges.entry.now) }
        { begins_in_order(rt, alloc, edges, order) };
        let (tops, begins) = thread::join(rt, tops, begins);
        Ok(Ends {
            begins: begins?,
            tops: tops?,
        })
    }
}

/// Returns where the edges begin, in the order of the sweep.
fn begins_in_order(
    rt: &(impl Threads + Sync),
    alloc: Global,
    edges: &[Edge],
    order: &RowOrder,
) -> Result<Vec<Begin>, AllocError>
    requires { AreInRowOrder edges.now order.now }
    ensures begins { IfOk result (λ begins. AreBegins order.now.0 edges.now begins.items) }
    ensures lesser { IfOk result (λ begins. AreLesserFirst edges.now) }
{
    let begins = begins_of(alloc, edges, order.spans())?;
    Ok(sorted_in_threads(rt, begins))
}

/// Returns where the edges begin.
fn begins_of(alloc: Global, edges: &[Edge], spans: &[Span]) -> Result<Vec<Begin>, AllocError>
    requires { length spans.now ≡ length edges.now }
    ensures begins { IfOk result (λ begins. begins.items ≡ edge_begins edges.now spans.now) }
    ensures few { IfOk result (λ begins. length edges.now ≤ 2147483648) }
    ensures lesser { IfOk result (λ begins. AreLesserFirst edges.now) }
{
    if edges.len() as u64 > LEVEL {
        return Err(AllocError);
    }
    let mut begins = Vec::with_capacity(alloc, edges.len())?;
    for number in 0..edges.len() {
        begins.push(Begin::new(edges[number], spans[number], number))?;
    }
    Ok(begins)
}

/// Returns the places at which edges end, in order.
fn tops_of(alloc: Global, edges: &[Edge], order: &RowOrder) -> Result<Vec<Place>, AllocError>
    requires { AreInRowOrder edges.now order.now }
    ensures { IfOk result (λ tops. AreTops order.now.0 edges.now tops.items) }
{
    let flags = top_flags(alloc, edges, order)?;
    let tops = flagged(alloc, flags.as_slice())?;
    Ok(tops)
}

/// Returns for each place whether an edge ends there.
fn top_flags(alloc: Global, edges: &[Edge], order: &RowOrder) -> Result<Vec<bool>, AllocError>
    requires { AreInRowOrder edges.now order.now }
    ensures len { IfOk result (λ flags. length flags.items ≡ length order.now.0) }
    ensures flags { IfOk result (λ flags. AreTopFlags edges.now order.now.1 flags.items) }
{
    let spans = order.spans();
    let mut flags = vec![in alloc; false; order.points().len()]?;
    for number in 0..edges.len() {
        let (_, high) = upward_span(edges[number], spans[number]);
        flags[high as usize] = true;
    }
    Ok(flags)
}

/// Returns the places that are flagged, in order.
///
/// # Errors
///
/// `AllocError`, if an allocation fails, and where there are more than 2^32 places.
fn flagged(alloc: Global, flags: &[bool]) -> Result<Vec<Place>, AllocError>
    ensures { IfOk result (λ tops. AreFlagged flags.now tops.items) }
{
    if flags.len() as u64 > PLACE {
        return Err(AllocError);
    }
    let mut tops = Vec::new(alloc);
    for key in 0..flags.len() {
        if flags[key] {
            tops.push(Place { key: key as u32 })?;
        }
    }
    Ok(tops)
}
