//! The stops of the sweep: the points at which edges begin or end, in its order.
ghost use Rattle.std.specs.Prelude.{
  ◌≡◌,
  ◌++◌,
  ◌≤◌,
  map,
  All,
  IfNone,
  IfOk,
  IfSome,
  List,
  OnOk,
  int_lt,
  length,
  slice_range,
};
ghost use Rattle.lay_point.specs.Rising.{IsRising};
ghost use Rattle.lay_point.specs.declared.point.Point.{Point};
ghost use Rattle.face_rows.specs.Crossings.{IsCrossingOf};
ghost use Rattle.face_rows.specs.Laws.{AreLesserFirst};
ghost use Rattle.face_sweep.specs.Points.{IsAfter};
ghost use Rattle.face_sweep.specs.declared.ends.Place.{Place};
ghost use Rattle.face_sweep.specs.Ends.{AreSortedEnds, ArePlacesInOrder, begin_numbers, begin_place, begin_places};
ghost use Rattle.face_sweep.specs.Stops.{
  AreRisers,
  AreStops,
  IsBegunGroup,
  IsExtended,
  IsFirstFrom,
  IsFirstLevel,
  IsHeadUpTo,
  IsNextPlace,
  IsPlaceRun,
  IsWithRisers,
  begun_list,
  stop_list,
  stop_points,
};

use crate::ends::{Begin, Ends, Place};
use face_rows::Crossing;
use lay_point::{Edge, NoMemory, Point};
use snap_chains::CleanEdges;
use std::alloc::{AllocError, Global};
use std::thread::Threads;

/// A point at which edges begin or end.
#[derive(Clone, Copy, Debug)]
pub struct Stop {
    pub point: Point,
    /// From where on, in the list of all edges that begin, those stand that begin here.
    pub from: usize,
    /// Up to where.
    pub to: usize,
}

impl Stop {
    /// Returns whether the stop is below the row.
    fn is_below(self, row: i64) -> bool
        ensures { result ≡ int_lt self.point.y row }
    {
        i64::from(self.point.y) < row
    }
}

/// The points at which edges begin or end, row by row upward, and in a row from right to left, with the edges
/// that begin at each.
#[derive(Debug, Drop)]
pub struct Stops {
    pub(crate) list: Vec<Stop>,
    /// The numbers of the edges, in the order of the points that they begin at: from left to right, a level one last.
    pub(crate) begun: Vec<usize>,
}

/// What stands at a place.
trait StandsAt {
    /// The place.
    ghost place_of: { Self → Place };

    /// Returns the place.
    fn stands_at(&self) -> Place
        ensures { result ≡ place_of self.now };
}

impl StandsAt for Place {
    ghost place_of = { λ place. place };

    fn stands_at(&self) -> Place {
        *self
    }
}

impl StandsAt for Begin {
    ghost place_of = { begin_place };

    fn stands_at(&self) -> Place {
        self.place()
    }
}

/// Returns the place that the sweep comes to next, of those of the begins from `low` and of the tops from `top` on.
fn next_place(begins: &[Begin], low: usize, tops: &[Place], top: usize) -> Option<Place>
    ensures some { IfSome result (IsNextPlace (begin_places begins.now) low tops.now top) }
    ensures none { IfNone result ((length begins.now ≤ low) × (length tops.now ≤ top)) }
{
    if low >= begins.len() {
        return tops.get(top).copied();
    }
    let place = begins[low].place();
    if top >= tops.len() || place.is_before(tops[top]) {
        Some(place)
    } else {
        Some(tops[top])
    }
}

/// Returns where those end, from this index on, that stand at the place.
fn run_end<T: StandsAt>(items: &[T], from: usize, place: Place) -> usize
    requires order { ArePlacesInOrder (map T.place_of items.now) }
    requires from { from ≤ length items.now }
    requires ahead { IsHeadUpTo (map T.place_of items.now) from place }
    ensures { IsPlaceRun (map T.place_of items.now) from result place }
{
    let mut to = from;
    while to < items.len() && !place.is_before(items[to].stands_at()) {
        to += 1;
    }
    to
}

/// Returns the index of the first level edge.
fn first_level(group: &[Begin]) -> usize
    ensures { IsFirstLevel group.now result }
{
    let mut index = 0;
    while index < group.len() && !group[index].is_level() {
        index += 1;
    }
    index
}

/// Appends the numbers of the edges.
fn put_numbers(group: &[Begin], begun: &mut Vec<usize>) -> Result<(), AllocError>
    ensures { OnOk result (begun.new.items ≡ begun.old.items ++ begin_numbers group.now) }
{
    for begin in group {
        begun.push(begin.number())?;
    }
    Ok(())
}

/// Returns where the edges cross the row.
fn crossings_of(
    alloc: Global,
    edges: &[Edge],
    group: &[Begin],
    row: i32,
) -> Result<Vec<Crossing>, AllocError>
    requires { (points : List Point) × AreRisers points edges.now row group.now }
    ensures numbers { IfOk result (λ crossings. map (λ c. c.number) crossings.items ≡ begin_numbers group.now) }
    ensures places { IfOk result (λ crossings. All (IsCrossingOf edges.now row) crossings.items) }
{
    let mut crossings = Vec::with_capacity(alloc, group.len())?;
    for begin in group {
        let number = begin.number();
        crossings.push(Crossing::new(edges[number], number, row))?;
    }
    Ok(crossings)
}

/// Appends the numbers of the edges that cross there.
fn put_crossings(crossings: &[Crossing], begun: &mut Vec<usize>) -> Result<(), AllocError>
    ensures { OnOk result (begun.new.items ≡ begun.old.items ++ map (λ c. c.number) crossings.now) }
{
    for crossing in crossings {
        begun.push(crossing.number)?;
    }
    Ok(())
}

/// Appends the numbers of edges that rise from one point, from left to right.
fn put_rising(
    alloc: Global,
    edges: &CleanEdges,
    group: &[Begin],
    row: i32,
    begun: &mut Vec<usize>,
) -> Result<(), AllocError>
    requires { (points : List Point) × AreRisers points edges.now.0 row group.now }
    ensures { OnOk result (IsWithRisers edges.now.0 row group.now begun.old.items begun.new.items) }
{
    if group.len() < 2 {
        put_numbers(group, begun)?;
        return Ok(());
    }
    let mut crossings = crossings_of(alloc, edges.edges(), group, row)?;
    crossings.sort_unstable_by(|first: &Crossing, second: &Crossing| first.compare(*second));
    put_crossings(crossings.as_slice(), begun)?;
    Ok(())
}

/// Appends the numbers of the edges that begin at one point.
fn put_begun(
    alloc: Global,
    edges: &CleanEdges,
    group: &[Begin],
    point: Point,
    begun: &mut Vec<usize>,
) -> Result<(), AllocError>
    requires { (points : List Point) × IsBegunGroup points edges.now.0 point group.now }
    ensures { OnOk result (IsExtended edges.now point begun.old.items begun.new.items) }
{
    let level = first_level(group);
    put_rising(alloc, edges, &group[..level], point.y, begun)?;
    put_numbers(&group[level..], begun)?;
    Ok(())
}

/// Returns the stops of the edges that begin and end at these places among the points.
fn stops_at(
    alloc: Global,
    edges: &CleanEdges,
    points: &[Point],
    ends: &Ends,
) -> Result<Stops, AllocError>
    requires { AreSortedEnds points.now edges.now.0 ends.now }
    ensures { IfOk result (AreStops edges.now) }
{
    let (begins, tops) = (ends.begins.as_slice(), ends.tops.as_slice());
    let mut list = Vec::with_capacity(alloc, points.len())?;
    let mut begun = Vec::with_capacity(alloc, begins.len())?;
    let (mut low, mut top) = (0, 0);
    while let Some(place) = next_place(begins, low, tops, top) {
        let after = run_end(begins, low, place);
        let from = begun.len();
        let point = points[place.key as usize];
        put_begun(alloc, edges, &begins[low..after], point, &mut begun)?;
        list.push(Stop {
            point,
            from,
            to: begun.len(),
        })?;
        low = after;
        top = run_end(tops, top, place);
    }
    Ok(Stops { list, begun })
}

impl Stops {
    /// Returns the stops of the edges.
    ///
    /// # Errors
    ///
    /// `NoMemory`, if an allocation fails, and where there are more than 2^31 edges or more than 2^32 points.
    ///
    /// # Cost
    ///
    /// A sort of where the edges begin.
    pub fn of_edges(alloc: Global, edges: &CleanEdges) -> Result<Stops, NoMemory>
        ensures stops { IfOk result (AreStops edges.now) }
        ensures lesser { IfOk result (λ stops. AreLesserFirst edges.now.0) }
    {
        let order = edges.order();
        let ends = Ends::of_edges(alloc, edges.edges(), order)?;
        let stops = stops_at(alloc, edges, order.points(), &ends)?;
        Ok(stops)
    }

    /// Returns the same as `of_edges`. The edges' ends are found in two threads, and where they begin is sorted in as
    /// many as there are processors.
    ///
    /// # Errors
    ///
    /// `NoMemory`, if an allocation fails, and where there are more than 2^31 edges or more than 2^32 points.
    ///
    /// # Cost
    ///
    /// A sort of where the edges begin.
    pub fn of_edges_in_threads(
        rt: &(impl Threads + Sync),
        alloc: Global,
        edges: &CleanEdges,
    ) -> Result<Stops, NoMemory>
        ensures stops { IfOk result (AreStops edges.now) }
        ensures lesser { IfOk result (λ stops. AreLesserFirst edges.now.0) }
    {
        let order = edges.order();
        let ends = Ends::in_threads(rt, alloc, edges.edges(), order)?;
        let stops = stops_at(alloc, edges, order.points(), &ends)?;
        Ok(stops)
    }

    /// Returns the stops, in the order of the sweep.
    pub fn stops(&self) -> &[Stop]
        ensures { result.now ≡ stop_list self.now }
    {
        self.list.as_slice()
    }

    /// Returns the numbers of the edges that begin at the stop, from left to right, a level one last.
    pub fn begun(&self, stop: Stop) -> &[usize]
        requires order { stop.from ≤ stop.to }
        requires bound { stop.to ≤ length (begun_list self.now) }
        ensures { result.now ≡ slice_range (begun_list self.now) stop.from stop.to }
    {
        &self.begun[stop.from..stop.to]
    }

    /// Returns the index of the first stop that is in this row or above it, or the number of stops. The stops
    /// are in the order of the sweep.
    ///
    /// # Cost
    ///
    /// A search by halving.
    pub fn first_from(&self, row: i64) -> usize
        requires { IsRising IsAfter (stop_points self.now) }
        ensures { IsFirstFrom self.now row result }
    {
        self.stops()
            .partition_point(|stop: &Stop| stop.is_below(row))
    }
}
