//! The edges of the sweep at a stop, with how many shapes hold left of each.
ghost use Rattle.std.specs.Prelude.{
  ◌≡◌,
  ◌<◌,
  ◌-◌,
  ◌-ℤ◌,
  ◌<ℤ◌,
  ℕ,
  All,
  IfOk,
  OnOk,
  drop,
  length,
  pos,
  slice_index_or,
};
ghost use Rattle.face_rows.specs.Rows.{AreRowEdges};
ghost use Rattle.face_rows.specs.Sound.{AreSound};
ghost use Rattle.face_sweep.specs.declared.stops.Stop.{Stop};
ghost use Rattle.face_sweep.specs.Points.{AreBegunAt, HasLow, IsEndPoint, IsEndedGroup, IsStatus};
ghost use Rattle.face_sweep.specs.Counts.{AreCounts};
ghost use Rattle.face_sweep.specs.Reaches.{IsReach};
ghost use Rattle.face_sweep.specs.Sides.{is_odd_in};
ghost use Rattle.face_sweep.specs.Stops.{AreStops};
ghost use Rattle.face_labels.specs.RowSides.{HasLabel, IsLineAt, IsLinePast, IsLineWithout, IsShared, IsSweepStop};

use crate::begun::{find_begun, label_levels, rising_count};
use crate::finds::{find_lefts, take_out};
use crate::group::Group;
use crate::shared::Shared;
use face_rows::{Op, row_edges};
use face_sweep::{
    BlockList, Counts, LeftCounts, OwnRows, Reach, Stop, Stops, counts_before, group_end,
    place_of_point,
};
use lay_point::{NoMemory, Point};
use snap_chains::CleanEdges;
use std::alloc::{AllocError, Global};

/// The edges of the sweep at a stop, from left to right. What holds on the sides of an edge is the same all along
/// it, so it is found once, where the edge comes in.
#[derive(Debug, Drop)]
pub(crate) struct SweepRow {
    pub numbers: BlockList<usize>,
    /// How many shapes hold left of each of them.
    pub lefts: BlockList<LeftCounts>,
    /// Which of them single shapes own.
    pub own: OwnRows,
    /// Where among them the stop before this one was.
    pub place: usize,
    /// Room for what is kept beside the edges that begin at a stop.
    pub begun_lefts: Vec<LeftCounts>,
}

impl SweepRow {
    /// Returns the row at the stop of this index, its first.
    ///
    /// # Errors
    ///
    /// `NoMemory`, if an allocation fails.
    pub fn at(
        alloc: Global,
        edges: &CleanEdges,
        shared: &Shared,
        index: usize,
    ) -> Result<SweepRow, NoMemory>
        requires sound { AreSound edges.now }
        requires shared { IsShared edges.now shared.now }
        requires index { index < length shared.now.stops.list.items }
        requires first { (k : ℕ) (d : Stop) → k < index → (slice_index_or shared.now.stops.list.items k d).point.y
            <ℤ (slice_index_or shared.now.stops.list.items index d).point.y }
        ensures { IfOk result (λ line. (d : Stop)
            → IsLineAt edges.now shared.now.reach (slice_index_or shared.now.stops.list.items index d).point line) }
    {
        let numbers = BlockList::of(alloc, edges_below(alloc, edges, &shared.stops, index)?);
        let mut own = OwnRows::new(alloc, &shared.reach)?;
        let lefts = find_lefts(alloc, edges, &numbers, &mut own, &shared.reach)?;
        Ok(SweepRow {
            numbers,
            lefts: BlockList::of(alloc, lefts),
            own,
            place: 0,
            begun_lefts: Vec::new(alloc),
        })
    }

    /// Passes the stop, and writes the labels of the edges that begin there.
    ///
    /// # Errors
    ///
    /// `NoMemory`, if an allocation fails.
    pub fn pass(
        &mut self,
        alloc: Global,
        edges: &CleanEdges,
        shared: &Shared,
        stop: Stop,
        op: Op,
        labels: &mut Vec<bool>,
    ) -> Result<(), NoMemory>
        requires sound { AreSound edges.now }
        requires shared { IsShared edges.now shared.now }
        requires stop { IsSweepStop edges.now shared.now.stops stop }
        requires line { IsLineAt edges.now shared.now.reach stop.point self.old }
        requires count { length labels.old.items ≡ length edges.now.0 }
        ensures line { OnOk result (IsLinePast edges.now shared.now.reach stop.point self.new) }
        ensures count { length labels.new.items ≡ length edges.now.0 }
        ensures kept { OnOk result ((n : ℕ) → HasLabel op edges.now labels.old.items n
            → HasLabel op edges.now labels.new.items n) }
        ensures labels { OnOk result ((n : ℕ) → n < length edges.now.0 → HasLow edges.now stop.point n
            → HasLabel op edges.now labels.new.items n) }
    {
        let begun = shared.stops.begun(stop);
        let rising = rising_count(edges, stop.point, begun);
        let group = self.group_at(edges, stop.point);
        let reach = &shared.reach;
        self.take_out(edges, reach, group);
        let right = counts_before(edges, &self.numbers, &self.lefts, group.to);
        label_levels(
            edges,
            &self.numbers,
            group.to,
            &begun[rising..],
            group.point,
            right,
            &self.own,
            reach,
            op,
            labels,
        );
        self.put_begun(
            alloc,
            edges,
            reach,
            group,
            &begun[..rising],
            right,
            op,
            labels,
        )?;
        Ok(())
    }

    /// Returns where the edges stand that end at the point.
    fn group_at(&self, edges: &CleanEdges, point: Point) -> Group
        requires sound { AreSound edges.now }
        requires end { IsEndPoint edges.now point }
        requires status { IsStatus edges.now point self.now.numbers }
        ensures point { result.point ≡ point }
        ensures group { IsEndedGroup edges.now point self.now.numbers result.from result.to }
    {
        // The next stop is mostly at the edge left of the one before.
        let near = self.place.saturating_sub(1);
        let from = place_of_point(edges, &self.numbers, point, near);
        let to = group_end(edges, &self.numbers, point, from);
        Group { point, from, to }
    }

    /// Takes the group's edges, which end at its point, out of the lists of single shapes. Their numbers stay.
    fn take_out(&mut self, edges: &CleanEdges, reach: &Reach, group: Group)
        requires sound { AreSound edges.now }
        requires reach { IsReach edges.now reach.now }
        requires line { IsLineAt edges.now reach.now group.point self.old }
        requires group { IsEndedGroup edges.now group.point self.old.numbers group.from group.to }
        ensures { IsLineWithout edges.now reach.now group self.new }
    {
        take_out(edges, &self.numbers, group, &mut self.own, reach);
        self.place = group.from;
    }

    /// Replaces the edges of the group by those that rise from its point, and writes the labels of these. So many shapes
    /// hold right of the group.
    ///
    /// # Errors
    ///
    /// `NoMemory`, if an allocation fails.
    fn put_begun(
        &mut self,
        alloc: Global,
        edges: &CleanEdges,
        reach: &Reach,
        group: Group,
        begun: &[usize],
        right: Counts,
        op: Op,
        labels: &mut Vec<bool>,
    ) -> Result<(), NoMemory>
        requires sound { AreSound edges.now }
        requires reach { IsReach edges.now reach.now }
        requires right { AreCounts right (is_odd_in edges.now (drop group.to self.old.numbers)) }
        requires end { IsEndPoint edges.now group.point }
        requires line { IsLineWithout edges.now reach.now group self.old }
        requires begun { AreBegunAt edges.now group.point begun.now }
        requires count { length labels.old.items ≡ length edges.now.0 }
        ensures line { OnOk result (IsLinePast edges.now reach.now group.point self.new) }
        ensures count { length labels.new.items ≡ length edges.now.0 }
        ensures kept { OnOk result ((n : ℕ) → HasLabel op edges.now labels.old.items n
            → HasLabel op edges.now labels.new.items n) }
        ensures labels { OnOk result (All (HasLabel op edges.now labels.new.items) begun.now) }
    {
        self.numbers.replace(alloc, group.from, group.to, begun)?;
        let risers = Group {
            point: group.point,
            from: group.from,
            to: group.from.checked_add(begun.len()).ok_or(AllocError)?,
        };
        find_begun(
            edges,
            &self.numbers,
            risers,
            right,
            &mut self.own,
            reach,
            op,
            labels,
            &mut self.begun_lefts,
        )?;
        self.lefts
            .replace(alloc, group.from, group.to, self.begun_lefts.as_slice())?;
        self.place = group.from;
        Ok(())
    }
}

/// Returns the edges of the row below the stop of this index, which is the first of its row.
fn edges_below(
    alloc: Global,
    edges: &CleanEdges,
    stops: &Stops,
    index: usize,
) -> Result<Vec<usize>, NoMemory>
    requires stops { AreStops edges.now stops.now }
    requires index { index < length stops.now.list.items }
    requires first { (k : ℕ) (d : Stop) → k < index → (slice_index_or stops.now.list.items k d).point.y
        <ℤ (slice_index_or stops.now.list.items index d).point.y }
    ensures { IfOk result (λ numbers. (d : Stop)
        → AreRowEdges edges.now.0 ((slice_index_or stops.now.list.items index d).point.y -ℤ pos 1) numbers.items) }
{
    if index == 0 {
        return Ok(Vec::new(alloc));
    }
    let row = row_below(stops.stops(), index);
    row_edges(alloc, edges, row)
}

/// Returns the row below a stop that isn't in the lowest row of all.
fn row_below(stops: &[Stop], index: usize) -> i32
    requires index { index < length stops.now }
    requires some { 0 < index }
    requires first { (d : Stop) → (slice_index_or stops.now (index - 1) d).point.y
        <ℤ (slice_index_or stops.now index d).point.y }
    ensures { (d : Stop) → result ≡ (slice_index_or stops.now index d).point.y -ℤ pos 1 }
{
    let below = stops[index - 1].point.y;
    let here = stops[index].point.y;
    prove!(below < here);
    here - 1
}
