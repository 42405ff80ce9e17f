//! The passes of rings: one for each edge that a rounded ring goes, each time that it does.
ghost use Rattle.std.specs.Prelude.{◌≡◌, ◌↔◌, All, Contains, IfOk, IsTrue, ◌++◌, ◌+◌, ◌-◌, ◌≤◌, OnOk, flat_map, map};
ghost use Rattle.std.specs.List.{range_with_len};
ghost use Rattle.lay_point.specs.declared.point.Point.{Point};
ghost use Rattle.lay_point.specs.Rings.{IsRing};
ghost use Rattle.lay_point.specs.Points.{IsBefore};
ghost use Rattle.lay_point.specs.Rising.{IsRising, pairs};
ghost use Rattle.snap_pixels.specs.Hot.{AreHotCentres};
ghost use Rattle.snap_edge_laws.specs.Rounding.{closed_walk};
ghost use Rattle.snap_slabs.specs.Runs.{IsSide};
ghost use Rattle.snap_chains.specs.OwnedRings.{HaveSides};
ghost use Rattle.snap_chains.specs.Passes.{ArePassesOf, ArePathPasses, IsSideAdded, passes_by};
ghost use Rattle.snap_chains.specs.Sides.{segment_ends};

use crate::centres::{Centres, ChainRoom};
use crate::owned::OwnedRing;
use crate::owner::Owner;
use crate::pass::{Pass, pass_between};
use crate::rings::put_sides;
use lay_point::NoMemory;
use rayon::prelude::*;
use snap_pixels::Segment;
use std::alloc::{AllocError, Global};
use std::thread::Threads;

/// How many passes have room for each centre. Most centres are corners or crossings, from which two sides go on by one
/// pass each.
const PASSES_PER_CENTRE: usize = 2;

/// So many rings are rounded in one thread after another.
const RINGS: usize = 256;

/// Returns the passes of the rounded rings, in no order. The centres are the hot ones of the segments, which are
/// the sides of all rings. The rings are shared out among as many threads as there are processors.
///
/// # Errors
///
/// `NoMemory`, if an allocation fails.
///
/// # Cost
///
/// A search of a number for each side. A side along an axis takes no more than its passes; for a slanted one its chain
/// is found, and the number of each centre in that.
pub(crate) fn all_passes(
    rt: &(impl Threads + Sync),
    alloc: Global,
    rings: &[OwnedRing],
    _segments: &[Segment],
    centres: &Centres,
) -> Result<Vec<Pass>, NoMemory>
    requires rings { All (λ r. IsRing r.1) rings.now }
    requires sides { HaveSides rings.now _segments.now }
    requires hot { AreHotCentres _segments.now centres.now }
    ensures { IfOk result (λ passes. ArePassesOf _segments.now centres.now rings.now passes.items) }
{
    let lists = rings
        .par_chunks(RINGS)
        .with_min_len(1)
        .map(
            |some: &[OwnedRing]| -> Result<Vec<Pass>, NoMemory>
                requires { All (λ r. IsRing r.1) some.now × HaveSides some.now _segments.now
                    × AreHotCentres _segments.now centres.now }
                ensures { IfOk result (λ passes. ArePassesOf _segments.entry.now centres.entry.now some.now passes.items) }
            { passes_of(alloc, some, _segments, centres) },
        )
        .collect::<Result<Vec<Vec<Pass>>, NoMemory>>(rt, alloc)??;
    let room = centres.numbers.centres().len() * PASSES_PER_CENTRE;
    let passes = joined(alloc, &lists, room)?;
    Ok(passes)
}

/// Returns all passes of the lists, one list after the other, with room for so many.
fn joined(alloc: Global, lists: &[Vec<Pass>], room: usize) -> Result<Vec<Pass>, AllocError>
    ensures { IfOk result (λ all. all.items ≡ flat_map (λ list. list.items) lists.now) }
{
    let mut all = Vec::with_capacity(alloc, room)?;
    for list in lists {
        all.extend_from_slice(list.as_slice())?;
    }
    Ok(all)
}

/// Returns the passes of these rounded rings, in no order.
fn passes_of(
    alloc: Global,
    rings: &[OwnedRing],
    _segments: &[Segment],
    centres: &Centres,
) -> Result<Vec<Pass>, NoMemory>
    requires rings { All (λ r. IsRing r.1) rings.now }
    requires sides { HaveSides rings.now _segments.now }
    requires hot { AreHotCentres _segments.now centres.now }
    ensures { IfOk result (λ passes. ArePassesOf _segments.now centres.now rings.now passes.items) }
{
    let mut passes = Vec::new(alloc);
    let mut sides = Vec::new(alloc);
    let mut room = ChainRoom::new(alloc);
    for ring in rings {
        add_ring(&mut passes, &mut sides, &mut room, ring, _segments, centres)?;
    }
    Ok(passes)
}

/// Adds the passes of the rounded ring. Its sides come in place of those that are there, in the room for them.
fn add_ring(
    passes: &mut Vec<Pass>,
    sides: &mut Vec<Segment>,
    room: &mut ChainRoom,
    ring: &OwnedRing,
    _segments: &[Segment],
    centres: &Centres,
) -> Result<(), NoMemory>
    requires ring { IsRing ring.now.1 }
    requires sides { (e : Point × Point) → Contains (pairs (closed_walk ring.now.1)) e
        → Contains (map segment_ends _segments.now) e }
    requires hot { AreHotCentres _segments.now centres.now }
    ensures { OnOk result (ArePathPasses _segments.now centres.now ring.now.0 (closed_walk ring.now.1)
        passes.old.items passes.new.items) }
{
    let Some((first, _)) = ring.points.split_first() else {
        return Ok(());
    };
    put_sides(sides, ring.points)?;
    let mut from = centres.numbers.number(*first);
    for side in sides.as_slice() {
        let to = centres.numbers.number(side.b());
        add_side(passes, room, centres, side, from, to, ring.owner)?;
        from = to;
    }
    Ok(())
}

/// Adds the passes of a side that goes from the centre of one number to that of another.
fn add_side(
    passes: &mut Vec<Pass>,
    room: &mut ChainRoom,
    centres: &Centres,
    side: &Segment,
    from: u32,
    to: u32,
    owner: Owner,
) -> Result<(), NoMemory>
    requires rising { IsRising IsBefore centres.now }
    requires side { IsSide centres.now side.now from to }
    ensures { OnOk result (IsSideAdded centres.now side.now owner passes.old.items passes.new.items) }
{
    if is_upright(side) {
        let (first, last) = centres.numbers.column(from, to);
        extend_by_column(passes, first, last, owner)?;
        return Ok(());
    }
    if is_level(side) {
        let row = centres.numbers.row(from, to);
        extend_by_numbers(passes, row, owner)?;
        return Ok(());
    }
    centres.put_chain(room, side, from, to)?;
    extend_by_numbers(passes, room.numbers.as_slice(), owner)?;
    Ok(())
}

/// Returns whether the side's ends are in one column.
fn is_upright(side: &Segment) -> bool
    ensures { IsTrue result ↔ (side.now.a.x ≡ side.now.b.x) }
{
    side.a().x == side.b().x
}

/// Returns whether the side's ends are in one row.
fn is_level(side: &Segment) -> bool
    ensures { IsTrue result ↔ (side.now.a.y ≡ side.now.b.y) }
{
    side.a().y == side.b().y
}

/// Adds the passes between neighbours of these numbers.
fn extend_by_numbers(
    passes: &mut Vec<Pass>,
    numbers: &[u32],
    owner: Owner,
) -> Result<(), AllocError>
    ensures { OnOk result (passes.new.items ≡ passes.old.items ++ passes_by owner numbers.now) }
{
    let Some((first, later)) = numbers.split_first() else {
        return Ok(());
    };
    let mut from = *first;
    for to in later {
        passes.push(pass_between(from, *to, owner))?;
        from = *to;
    }
    Ok(())
}

/// Adds the passes between neighbours among all numbers from `first` to `last`.
fn extend_by_column(
    passes: &mut Vec<Pass>,
    first: u32,
    last: u32,
    owner: Owner,
) -> Result<(), AllocError>
    requires { first ≤ last }
    ensures { OnOk result (passes.new.items
        ≡ passes.old.items ++ passes_by owner (range_with_len first (last + 1 - first))) }
{
    for number in first..last {
        passes.push(pass_between(number, number + 1, owner))?;
    }
    Ok(())
}
