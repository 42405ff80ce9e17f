//! The search for hot pixels.
ghost use Rattle.std.specs.Prelude.{◌≡◌, ◌↔◌, ◌⊎◌, OnOk, IfOk, Contains, flat_map};
ghost use Rattle.lay_point.specs.declared.point.Point.{Point};
ghost use Rattle.snap_pixels.specs.Hot.{AreHotCentres};
ghost use Rattle.snap_pixels.specs.Marks.{CrossesOne, IsCrossed, HoldsAnEnd, RunCrosses};

use crate::common_point::crossing;
use crate::gathered::Gathered;
use crate::hot_set::HotSet;
use crate::kind::{put_by_kind, run_length};
use crate::parts::{Part, TakesParts, add_parts, parts_of};
use crate::repeats::keep_once;
use crate::segment::Segment;
use lay_point::{NoMemory, Point};
use rayon::prelude::*;
use std::alloc::{AllocError, Global};
use std::thread::Threads;

/// A part of so many segments is worth a thread, which divides it further.
const SHARE: usize = 4096;

/// So is one that has no more than one of so many of all segments.
const SHARES: usize = 64;

/// Returns the hot pixels of the segments. Once these are divided into parts that are each worth a thread, the parts
/// are divided, their crossings found, and all centres sorted in as many threads as there are processors.
///
/// Source: Hobby, Practical segment intersection with finite precision output, 1999.
///
/// # Errors
///
/// `NoMemory`, if an allocation fails.
///
/// # Cost
///
/// Two segments along the same axis aren't asked about each other, since they are parallel, and equal ones are asked once
/// in a part in which many pairs would be asked. On segments that are short beside the whole, and on long ones that
/// are parallel, the time is that of dividing them and of the crossings. Of nested boxes a small part of the pairs is asked,
/// which grows faster than their number. Never are more pairs asked than those of distinct segments that aren't along
/// the same axis, and some for each segment of a part. A part is gone once it is divided: those that wait hold at most nine times the segments, and mostly
/// little more than those once. A crossing is held once for each short list that finds it, but for the repeats that
/// are removed where a part's thread finds many. Once all are found, the list of all centres holds each as often
/// again, and repeats are removed after that list is sorted. The ends are listed once, in that list alone.
pub fn hot(
    rt: &(impl Threads + Sync),
    alloc: Global,
    segments: &[Segment],
) -> Result<HotSet, NoMemory>
    ensures { IfOk result (AreHotCentres segments.now) }
{
    let mut all = Vec::from_slice(alloc, segments)?;
    put_by_kind(&mut all);
    let few = (all.len() / SHARES).max(SHARE);
    let parts = parts_of(alloc, all, few)?;
    let lists = parts
        .into_par_iter()
        .with_min_len(1)
        .map(
            |part: Part| -> Result<Gathered, AllocError>
                ensures { IfOk result (λ found. (c : Point)
                    → Contains found c ↔ IsCrossed part.segments.items c) }
            {
                let found = crossings(alloc, part)?;
                Ok(found)
            },
        )
        .collect::<Result<Vec<Gathered>, AllocError>>(rt, alloc)??;
    let mut centres = Gathered::with_room(alloc, room_for(segments, &lists))?;
    add_ends(&mut centres, segments)?;
    add_lists(&mut centres, &lists)?;
    centres.sort(rt);
    let set = HotSet::of(alloc, centres)?;
    Ok(set)
}

/// Returns the hot pixels of the segments, found in this thread, undivided: of neighbours along the same axis none
/// is asked about another, and all other pairs are asked.
///
/// # Errors
///
/// `NoMemory`, if an allocation fails.
///
/// # Cost
///
/// Each pair of distinct segments is asked, but for those along the same axis.
pub fn hot_plain(alloc: Global, segments: &[Segment]) -> Result<HotSet, NoMemory>
    ensures { IfOk result (AreHotCentres segments.now) }
{
    let mut centres = Gathered::new(alloc);
    add_ends(&mut centres, segments)?;
    add_crossings(&mut centres, segments)?;
    let set = HotSet::of(alloc, centres)?;
    Ok(set)
}

/// Adds the ends of the segments.
fn add_ends(centres: &mut Gathered, segments: &[Segment]) -> Result<(), AllocError>
    ensures { OnOk result ((c : Point)
        → Contains centres.new c ↔ (Contains centres.old c ⊎ HoldsAnEnd segments.now c)) }
{
    for segment in segments {
        centres.push(segment.a())?;
        centres.push(segment.b())?;
    }
    Ok(())
}

/// Returns how many centres there are at most: two ends of each segment and those of the lists.
fn room_for(segments: &[Segment], lists: &[Gathered]) -> usize {
    let mut room = segments.len().saturating_mul(2);
    for list in lists {
        room = room.saturating_add(list.len());
    }
    room
}

/// Adds the centres of all lists.
fn add_lists(centres: &mut Gathered, lists: &[Gathered]) -> Result<(), AllocError>
    ensures { OnOk result ((c : Point)
        → Contains centres.new c ↔ (Contains centres.old c ⊎ Contains (flat_map (λ list. list) lists.now) c)) }
{
    for list in lists {
        centres.append(list)?;
    }
    Ok(())
}

/// Returns the centres of the crossings of the part's segments. It is divided further, and each part of it that isn't
/// is asked as soon as there is one.
fn crossings(alloc: Global, part: Part) -> Result<Gathered, AllocError>
    ensures { IfOk result (λ found. (c : Point) → Contains found c ↔ IsCrossed part.segments.items c) }
{
    let mut found = Gathered::new(alloc);
    add_parts(alloc, &mut found, part, 0)?;
    Ok(found)
}

impl TakesParts for Gathered {
    ghost crossed = { λ found. Contains found };

    /// Adds the centres of the crossings of the part's segments.
    fn take(&mut self, part: Part) -> Result<(), AllocError> {
        let segments = part.once();
        add_crossings(self, segments.as_slice())?;
        Ok(())
    }
}

/// Adds the centres of the segments' crossings.
fn add_crossings(centres: &mut Gathered, segments: &[Segment]) -> Result<(), AllocError>
    ensures { OnOk result ((c : Point)
        → Contains centres.new c ↔ (Contains centres.old c ⊎ IsCrossed segments.now c)) }
{
    let mut rest = segments;
    while !rest.is_empty() {
        let (run, later) = rest.split_at(run_length(rest));
        cross_run(centres, run, later)?;
        rest = later;
    }
    Ok(())
}

/// Adds the crossings of the segments of a run, each of which is asked about the later segments alone.
fn cross_run(centres: &mut Gathered, run: &[Segment], later: &[Segment]) -> Result<(), AllocError>
    ensures { OnOk result ((c : Point)
        → Contains centres.new c ↔ (Contains centres.old c ⊎ RunCrosses run.now later.now c)) }
{
    for segment in run {
        cross_later(centres, segment, later)?;
        centres.thin();
    }
    Ok(())
}

/// Adds the crossings of the segment with the later ones.
fn cross_later(
    centres: &mut Gathered,
    segment: &Segment,
    later: &[Segment],
) -> Result<(), AllocError>
    ensures { OnOk result ((c : Point)
        → Contains centres.new c ↔ (Contains centres.old c ⊎ CrossesOne segment.now later.now c)) }
{
    for other in later {
        if let Some(centre) = crossing(segment, other) {
            centres.push(centre)?;
        }
    }
    Ok(())
}
