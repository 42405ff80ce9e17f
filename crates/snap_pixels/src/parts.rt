//! Parts of the segments that are searched apart: each segment is in those whose strips it may meet.
ghost use Rattle.std.specs.Prelude.{◌≡◌, ◌↔◌, ◌⊎◌, ◌<◌, Contains, IfOk, IfSome, OnOk, map};
ghost use Rattle.lay_point.specs.declared.point.Point.{Point};
ghost use Rattle.snap_pixels.specs.declared.segment.Segment.{Segment};
ghost use Rattle.snap_pixels.specs.Marks.{IsCrossed};
ghost use Rattle.snap_pixels.specs.Parts.{IsCrossedInOne};

use crate::cell::Cell;
use crate::counts::Counts;
use crate::division::{Division, Room};
use crate::kind::run_length;
use crate::repeats::keep_once;
use crate::segment::Segment;
use std::alloc::{AllocError, Global};

/// Parts in which no more pairs are asked aren't divided. A pair counts twice.
const FEW: usize = 400;

/// Nor those in which no more pairs are asked for a segment.
const SMALL: usize = 22;

/// All segments are divided at most so many times, one division after another.
const DEPTH: usize = 48;

/// The parts list each segment at most so many times more, on average.
const REPEATS: usize = 8;

/// Segments in the order of their kinds, which are searched apart from others, and how far they may be divided.
#[derive(Debug, Drop)]
pub(crate) struct Part {
    pub segments: Vec<Segment>,
    room: Room,
    /// How many divisions may follow one another.
    depth: usize,
}

impl Part {
    /// Returns the part that all segments are in.
    pub fn whole(segments: Vec<Segment>) -> Part
        ensures { result.segments ≡ segments }
    {
        let all = segments.as_slice();
        let room = Room {
            counts: Counts::of(all),
            cell: Cell::round(all),
            spare: all.len().saturating_mul(REPEATS),
        };
        Part {
            segments,
            room,
            depth: DEPTH,
        }
    }

    /// Returns whether many pairs are asked in the part.
    fn is_crowded(&self) -> bool {
        self.room.counts.pairs() > self.segments.len().saturating_mul(SMALL).max(FEW)
    }

    /// Returns the part's segments, each once where many pairs would be asked otherwise.
    pub fn once(self) -> Vec<Segment>
        ensures { (s : Segment) → Contains result.items s ↔ Contains self.segments.items s }
    {
        let crowded = self.is_crowded();
        let mut segments = self.segments;
        if crowded {
            keep_once(&mut segments);
        }
        segments
    }

    /// Returns a division of the part, or `None` where it isn't worth one.
    fn division(&self, alloc: Global) -> Result<Option<Division>, AllocError>
        ensures { IfOk result (λ division. IfSome division (λ _. 0 < self.now.depth)) }
    {
        if self.depth == 0 || !self.is_crowded() {
            return Ok(None);
        }
        let division = Division::of(alloc, self.segments.as_slice(), self.room)?;
        Ok(division)
    }
}

/// What takes the parts that aren't divided.
pub(crate) trait TakesParts {
    /// The pixel of the point holds a crossing of two segments of one of the parts.
    ghost crossed: { Self → Point → Type 0 };

    /// Takes a part.
    ///
    /// # Errors
    ///
    /// `AllocError`, if an allocation fails.
    fn take(&mut self, part: Part) -> Result<(), AllocError>
        ensures { OnOk result ((c : Point) → crossed self.new c ↔ (crossed self.old c ⊎ IsCrossed part.segments.items c)) };
}

impl TakesParts for Vec<Part> {
    ghost crossed = { λ parts. IsCrossedInOne (map (λ part. part.segments.items) parts.items) };

    fn take(&mut self, part: Part) -> Result<(), AllocError> {
        self.push(part)?;
        Ok(())
    }
}

/// Returns parts of which the crossings, together, are those of the segments, which are in the order of their
/// kinds. Those of no more than `few` segments aren't divided further.
///
/// # Errors
///
/// `AllocError`, if an allocation fails.
pub(crate) fn parts_of(
    alloc: Global,
    segments: Vec<Segment>,
    few: usize,
) -> Result<Vec<Part>, AllocError>
    ensures { IfOk result (λ parts. (c : Point)
        → IsCrossedInOne (map (λ part. part.segments.items) parts.items) c ↔ IsCrossed segments.items c) }
{
    let mut parts = Vec::new(alloc);
    add_parts(alloc, &mut parts, Part::whole(segments), few)?;
    Ok(parts)
}

/// Divides the part, and each part of it that has more than `few` segments, and adds those that aren't divided. A
/// part is gone once it is divided.
///
/// # Errors
///
/// `AllocError`, if an allocation fails.
pub(crate) fn add_parts<T: TakesParts>(
    alloc: Global,
    parts: &mut T,
    part: Part,
    few: usize,
) -> Result<(), AllocError>
    ensures { OnOk result ((c : Point) → T.crossed parts.new c ↔ (T.crossed parts.old c ⊎ IsCrossed part.segments.items c)) }
{
    if part.segments.len() <= few {
        return add_part(parts, part);
    }
    let Some(division) = part.division(alloc)? else {
        return add_part(parts, part);
    };
    let counts = division.counts.as_slice();
    let mut lists = division
        .strips
        .lists(alloc, counts, part.segments.as_slice())?;
    let depth = part.depth - 1;
    drop(part);
    while let Some(segments) = lists.pop() {
        let room = division.room(lists.len());
        let strip = Part {
            segments,
            room,
            depth,
        };
        add_parts(alloc, parts, strip, few)?;
    }
    Ok(())
}

/// Adds a part, unless all its segments are parallel.
fn add_part<T: TakesParts>(parts: &mut T, part: Part) -> Result<(), AllocError>
    ensures { OnOk result ((c : Point) → T.crossed parts.new c ↔ (T.crossed parts.old c ⊎ IsCrossed part.segments.items c)) }
{
    if run_length(part.segments.as_slice()) >= part.segments.len() {
        return Ok(());
    }
    parts.take(part)?;
    Ok(())
}
