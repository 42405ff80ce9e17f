//! Segments along an axis and slanted ones. Two along the same axis are parallel, so they don't cross and needn't be
//! asked about each other.
ghost use Rattle.std.specs.Prelude.{◌↔◌, ◌<◌, ◌≤◌, Contains, length, take};
ghost use Rattle.snap_pixels.specs.declared.segment.Segment.{Segment};
ghost use Rattle.snap_pixels.specs.Kinds.{AreParallelAll, IsOfKind};

use crate::segment::Segment;

/// The axis that a segment is along, if any.
#[derive(Clone, Copy, Debug, PartialEq, Eq, PartialOrd, Ord)]
pub(crate) enum Kind {
    Level,
    Slanted,
    Upright,
}

impl Kind {
    /// Returns the kind of the segment.
    pub fn of(segment: &Segment) -> Kind
        ensures { IsOfKind result segment.now }
    {
        let (a, b) = (segment.a(), segment.b());
        if a.y == b.y {
            return Kind::Level;
        }
        if a.x == b.x {
            return Kind::Upright;
        }
        Kind::Slanted
    }
}

/// Puts the segments in the order of their kinds, in any order within a kind.
///
/// # Cost
///
/// A few passes, as there are three kinds.
pub(crate) fn put_by_kind(segments: &mut Vec<Segment>)
    ensures { (s : Segment) → Contains segments.new.items s ↔ Contains segments.old.items s }
{
    segments.sort_unstable_by_key(|segment: &Segment| Kind::of(segment));
}

/// Returns the length of the run that the segments begin with: as many along the same axis as follow one
/// another, or one alone that is slanted.
pub(crate) fn run_length(segments: &[Segment]) -> usize
    ensures within { result ≤ length segments.now }
    ensures some { 0 < length segments.now → 0 < result }
    ensures parallel { AreParallelAll (take result segments.now) }
{
    let Some((first, later)) = segments.split_first() else {
        return 0;
    };
    let kind = Kind::of(first);
    if kind == Kind::Slanted {
        return 1;
    }
    for (i, segment) in later.iter().enumerate() {
        if Kind::of(segment) != kind {
            return i + 1;
        }
    }
    segments.len()
}
