//! Segments without repeats.
ghost use Rattle.std.specs.Prelude.{◌↔◌, IfOk, Contains};
ghost use Rattle.snap_pixels.specs.declared.segment.Segment.{Segment};

use crate::kind::Kind;
use crate::segment::Segment;

/// Keeps each of the segments once, in the order of their kinds.
///
/// # Cost
///
/// A sort of the segments.
pub(crate) fn keep_once(segments: &mut Vec<Segment>)
    ensures { (s : Segment) → Contains segments.new.items s ↔ Contains segments.old.items s }
{
    segments.sort_unstable_by_key(|segment: &Segment| (Kind::of(segment), *segment));
    segments.dedup();
}
