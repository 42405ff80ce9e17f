//! What holds of the edges of all segments, as a call that does nothing.
ghost use Rattle.snap_edge_laws.specs.Edges.{MeetOnlyAtEnds};

use snap_pixels::Segment;

/// Two different edges of snap-rounded segments have no place in common but a point that is an end of
/// both. The hot centres are those of all the segments.
pub fn edges_meet_only_at_ends(_segments: &[Segment])
    ensures { MeetOnlyAtEnds _segments.now }
{}
