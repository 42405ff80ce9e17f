//! What holds of the chains of all segments, as calls that do nothing. The hot centres are those of all
//! the given segments.
ghost use Rattle.snap_edge_laws.specs.Chains.{
  ChainsAreUnique,
  ChainsJoinEnds,
  NeighboursAreEdges,
  RoundedEdgesAreClean,
};
ghost use Rattle.snap_edge_laws.specs.Rounding.{
  RoundedPathsHaveEdges,
  RoundedPathsJoinEnds,
  RoundedRingsAreEven,
};
ghost use Rattle.snap_edge_laws.specs.Undirected.{EdgesAreClean, OwnedEdgesAreEven};

use snap_pixels::Segment;

/// A segment has one chain. Its neighbours are the segment's edges, and it joins the segment's ends.
pub fn chains_have_laws(_segments: &[Segment])
    ensures unique { ChainsAreUnique _segments.now }
    ensures neighbours { NeighboursAreEdges _segments.now }
    ensures ends { ChainsJoinEnds _segments.now }
{}

/// Different edges of the segments' chains have no place in common but a point that is an end of both.
pub fn rounded_edges_are_clean(_segments: &[Segment])
    ensures { RoundedEdgesAreClean _segments.now }
{}

/// A rounded path joins the path's ends by edges of the segments' chains. Of a rounded ring's edges an
/// even number have ends that differ in a test of points.
pub fn rounded_paths_have_laws(_segments: &[Segment])
    ensures ends { RoundedPathsJoinEnds _segments.now }
    ensures edges { RoundedPathsHaveEdges _segments.now }
    ensures even { RoundedRingsAreEven _segments.now }
{}

/// The undirected edges of rounded rings meet only at shared ends. Of those that some of the rings go an
/// odd number of times, an even number stands at each point.
pub fn edges_of_rounded_rings_have_laws(_segments: &[Segment])
    ensures clean { EdgesAreClean _segments.now }
    ensures even { OwnedEdgesAreEven _segments.now }
{}
