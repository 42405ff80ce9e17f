//! What holds of the rings that edges are linked to, as a call that does nothing.
ghost use Rattle.face_ring_laws.specs.Linked.{HaveOneList};

use lay_point::Edge;

/// The rule names one list of rings.
pub fn rings_have_laws(_edges: &[Edge])
    ensures { HaveOneList _edges.now }
{}
