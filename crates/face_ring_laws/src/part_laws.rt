//! What holds of the parts of rings, as a call that does nothing.
ghost use Rattle.face_ring_laws.specs.Parts.{PartsTellPlaces};

use lay_point::Ring;

/// Some part is odd about a place exactly where all rings together are.
pub fn parts_tell_places(_rings: &[Ring])
    ensures { PartsTellPlaces _rings.now }
{}
