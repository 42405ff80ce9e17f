//! What holds of the places inside an edge, as a call that does nothing.
ghost use Rattle.face_side_laws.specs.Slides.{ParitiesSlide};

/// To the right of all places inside an edge the parity of clean edges, of which an even number stands at
/// each point, is the same.
pub fn parities_slide()
    ensures { ParitiesSlide }
{}
