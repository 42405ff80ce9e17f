//! What holds of flattenings of different layouts, as a call that does nothing.
ghost use Rattle.lay_flat.specs.Laws.{FlatteningReadsWhatIsBelow};

/// Layouts that have the same calls, and the same shapes on a layer, in each cell that walks from a cell
/// lead to have the same flattening of that layer below that cell, or the same refusal.
pub fn flattening_reads_what_is_below()
    ensures { FlatteningReadsWhatIsBelow }
{}
