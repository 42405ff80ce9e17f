//! Rounding: from the rings of shapes to clean edges with their owners.
ghost use Rattle.std.specs.Prelude.{All, IfOk};
ghost use Rattle.lay_point.specs.Rings.{IsRing};
ghost use Rattle.snap_chains.specs.Round.{IsRoundOf};

use crate::centres::Centres;
use crate::clean_edges::CleanEdges;
use crate::owned::{OwnedRing, all_sides};
use crate::passes::all_passes;
use crate::reading::read;
use crate::rounded::Rounded;
use crate::row_order::RowOrder;
use lay_point::NoMemory;
use snap_pixels::hot;
use std::alloc::Global;
use std::thread::Threads;

/// Returns the edges that the rounded rings go, each once, with their owners: the shapes whose rings, all
/// together, go the edge an odd number of times. An edge that no shape goes an odd number of times stays,
/// without owners. Hot pixels are found, rings rounded, and passes sorted in as many threads as there are
/// processors.
///
/// Source: Hobby, Practical segment intersection with finite precision output, 1999.
///
/// # Errors
///
/// `NoMemory`, if an allocation fails, and where there are 2^32 hot pixels or more.
///
/// # Cost
///
/// That of `hot` of all sides, of a sort of the hot pixels by rows, of the chains of slanted sides, and of a sort of
/// the edges that the rings go.
pub fn round(
    rt: &(impl Threads + Sync),
    alloc: Global,
    rings: &[OwnedRing],
) -> Result<CleanEdges, NoMemory>
    requires { All (λ r. IsRing r.1) rings.now }
    ensures { IfOk result (λ clean. IsRoundOf rings.now clean) }
{
    let segments = all_sides(alloc, rings)?;
    let found = hot(rt, alloc, &segments)?;
    let centres = Centres::of(rt, alloc, &segments, &found)?;
    let passes = all_passes(rt, alloc, rings, &segments, &centres)?;
    let (points, ranks) = centres.into_rows(alloc)?;
    let (edges, owners, spans) = read(rt, alloc, passes, found.centres(), &ranks)?;
    let rounded = Rounded { edges, owners };
    let order = RowOrder { points, spans };
    Ok(CleanEdges {
        rounded,
        order,
        shapes: shapes_of(rings),
    })
}

/// Returns the least number that is greater than those of all shapes of the rings.
fn shapes_of(rings: &[OwnedRing]) -> usize {
    let mut count = 0;
    for ring in rings {
        count = count.max(ring.owner.shape as usize + 1);
    }
    count
}
