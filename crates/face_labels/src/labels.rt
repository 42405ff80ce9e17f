//! Labels: whether an operation's answers differ on the two sides of an edge.
ghost use Rattle.std.specs.Prelude.{◌≡◌, ◌<◌, ℕ, IfOk, int_lt, length, map, true};
ghost use Rattle.std.specs.List.{zip};
ghost use Rattle.lay_point.specs.Rising.{IsRising};
ghost use Rattle.face_rows.specs.Bands.{begins_in, labelled};
ghost use Rattle.face_rows.specs.Labels.{differs, owned_items};
ghost use Rattle.face_rows.specs.Lines.{edge_at};
ghost use Rattle.face_rows.specs.Operations.{answer};
ghost use Rattle.face_rows.specs.Picked.{picked};
ghost use Rattle.face_sweep.specs.Points.{IsAfter};
ghost use Rattle.face_sweep.specs.Stops.{stop_points};
ghost use Rattle.face_labels.specs.RowSides.{HasLabel, IsShared};

use crate::shared::Shared;
use crate::sweep_row::SweepRow;
use face_rows::{Band, Op};
use face_sweep::Stop;
use lay_point::{Edge, NoMemory};
use snap_chains::CleanEdges;
use std::alloc::{AllocError, Global};

/// Returns the numbers of the edges whose lower ends are in the band, in order, each with whether
/// the operation's answers differ on its two sides. All edges are regarded, those of other bands
/// too.
///
/// # Errors
///
/// `NoMemory`, if an allocation fails, and where there are more than 2^31 edges.
///
/// # Cost
///
/// A sort of where all edges begin, and for each point of the band at which edges begin or end a search among the
/// edges of its row, which is short where the point before is near. Where more edges begin at a point than end
/// there, or fewer, those of a block of the row's edges are moved; to come to that block costs a step for each block
/// between it and the one before. For each owner of an edge that begins or ends, if some edge of
/// that shape isn't on the border of its box, a search among the edges of the row that the shape owns, and those
/// left of the point are moved.
pub fn label(
    alloc: Global,
    edges: &CleanEdges,
    band: Band,
    op: Op,
) -> Result<Vec<(usize, bool)>, NoMemory>
    ensures { IfOk result (λ labels. labels.items ≡ labelled op edges.now band) }
{
    let shared = Shared::of_edges(alloc, edges)?;
    label_sharing(alloc, edges, &shared, band, op)
}

/// Returns the same as [`label`], with what the sweeps of all bands share.
///
/// # Errors
///
/// `NoMemory`, if an allocation fails.
///
/// # Cost
///
/// That of [`label`], but for what is shared.
pub fn label_sharing(
    alloc: Global,
    edges: &CleanEdges,
    shared: &Shared,
    band: Band,
    op: Op,
) -> Result<Vec<(usize, bool)>, NoMemory>
    requires { IsShared edges.now shared.now }
    ensures { IfOk result (λ labels. labels.items ≡ labelled op edges.now band) }
{
    let labels = labels_at(alloc, edges, shared, band, op)?;
    let room = begun_count(shared, band);
    let numbered = numbered(alloc, edges.edges(), band, labels.as_slice(), room)?;
    Ok(numbered)
}

/// Returns for each edge, in order, whether the operation's answers differ on its two sides. These are the labels
/// of [`label`] for a band in which all edges begin, without the edges' numbers.
///
/// # Errors
///
/// `NoMemory`, if an allocation fails.
///
/// # Cost
///
/// That of [`label_sharing`] for such a band.
pub fn label_edges(
    alloc: Global,
    edges: &CleanEdges,
    shared: &Shared,
    op: Op,
) -> Result<Vec<bool>, NoMemory>
    requires { IsShared edges.now shared.now }
    ensures { IfOk result (λ labels. labels.items
        ≡ map (differs (answer op) (owned_items edges.now)) (owned_items edges.now)) }
{
    let labels = labels_at(alloc, edges, shared, Band::of(edges.edges()), op)?;
    Ok(labels)
}

/// Returns for each edge whether the operation's answers differ on its two sides, if it is one of those that begin
/// in the band.
fn labels_at(
    alloc: Global,
    edges: &CleanEdges,
    shared: &Shared,
    band: Band,
    op: Op,
) -> Result<Vec<bool>, NoMemory>
    requires { IsShared edges.now shared.now }
    ensures len { IfOk result (λ labels. length labels.items ≡ length edges.now.0) }
    ensures labels { IfOk result (λ labels. (n : ℕ) → n < length edges.now.0
        → begins_in band (edge_at edges.now n) ≡ true → HasLabel op edges.now labels.items n) }
{
    let mut labels = vec![in alloc; false; edges.edges().len()]?;
    let stops = shared.stops.stops();
    let first = shared.stops.first_from(band.low);
    if first == stops.len() {
        return Ok(labels);
    }
    let mut line = SweepRow::at(alloc, edges, shared, first)?;
    for index in first..stops.len() {
        let stop = stops[index];
        if !is_below(stop, band.high) {
            return Ok(labels);
        }
        line.pass(alloc, edges, shared, stop, op, &mut labels)?;
    }
    Ok(labels)
}

/// Returns whether the stop is below the row.
fn is_below(stop: Stop, row: i64) -> bool
    ensures { result ≡ int_lt stop.point.y row }
{
    i64::from(stop.point.y) < row
}

/// Returns how many edges begin at the stops of the band.
fn begun_count(shared: &Shared, band: Band) -> usize
    requires { IsRising IsAfter (stop_points shared.now.stops) }
{
    let stops = shared.stops.stops();
    let first = shared.stops.first_from(band.low);
    let end = shared.stops.first_from(band.high);
    if end <= first {
        return 0;
    }
    stops[end - 1].to.saturating_sub(stops[first].from)
}

/// Returns those of the labels that belong to edges of the band, with the edges' numbers. There is room for so many
/// from the start.
fn numbered(
    alloc: Global,
    edges: &[Edge],
    band: Band,
    labels: &[bool],
    room: usize,
) -> Result<Vec<(usize, bool)>, AllocError>
    requires { length labels.now ≡ length edges.now }
    ensures { IfOk result (λ numbered. numbered.items
        ≡ picked (λ p. begins_in band p.0) (λ n p. (n, p.1)) 0 (zip edges.now labels.now)) }
{
    let mut numbered = Vec::with_capacity(alloc, room)?;
    for number in 0..edges.len() {
        if band.has(edges[number]) {
            numbered.push((number, labels[number]))?;
        }
    }
    Ok(numbered)
}
