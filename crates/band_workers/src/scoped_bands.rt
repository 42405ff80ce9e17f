//! Bands of rows, each labelled in a thread of its own.
ghost use Rattle.std.specs.Prelude.{◌≡◌, ◌+◌, ℕ, ◌<◌, ◌≤◌, IfOk, length, vec_len, slice_index_or};
ghost use Rattle.face_labels.specs.RowSides.{IsShared};
ghost use Rattle.band_workers.specs.Cuts.{IsLabelled, band_at};
ghost use Rattle.band_workers.specs.Labels.{labels_of};

use crate::bands::Bands;
use crate::cuts::cuts_of;
use crate::gate::{Gate, OpenGate};
use crate::workers::{MAX_WORKERS, Workers};
use crate::written::written;
use face_labels::{Shared, label_edges, label_sharing};
use face_rows::{Band, Op};
use lay_point::NoMemory;
use snap_chains::CleanEdges;
use std::alloc::Global;
use std::thread::{self, Threads};

/// What a worker gives back: the labels of the edges that begin in its band, with their numbers.
pub(crate) type Labels = Result<Vec<(usize, bool)>, NoMemory>;

/// Labels the edges in bands of consecutive rows, each in a thread of its own.
#[derive(Clone, Copy, Debug, PartialEq, Eq)]
pub struct ScopedBands {
    workers: Workers,
}

impl ScopedBands {
    /// So many workers, from 1 to `MAX_WORKERS`.
    pub fn new(workers: u8) -> ScopedBands
        requires low { 1 ≤ workers }
        requires high { workers ≤ MAX_WORKERS }
        ensures { result.workers ≡ workers }
    {
        ScopedBands::of(Workers::nearest(workers))
    }

    /// So many workers.
    pub fn of(workers: Workers) -> ScopedBands
        ensures { result.workers ≡ workers }
    {
        ScopedBands { workers }
    }
}

impl Bands for ScopedBands {
    fn label_all<R: Threads + Sync>(
        &self,
        rt: &R,
        alloc: Global,
        edges: &CleanEdges,
        op: Op,
    ) -> Result<Vec<bool>, NoMemory> {
        label_by(rt, alloc, edges, self.workers, &OpenGate, op)
    }
}

/// Returns for each edge, in order, whether the operation's answers differ on its two sides. The rows are
/// cut into as many bands of consecutive rows as there are workers, and each is labelled in a thread of its
/// own where one can be started, and else on the caller's, as a band is that is the only one. All threads look
/// at the same edges, and each passes the gate first and gives its list back as it ends. More workers than
/// [`MAX_WORKERS`](crate::workers::MAX_WORKERS) are taken as so many.
///
/// # Errors
///
/// `NoMemory`, if an allocation fails.
///
/// # Cost
///
/// That of `label` for each band, in as many threads as there are workers. What all bands share is found once, in as
/// many threads as there are processors if there are many edges.
pub fn label_in_bands<R: Threads + Sync, G: Gate + Sync>(
    rt: &R,
    alloc: Global,
    edges: &CleanEdges,
    workers: u8,
    gate: &G,
    op: Op,
) -> Result<Vec<bool>, NoMemory>
    requires { 1 ≤ workers }
    ensures { IfOk result (λ labels. labels.items ≡ labels_of op edges.now) }
{
    label_by(rt, alloc, edges, Workers::nearest(workers), gate, op)
}

/// Returns what [`label_in_bands`] does, by so many workers.
fn label_by<R: Threads + Sync, G: Gate + Sync>(
    rt: &R,
    alloc: Global,
    edges: &CleanEdges,
    workers: Workers,
    gate: &G,
    op: Op,
) -> Result<Vec<bool>, NoMemory>
    ensures { IfOk result (λ labels. labels.items ≡ labels_of op edges.now) }
{
    let shared = Shared::of_edges_in_threads(rt, alloc, edges)?;
    if workers.number() == 1 {
        gate.pass(0);
        return label_edges(alloc, edges, &shared, op);
    }
    let cuts = cuts_of(alloc, edges.edges(), &shared, workers)?;
    let parts = parts_of(rt, alloc, edges, &shared, cuts.as_slice(), gate, op)?;
    written(alloc, edges.edges().len(), parts)
}

/// Returns what the workers give back, in the order of their bands, the i-th of which is from the i-th cut
/// up to the next.
fn parts_of<R: Threads + Sync, G: Gate + Sync>(
    rt: &R,
    alloc: Global,
    edges: &CleanEdges,
    shared: &Shared,
    cuts: &[i64],
    gate: &G,
    op: Op,
) -> Result<Vec<Labels>, NoMemory>
    requires shared { IsShared edges.now shared.now }
    requires cuts { 1 ≤ length cuts.now }
    ensures len { IfOk result (λ parts. vec_len parts + 1 ≡ length cuts.now) }
    ensures each { IfOk result (λ parts. (i : ℕ) (d : _) → i < vec_len parts
        → IsLabelled op edges.now (band_at cuts.now i) (slice_index_or parts.items i d)) }
{
    let part = |band: usize| -> Labels
        requires shared { IsShared edges.now shared.now }
        requires band { band + 1 < length cuts.now }
        ensures { IsLabelled op edges.entry.now (band_at cuts.entry.now band) result }
    {
        gate.pass(band);
        let rows = Band {
            low: cuts[band],
            high: cuts[band + 1],
        };
        label_sharing(alloc, edges, shared, rows, op)
    };
    let parts = thread::map_indices(rt, alloc, cuts.len() - 1, &part)?;
    Ok(parts)
}
