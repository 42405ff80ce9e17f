//! All edges in one band.
use crate::bands::Bands;
use face_labels::{Shared, label_edges};
use face_rows::Op;
use lay_point::NoMemory;
use snap_chains::CleanEdges;
use std::alloc::Global;
use std::thread::Threads;

/// Labels all edges in one band, on the caller's thread. What the sweep looks at is found before, in threads if there
/// are many edges.
#[derive(Clone, Copy, Debug, PartialEq, Eq)]
pub struct OneBand;

impl Bands for OneBand {
    fn label_all<R: Threads + Sync>(
        &self,
        rt: &R,
        alloc: Global,
        edges: &CleanEdges,
        op: Op,
    ) -> Result<Vec<bool>, NoMemory> {
        let shared = Shared::of_edges_in_threads(rt, alloc, edges)?;
        label_edges(alloc, edges, &shared, op)
    }
}
