//! Workers that label the edges of bands.
ghost use Rattle.std.specs.Prelude.{◌≡◌, IfOk};
ghost use Rattle.band_workers.specs.Labels.{labels_of};
ghost use denote.Param.Send.{IsSync};

use face_rows::Op;
use lay_point::NoMemory;
use snap_chains::CleanEdges;
use std::alloc::Global;
use std::thread::Threads;

/// Labels all edges. The edges are shared out by bands of rows, which may be labelled in any order, and in
/// threads of their own.
pub trait Bands {
    /// Returns for each edge, in order, whether the operation's answers differ on its two sides.
    fn label_all<R: Threads + Sync>(
        &self,
        rt: &R,
        alloc: Global,
        edges: &CleanEdges,
        op: Op,
    ) -> Result<Vec<bool>, NoMemory>
        // What the bound says already: a method of a trait needs it said again.
        requires { IsSync R.row }
        ensures { IfOk result (λ labels. labels.items ≡ labels_of op edges.now) };
}
