//! Where the rows are cut into bands.
//!
//! Any cut gives the same labels, so no clause speaks of the inner ones. Bands of equal heights
//! would leave a crowded place to one worker. The stops are in the order of rows already.
ghost use Rattle.std.specs.Prelude.{◌≡◌, ◌+◌, ◌-◌, ◌≤◌, Contains, IfOk, IsTrue, OnOk, length, take};
ghost use Rattle.lay_point.specs.declared.point.Point.{Point};
ghost use Rattle.face_rows.specs.Bands.{begins_in};
ghost use Rattle.band_workers.specs.Cuts.{whole_band};

use crate::workers::Workers;
use face_labels::Shared;
use face_rows::Band;
use face_sweep::Stop;
use lay_point::{Edge, NoMemory};
use std::alloc::{AllocError, Global};

/// Returns the rows at which as many bands as there are workers begin, the least first, and the row at
/// which the last one ends. Every edge begins in the rows from the first to the last. About as many stops
/// are in one band as in another, as far as rows allow.
pub(crate) fn cuts_of(
    alloc: Global,
    edges: &[Edge],
    shared: &Shared,
    workers: Workers,
) -> Result<Vec<i64>, NoMemory>
    ensures len { IfOk result (λ cuts. length cuts.items ≡ workers + 1) }
    ensures whole { IfOk result (λ cuts. (e : Point × Point) → Contains edges.now e
        → IsTrue (begins_in (whole_band cuts.items) e)) }
{
    let whole = Band::of(edges);
    let mut cuts = Vec::new(alloc);
    cuts.push(whole.low)?;
    put_inner(&mut cuts, shared.stops(), usize::from(workers.number()))?;
    cuts.push(whole.high)?;
    Ok(cuts)
}

/// Appends the rows at which bands after the first begin: those of the stops at equal shares.
fn put_inner(cuts: &mut Vec<i64>, stops: &[Stop], workers: usize) -> Result<(), AllocError>
    requires { 1 ≤ workers }
    ensures len { OnOk result (length cuts.new.items ≡ length cuts.old.items + (workers - 1)) }
    ensures kept { OnOk result (take (length cuts.old.items) cuts.new.items ≡ cuts.old.items) }
{
    let share = stops.len() / workers;
    for worker in 1..workers {
        cuts.push(row_at(stops, share.saturating_mul(worker)))?;
    }
    Ok(())
}

/// Returns the row of the stop at the index, or zero, if there is none.
fn row_at(stops: &[Stop], index: usize) -> i64 {
    match stops.get(index) {
        Some(stop) => i64::from(stop.point.y),
        None => 0,
    }
}
