//! Tests of what no clause says of sessions that run: that their threads overlap, also while an operation is
//! computed.
ghost use Rattle.std.specs.Prelude.{◌≡◌, IfOk, length};

use band_workers::{Bands, OneBand};
use cif_layout::FromCif;
use face_rows::Op;
use lay_cells::CellId;
use lay_items::Snapshot;
use lay_point::{LayerName, NoMemory, Sequence};
use locked_desk::{Desk, SessionGate, run_sessions};
use session_steps::Step;
use snap_chains::CleanEdges;
use std::alloc::Global;
use std::marker::Brand;
use std::sync::Wait;
use std::sync::atomic::{AtomicU64, Ordering};
use std::sync::ledger::{Blank, Ledger};
use std::test::*;
use std::thread::Threads;
use txn_commands::Command;

/// Where two sessions wait for each other, for so many turns at most.
#[derive(Drop)]
struct Meeting {
    here: AtomicU64,
    met: AtomicU64,
}

impl Meeting {
    /// Comes to the meeting, and waits until another has come.
    fn come(&self) {
        self.here.fetch_add(1, Ordering::SeqCst);
        for _ in 0..50_000_000 {
            if self.here.load(Ordering::SeqCst) >= 2 {
                self.met.fetch_add(1, Ordering::SeqCst);
                return;
            }
        }
    }
}

impl SessionGate for Meeting {
    fn pass(&self, _session: u8, step: usize) {
        if step == 1 {
            self.come();
        }
    }
}

impl Bands for Meeting {
    fn label_all<R: Threads + Sync>(
        &self,
        rt: &R,
        alloc: Global,
        edges: &CleanEdges,
        op: Op,
    ) -> Result<Vec<bool>, NoMemory> {
        self.come();
        OneBand.label_all(rt, alloc, edges, op)
    }
}

/// A gate that stands open.
struct OpenGate;

impl SessionGate for OpenGate {
    fn pass(&self, _session: u8, _step: usize) {}
}

/// Returns a layout of two boxes that overlap, on two layers.
fn two_boxes(alloc: Global) -> Result<Snapshot, Fail> {
    let file = cif_read::read(alloc, b"L A; B 8 8 0 0; L B; B 8 8 4 4; E")?;
    Ok(Snapshot::from_cif(alloc, file)?)
}

/// Returns the steps of a session that combines the two layers.
fn combining(alloc: Global) -> Result<Sequence<Step>, Fail> {
    let mut steps = Vec::new(alloc);
    steps.push(Step::Open)?;
    steps.push(Step::Do(Command::Bool {
        op: Op::And,
        cell: CellId::Top,
        a: LayerName::new(b"A").ok_or("no layer name")?,
        b: LayerName::new(b"B").ok_or("no layer name")?,
        out: LayerName::new(b"Q").ok_or("no layer name")?,
    }))?;
    Ok(Sequence::from_vec(steps))
}

/// Returns the scripts of two such sessions.
fn two_scripts(alloc: Global) -> Result<Sequence<Sequence<Step>>, Fail>
    ensures { IfOk result (λ scripts. length scripts ≡ 2) }
{
    let mut scripts = Vec::new(alloc);
    scripts.push(combining(alloc)?)?;
    scripts.push(combining(alloc)?)?;
    Ok(Sequence::from_vec(scripts))
}

/// Runs two sessions that combine layers.
fn run_two<L, R, G, B>(rt: &R, alloc: Global, blank: Blank, gate: &G, bands: &B) -> Result<(), Fail>
where
    L: Ledger + Send + Sync,
    R: Threads + Wait + Sync,
    G: SessionGate + Sync,
    B: Bands + Sync,
    requires { (blank.name ≡ L.name) × (blank.parts ≡ L.parts) × (blank.parts ≡ 2) }
{
    let (desk, seats) = Desk::<L>::new(alloc, two_boxes(alloc)?, 2, blank)?;
    run_sessions(rt, alloc, desk, seats, two_scripts(alloc)?, gate, bands)?;
    Ok(())
}

/// Returns a meeting to which none has come.
fn nobody() -> Meeting {
    Meeting {
        here: AtomicU64::new(0),
        met: AtomicU64::new(0),
    }
}

// Could catch one thread for all sessions, which no clause forbids: before its second step each of two waits until the other has
// come there too.
#[test]
fn two_sessions_run_at_once(rt: HostRuntime) -> Result<(), Fail> {
    let gate = nobody();
    run_two::<Brand, HostRuntime, Meeting, OneBand>(
        &rt,
        rt.alloc(),
        Blank::new(2),
        &gate,
        &OneBand,
    )?;
    assert!(rt; gate.met.load(Ordering::SeqCst) == 2);
    Ok(())
}

// Could catch a second lock round the commands of all sessions, which no clause forbids: in the operations of two sessions each
// waits until the other has come there too.
#[test]
fn two_operations_are_computed_at_once(rt: HostRuntime) -> Result<(), Fail> {
    let bands = nobody();
    run_two::<Brand, HostRuntime, OpenGate, Meeting>(
        &rt,
        rt.alloc(),
        Blank::new(2),
        &OpenGate,
        &bands,
    )?;
    assert!(rt; bands.met.load(Ordering::SeqCst) == 2);
    Ok(())
}
